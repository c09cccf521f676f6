// What stands between a guard and the first operation of a bridge's piece.
#![tactic(auto)]

ghost use Rattle.std.specs.Prelude.{◌≡◌, ℕ, ◌+◌, ◌*◌, ◌<◌, ◌≤◌, ◌^◌, ◌&&◌, not, nat_lt, length, IfOk, OnOk, ◌++◌};
ghost use Rattle.target_base.specs.declared.place.Place.{Place as OnePlace};
ghost use Rattle.target_base.specs.declared.place.Place.TheVariants.{Word};
ghost use Rattle.linear_scan.specs.Registers.{is_kept};
ghost use Rattle.linear_scan.specs.Living.{is_calling, UsesDefined};
ghost use Rattle.linear_scan.specs.Placing.{words_used};
ghost use Rattle.linear_scan.specs.Placed.{to_at, widened};
ghost use Rattle.bridge_patch.specs.Attached.{store, entry_step, entry_code};
ghost use Rattle.bridge_patch.specs.Planning.{CanPlace};
ghost use Rattle.bridge_patch.specs.Bridging.{first_call, label_place, labels_from, label_behind};

use linear_scan::{Live, numbered_boxes_are_defined, ranges};
use std::alloc::{AllocError, Global};
use target_base::{Place, Reg};
use trace_ops::{List, OptOp, Piece, is_allocation, is_call};
use x64_encode::{Instr, Mem};

// Whether an operation loses the registers that calls lose.
fn is_calling(op: &OptOp) -> bool
    ensures { result ≡ is_calling op.now }
{
    match op {
        OptOp::Plain { code, .. } => is_call(*code) || is_allocation(*code),
        _ => false,
    }
}

// The first operation that is a call, or their number.
fn first_call(ops: &[OptOp]) -> usize
    ensures { result ≡ first_call ops.now }
{
    let mut place = 0;
    for op in ops {
        if is_calling(op) {
            return place;
        }
        place += 1;
    }
    place
}

// Whether calls keep a register.
fn is_kept(r: Reg) -> bool
    ensures { result ≡ is_kept r.0 }
{
    r.0 == 3 || r.0 >= 12
}

// The place at the guard, but where a call loses the register there a frame word of the register's own.
fn label_place(base: u32, crosses: bool, place: Place) -> Place
    requires { base < 2 ^ 30 }
    ensures { result ≡ label_place base crosses place }
{
    match place {
        Place::In(r) => if crosses && !is_kept(r) {
            Place::Word(base + u32::from(r.0))
        } else {
            place
        },
        Place::Word(_) => place,
    }
}

// The operation at which a box ends.
fn end_at(lives: &[Live], b: usize) -> usize
    ensures { result ≡ to_at lives.now b }
{
    match lives.get(b) {
        Some(live) => live.to as usize,
        None => 0,
    }
}

// The places of a label's boxes, by where these end.
fn labels(
    alloc: Global,
    guards: &[Place],
    lives: &[Live],
    call: usize,
    base: u32,
) -> Result<List<Place>, AllocError>
    requires { base < 2 ^ 30 }
    ensures { IfOk result (λ label. label ≡ labels_from (to_at lives.now) call base 0 guards.now) }
{
    let mut label = Vec::new(alloc);
    for b in 0..guards.len() {
        let crosses = call < end_at(lives, b);
        label.push(label_place(base, crosses, guards[b]))?;
    }
    Ok(List::of(label))
}

// One past the greatest frame word, and 16 where there is none.
fn words_used(places: &[Place]) -> u32
    requires { words_used places.now < 2 ^ 30 }
    ensures { result ≡ words_used places.now }
{
    let mut words = 16;
    for place in places {
        words = more_words(*place, words);
    }
    words
}

fn more_words(place: Place, words: u32) -> u32
    requires { (w : ℕ) → place ≡ Word w → w < 2 ^ 30 }
    ensures { result ≡ widened place words }
{
    match place {
        Place::In(_) => words,
        Place::Word(w) => words.max(w + 1),
    }
}

// The places of a label behind a guard.
pub(crate) fn label_behind(
    alloc: Global,
    piece: &Piece,
    guards: &[Place],
) -> Result<List<Place>, AllocError>
    requires place { (registers : ℕ) × CanPlace piece.now registers }
    requires long { length guards.now ≤ length piece.now.label }
    requires words { words_used guards.now < 2 ^ 30 }
    ensures { IfOk result (λ label. label ≡ label_behind piece.now guards.now) }
{
    numbered_boxes_are_defined();
    let lives = ranges(alloc, piece)?;
    let call = first_call(piece.ops.items());
    labels(alloc, guards, &lives, call, words_used(guards))
}

// The store of a register in a frame word.
fn store(r: Reg, word: u32) -> Instr
    requires { word < 2 ^ 27 }
    ensures { result ≡ store r word }
{
    Instr::Store(Mem::At(Reg(5), 8 * word as i32 - 128), r)
}

// Adds the store that brings a box from one place to another, if it has two.
fn add_entry(front: &mut List<Instr>, from: Place, to: Place) -> Result<(), AllocError>
    requires { (w : ℕ) → to ≡ Word w → w < 2 ^ 27 }
    ensures { OnOk result (front.new ≡ front.old ++ entry_step from to) }
{
    match (from, to) {
        (Place::In(r), Place::Word(word)) => front.push(store(r, word)),
        _ => Ok(()),
    }
}

// The stores that bring a label's boxes from the places at the guard to the label's.
pub(crate) fn entry_code(
    alloc: Global,
    from: &[Place],
    to: &[Place],
) -> Result<List<Instr>, AllocError>
    requires long { length to.now ≡ length from.now }
    requires words { words_used to.now ≤ 2 ^ 27 }
    ensures { IfOk result (λ front. front ≡ entry_code from.now to.now) }
{
    let mut front = List::of(Vec::new(alloc));
    for k in 0..from.len() {
        add_entry(&mut front, from[k], to[k])?;
    }
    Ok(front)
}
