// How the pieces of loops are to be laid out.
#![tactic(auto)]

ghost use Rattle.std.specs.Prelude.{◌≡◌, ℕ, ◌+◌, ◌-◌, ◌*◌, ◌<◌, ◌≤◌, ◌^◌, ◌++◌, ◌∷◌, [], length, All, IfOk, OnOk};
ghost use Rattle.trace_ops.specs.Pieces.{size_of, defined_by, jump_args};
ghost use Rattle.linear_scan.specs.Placing.{Allocated};
ghost use Rattle.bridge_patch.specs.Pieces.{words_from, label_places, exits_in, loop_front};
ghost use Rattle.bridge_patch.specs.Planning.{CanPlan, IsPlanned, IsLabelled, HasEnds, IsShortFront, jump_count, count_of, CanPlace, IsFitted};

use asm_select::{Selected, chosen_have_rows, select, selected_fits};
use code_layout::{chosen_jumps, size_of_all, slots_are_emitted};
use linear_scan::{Places, allocate, numbered_boxes_are_defined};
use std::alloc::{AllocError, Global};
use target_base::Place;
use trace_ops::{Half, List, OptOp, Piece, PieceId, TraceSet};
use x64_encode::{AluOp, Instr, Reg, spellings_are_short};

// A piece with its places and its instructions; the instructions in front of its first operation, and the places of its
// label; where these, its operations and the stubs of its exits are to begin; and the number of its first exit.
#[derive(Drop)]
pub(crate) struct Plan {
    pub(crate) id: PieceId,
    pub(crate) front: List<Instr>,
    pub(crate) label: List<Place>,
    pub(crate) at: u32,
    pub(crate) start: u32,
    pub(crate) stubs: u32,
    pub(crate) exit: u32,
    pub(crate) places: Places,
    pub(crate) selected: Selected,
}

// The places of a label: frame words from 16 on.
pub(crate) fn label_places(alloc: Global, count: usize) -> Result<List<Place>, AllocError>
    requires { count < 2 ^ 31 }
    ensures { IfOk result (λ places. places ≡ label_places count) }
{
    let mut places = Vec::new(alloc);
    for k in 0..count {
        places.push(Place::Word(16 + k as u32))?;
    }
    Ok(List::of(places))
}

// How many arguments the jump at the end has.
fn jump_count(ops: &[OptOp]) -> usize
    ensures { result ≡ jump_count ops.now }
{
    match ops.last() {
        Some(op) => jump_args(op),
        None => 0,
    }
}

fn jump_args(op: &OptOp) -> usize
    ensures { result ≡ jump_args op.now }
{
    match op {
        OptOp::Jump { args, .. } => args.items().len(),
        _ => 0,
    }
}

// What stands in front of a loop's piece.
fn loop_front(alloc: Global, half: Half) -> Result<List<Instr>, AllocError>
    ensures { IfOk result (λ front. front ≡ loop_front half) }
{
    let mut front = List::of(Vec::new(alloc));
    match half {
        Half::Pre => front.push(Instr::AluImm(AluOp::Sub, Reg(5), -128))?,
        Half::Body => {}
    }
    Ok(front)
}

// What stands before and behind a piece: the instructions in front of its first operation, the places of its label, and
// those of the label to which it jumps.
#[derive(Drop)]
pub(crate) struct Ends {
    pub(crate) front: List<Instr>,
    pub(crate) label: List<Place>,
    pub(crate) to: List<Place>,
}

// The ends of a piece of a loop: places of labels are frame words.
pub(crate) fn loop_ends(alloc: Global, piece: &Piece) -> Result<Ends, AllocError>
    requires label { length piece.now.label < 2 ^ 31 }
    requires jump { jump_count piece.now.ops < 2 ^ 31 }
    ensures front { IfOk result (λ ends. ends.front ≡ loop_front piece.now.id.half) }
    ensures label { IfOk result (λ ends. ends.label ≡ label_places (length piece.now.label)) }
    ensures to { IfOk result (λ ends. ends.to ≡ label_places (jump_count piece.now.ops)) }
{
    let front = loop_front(alloc, piece.id.half)?;
    let label = label_places(alloc, piece.label.items().len())?;
    let to = label_places(alloc, jump_count(piece.ops.items()))?;
    Ok(Ends { front, label, to })
}

// The places of a piece's boxes, its label's boxes having these.
fn places_of(
    alloc: Global,
    piece: &Piece,
    registers: u8,
    label: &[Place],
) -> Result<Places, AllocError>
    requires can { CanPlace piece.now registers }
    requires label { IsLabelled piece.now registers label.now }
    ensures { IfOk result (λ places. Allocated piece.now registers label.now places) }
{
    numbered_boxes_are_defined();
    allocate(alloc, piece, registers, label)
}

// The places and the instructions of a piece between such ends.
fn fitted(
    alloc: Global,
    set: &TraceSet,
    piece: &Piece,
    registers: u8,
    ends: &Ends,
) -> Result<(Places, Selected), AllocError>
    requires can { CanPlan set.now piece.now registers }
    requires ends { HasEnds piece.now registers ends.now.label ends.now.to }
    ensures { IfOk result (λ r. IsFitted set.now piece.now ends.now.label ends.now.to registers r.0 r.1) }
{
    selected_fits();
    chosen_have_rows();
    slots_are_emitted();
    chosen_jumps();
    let places = places_of(alloc, piece, registers, ends.label.items())?;
    let selected = select(alloc, set, piece, &places, ends.to.items())?;
    Ok((places, selected))
}

// The plan of a piece between such ends, which begins at this place.
pub(crate) fn planned(
    alloc: Global,
    set: &TraceSet,
    piece: &Piece,
    registers: u8,
    ends: Ends,
    at: u32,
    exit: u32,
) -> Result<Plan, AllocError>
    requires can { CanPlan set.now piece.now registers }
    requires ends { HasEnds piece.now registers ends.label ends.to }
    requires front { IsShortFront ends.front }
    requires room { at + 64 + 32 * size_of piece.now < 2 ^ 31 }
    ensures { IfOk result (λ plan. IsPlanned set.now piece.now registers ends.label ends.to ends.front at exit plan) }
{
    spellings_are_short();
    let (places, selected) = fitted(alloc, set, piece, registers, &ends)?;
    let Ends { front, label, .. } = ends;
    let start = at + size_of_all(front.items());
    let stubs = start + size_of_all(selected.instrs.items());
    Ok(Plan {
        id: piece.id,
        front,
        label,
        at,
        start,
        stubs,
        exit,
        places,
        selected,
    })
}
