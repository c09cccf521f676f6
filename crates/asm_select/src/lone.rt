// Whether the flags are all that is asked for of a comparison.
#![tactic(auto)]

ghost use Rattle.std.specs.Prelude.{◌≡◌, ◌+◌, ◌||◌, nat_lt};
ghost use Rattle.std.specs.List.{flat_map, list_any};
ghost use Rattle.trace_ops.specs.Parts.{boxes_of};
ghost use Rattle.trace_ops.specs.Pieces.{snapshots_of};
ghost use Rattle.trace_meaning.specs.Boxes.{same_box};
ghost use Rattle.asm_select.specs.Chosen.{is_needed, is_lone};
ghost use Rattle.asm_select.specs.Needed.{arg_has, val_has, frame_has, shape_has, store_has, parts_have};
ghost use Rattle.asm_select.specs.Drafting.{end_of_life, end_in, in_next, Tells};

use crate::told::is_tested;
use linear_scan::Live;
use trace_ops::{Arg, BoxId, OptFrame, OptOp, Pending, Shape, Snapshot, Val};

fn arg_has(r: BoxId, arg: Arg) -> bool
    ensures { result ≡ arg_has r arg }
{
    match arg {
        Arg::Of(b) => r == b,
        _ => false,
    }
}

fn val_has(r: BoxId, val: Val) -> bool
    ensures { result ≡ val_has r val }
{
    match val {
        Val::Known(arg) => arg_has(r, arg),
        Val::Virtual(_) => false,
    }
}

fn vals_have(r: BoxId, vals: &[Val]) -> bool
    ensures { result ≡ list_any (val_has r) vals.now }
{
    vals.iter().any(|val| val_has(r, *val))
}

fn frames_have(r: BoxId, frames: &[OptFrame]) -> bool
    ensures { result ≡ list_any (frame_has r) frames.now }
{
    frames.iter().any(|frame| vals_have(r, frame.slots.items()))
}

fn shapes_have(r: BoxId, shapes: &[Shape]) -> bool
    ensures { result ≡ list_any (shape_has r) shapes.now }
{
    shapes.iter().any(|shape| vals_have(r, shape.parts.items()))
}

fn store_has(r: BoxId, store: Pending) -> bool
    ensures { result ≡ store_has r store }
{
    arg_has(r, store.base) || val_has(r, store.value)
}

fn stores_have(r: BoxId, stores: &[Pending]) -> bool
    ensures { result ≡ list_any (store_has r) stores.now }
{
    stores.iter().any(|store| store_has(r, *store))
}

fn parts_have(r: BoxId, snap: &Snapshot) -> bool
    ensures { result ≡ parts_have r snap.now }
{
    frames_have(r, snap.frames.items())
        || shapes_have(r, snap.shapes.items())
        || stores_have(r, snap.pending.items())
}

fn snapshot_has(r: BoxId, snap: &Snapshot) -> bool
    ensures { result ≡ list_any (same_box r) (boxes_of snap.now) }
{
    parts_have(r, snap)
}

#[tactic(auto, using(crate::proofs::Anys::any_append))]
fn op_has(r: BoxId, op: &OptOp) -> bool
    ensures { result ≡ list_any (same_box r) (flat_map boxes_of (snapshots_of op.now)) }
{
    match op {
        OptOp::Guard { snap, .. } => snapshot_has(r, snap),
        OptOp::Exit { snap, .. } => snapshot_has(r, snap),
        _ => false,
    }
}

// The next operation has the box in its snapshot.
fn in_next(r: BoxId, rest: &[OptOp]) -> bool
    ensures { result ≡ in_next r rest.now }
{
    match rest {
        [op, ..] => op_has(r, op),
        [] => false,
    }
}

fn end_of(lives: &[Live], b: u32) -> u32
    ensures { result ≡ end_in lives.now b }
{
    match lives.get(b as usize) {
        Some(live) => live.to,
        None => 0,
    }
}

// The result of operation k is used behind the operation that tests it, or in that one's snapshot.
fn is_needed(lives: &[Live], k: u32, r: BoxId, rest: &[OptOp]) -> bool
    requires tell { Tells lives.now k rest.now r }
    ensures { result ≡ is_needed r rest.now }
{
    in_next(r, rest) || u64::from(k) + 1 < u64::from(end_of(lives, r.number))
}

/// Only the flags of a comparison are asked for: the next operation tests its result, and nothing else needs it. The
/// lives are those of the piece, and the result is that of operation k.
pub fn is_lone(lives: &[Live], k: u32, r: BoxId, rest: &[OptOp]) -> bool
    requires tell { Tells lives.now k rest.now r }
    ensures { result ≡ is_lone r rest.now }
{
    is_tested(r, rest) && !is_needed(lives, k, r, rest)
}
