// The rows of a piece's exits.
#![tactic(auto)]

ghost use Rattle.std.specs.Prelude.{◌≡◌, ℕ, ◌+◌, ◌*◌, ◌<◌, ◌≤◌, ◌^◌, ◌++◌, ◌∷◌, [], length, IfOk, OnOk, slice_index_or};
ghost use Rattle.asm_select.specs.Given.{where_in};
ghost use Rattle.code_layout.specs.Emitting.{listed};
ghost use Rattle.bridge_patch.specs.Pieces.{FirstsBelow, exits_in, place_among, boxes_at, finished_boxes, rows_of_op, rows_from};

use crate::layout::exit_count;
use crate::plan::Plan;
use guard_exit::ExitRow;
use std::alloc::{AllocError, Global};
use target_base::Place;
use trace_ops::{Arg, BoxId, List, OptOp, PieceId, parts};

// The place of each operation's displacement, by the jumps of so many operations.
pub(crate) fn displacements(
    alloc: Global,
    jumps: &[(u32, u32)],
    count: usize,
) -> Result<Vec<u32>, AllocError>
    requires { FirstsBelow count jumps.now }
    ensures { IfOk result (λ ats. (k : ℕ) → k < count → slice_index_or ats.items k 0 ≡ place_among k 0 jumps.now) }
{
    let mut ats = Vec::from_elem(alloc, 0, count)?;
    for i in 0..jumps.len() {
        ats[jumps[i].0 as usize] = jumps[i].1;
    }
    Ok(ats)
}

// The place of a box.
fn place_of(at: &[Place], number: u32) -> Place
    ensures { result ≡ where_in at.now number }
{
    match at.get(number as usize) {
        Some(place) => *place,
        None => Place::Word(16),
    }
}

// Boxes with their places.
fn boxes_at(
    alloc: Global,
    at: &[Place],
    boxes: &[BoxId],
) -> Result<List<(BoxId, Place)>, AllocError>
    ensures { IfOk result (λ rows. rows ≡ boxes_at (where_in at.now) boxes.now) }
{
    let mut rows = Vec::new(alloc);
    for b in boxes {
        rows.push((*b, place_of(at, b.number)))?;
    }
    Ok(List::of(rows))
}

// The box that a finish shows.
fn finished_boxes(alloc: Global, value: Option<Arg>) -> Result<Vec<BoxId>, AllocError>
    ensures { IfOk result (λ boxes. boxes.items ≡ finished_boxes value) }
{
    let mut boxes = Vec::new(alloc);
    if let Some(Arg::Of(b)) = value {
        boxes.push(b)?;
    }
    Ok(boxes)
}

// Adds the row of an operation's exit, if it has one.
fn add_row(
    alloc: Global,
    rows: &mut Vec<ExitRow>,
    at: &[Place],
    id: PieceId,
    exit: u32,
    place: u32,
    op: &OptOp,
) -> Result<(), AllocError>
    ensures { OnOk result (rows.new.items ≡ rows.old.items ++ rows_of_op (where_in at.now) id exit place op.now) }
{
    match op {
        OptOp::Guard { guard, snap, .. } | OptOp::Exit { guard, snap } => {
            let places = boxes_at(alloc, at, &parts(alloc, snap)?)?;
            let guard = Some(*guard);
            rows.push(ExitRow {
                exit,
                id,
                guard,
                at: place,
                places,
            })?;
            Ok(())
        }
        OptOp::Finish { value } => {
            let places = boxes_at(alloc, at, &finished_boxes(alloc, *value)?)?;
            rows.push(ExitRow {
                exit,
                id,
                guard: None,
                at: 0,
                places,
            })?;
            Ok(())
        }
        OptOp::Plain { .. } | OptOp::Jump { .. } => Ok(()),
    }
}

// Adds the rows of a piece's exits, with the places of displacements by operation.
pub(crate) fn add_rows(
    alloc: Global,
    rows: &mut Vec<ExitRow>,
    plan: &Plan,
    ops: &[OptOp],
    ats: &[u32],
) -> Result<(), AllocError>
    requires { plan.now.exit + exits_in ops.now < 2 ^ 31 }
    ensures { OnOk result (rows.new.items ≡ rows.old.items ++ rows_from (where_in plan.now.places.at) plan.now.id (listed ats.now) plan.now.exit 0 ops.now) }
{
    let at = plan.places.at.items();
    let mut exit = plan.exit;
    for k in 0..ops.len() {
        add_row(alloc, rows, at, plan.id, exit, listed(ats, k), &ops[k])?;
        exit += exit_count(&ops[k]);
    }
    Ok(())
}

// A number of a list, or 0.
fn listed(numbers: &[u32], k: usize) -> u32
    ensures { result ≡ listed numbers.now k }
{
    match numbers.get(k) {
        Some(n) => *n,
        None => 0,
    }
}
