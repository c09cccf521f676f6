// The plans of all pieces of loops, one behind the other.
#![tactic(auto)]

ghost use Rattle.std.specs.Prelude.{◌≡◌, ℕ, ◌+◌, ◌*◌, ◌<◌, ◌≤◌, ◌^◌, map, IfOk};
ghost use Rattle.std.specs.List.{AllByRecursion};
ghost use Rattle.std.specs.Borrow.{Bor};
ghost use Rattle.trace_ops.specs.declared.piece.Piece.{Piece};
ghost use Rattle.bridge_patch.specs.Planning.{CanPlan, ArePlanned, StartsBelow, starts_of, room_for};

use crate::layout::exits_in;
use crate::plan::{Plan, loop_ends, planned};
use std::alloc::{AllocError, Global};
use trace_ops::{Piece, TraceSet};

// The plans of pieces, from this place on.
pub(crate) fn plan_all(
    alloc: Global,
    set: &TraceSet,
    pieces: &[&Piece],
    registers: u8,
    from: u32,
) -> Result<Vec<Plan>, AllocError>
    requires can { AllByRecursion (λ (p : Piece). CanPlan set.now p registers) (map (λ (b : Bor Piece). b.now) pieces.now) }
    requires room { from + room_for (map (λ (b : Bor Piece). b.now) pieces.now) < 2 ^ 30 }
    ensures plans { IfOk result (λ plans. (end : ℕ) × (last : ℕ) × ArePlanned set.now registers from 0 (map (λ (b : Bor Piece). b.now) pieces.now) plans.items end last) }
    ensures starts { IfOk result (λ plans. StartsBelow (starts_of plans.items)) }
{
    let mut plans = Vec::new(alloc);
    let mut at = from;
    let mut exit = 0;
    for piece in pieces {
        let ends = loop_ends(alloc, piece)?;
        let plan = planned(alloc, set, piece, registers, ends, at, exit)?;
        let exits = exits_in(piece.ops.items());
        at = plan.stubs + 16 * exits;
        exit += exits;
        plans.push(plan)?;
    }
    Ok(plans)
}
