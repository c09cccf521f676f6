//! Where the piece of a trace goes on.
ghost use Rattle.std.specs.Prelude.{◌≡◌, ◌≤◌, ℕ, length, option_map};
ghost use Rattle.std.specs.Option.{option_copied};
ghost use Rattle.trace_ops.specs.Facts.{part_of as part};
ghost use Rattle.trace_meaning.specs.Recorded.{last_of, ops_at};
ghost use Rattle.loop_peel.specs.Going.{is_jump, jumps_by, goal_at};

use crate::links::{jump_target, ops_of_trace};
use trace_ops::{Half, Op, OpCode, Part, PieceId, TraceSet, part_of};

fn is_jump(code: OpCode) -> bool
    ensures { result ≡ is_jump (part code) }
{
    match part_of(code) {
        Part::Jump => true,
        Part::Plain => false,
        Part::Overflowing => false,
        Part::Guard => false,
        Part::OverflowGuard => false,
        Part::Finish => false,
    }
}

// Whether the operations end with a jump.
fn jumps(ops: &[Op]) -> bool
    ensures { result ≡ jumps_by (last_of ops.now) }
{
    match ops.last() {
        None => false,
        Some(op) => is_jump(op.code),
    }
}

/// The preamble of the loop to which the trace jumps. No piece is jumped to where it doesn't jump.
pub fn goal_at(set: &TraceSet, trace: u32) -> PieceId
    requires { length set.now.traces ≤ 256 }
    ensures { result ≡ goal_at set.now trace }
{
    if jumps(ops_of_trace(set, trace)) {
        PieceId {
            trace: jump_target(set, trace),
            half: Half::Pre,
        }
    } else {
        PieceId {
            trace,
            half: Half::Body,
        }
    }
}
