//! Whether the operations of a trace stand in a lawful order.
ghost use Rattle.std.specs.Prelude.{◌≡◌, ◌↔◌, ◌<◌, ◌+◌, IsTrue, Some, true, length, slice_get};
ghost use Rattle.std.specs.Option.{option_map};
ghost use Rattle.trace_ops.specs.Rules.{FollowsOverflow, HasFrames, HasItsFrames, IsBesideItsGuard, IsEndOnlyAtEnd, ends, sets_overflow_at, tests_overflow_at};
ghost use Rattle.trace_ops.specs.Facts.{part_of};

use trace_ops::{Frame, Op, Part, Trace, is_guard, is_overflowing, part_of, reads_overflow};

fn sets_overflow_at(ops: &[Op], k: usize) -> bool
    ensures { IsTrue result ↔ (sets_overflow_at ops.now k ≡ Some true) }
{
    match ops.get(k) {
        None => false,
        Some(op) => is_overflowing(op.code),
    }
}

fn tests_overflow_at(ops: &[Op], k: usize) -> bool
    ensures { IsTrue result ↔ (tests_overflow_at ops.now k ≡ Some true) }
{
    match ops.get(k) {
        None => false,
        Some(op) => reads_overflow(op.code),
    }
}

fn follows_overflow(ops: &[Op], k: usize) -> bool
    ensures { IsTrue result ↔ FollowsOverflow ops.now k }
{
    if k == 0 {
        return false;
    }
    sets_overflow_at(ops, k - 1)
}

/// Rule 7: what sets overflow and the guard that reads it stand together.
pub(crate) fn is_beside_its_guard(trace: &Trace, k: usize, op: &Op) -> bool
    requires { k < length trace.now.ops }
    ensures { IsTrue result ↔ IsBesideItsGuard trace.now k op.now }
{
    let ops = trace.ops.items();
    (!is_overflowing(op.code) || tests_overflow_at(ops, k + 1))
        && (!reads_overflow(op.code) || follows_overflow(ops, k))
}

fn has_frames(wanted: bool, frames: &[Frame]) -> bool
    ensures { IsTrue result ↔ HasFrames wanted frames.now }
{
    if wanted {
        return !frames.is_empty();
    }
    frames.is_empty()
}

/// Rule 8: a guard has at least one frame, and nothing else has one.
pub(crate) fn has_its_frames(op: &Op) -> bool
    ensures { IsTrue result ↔ HasItsFrames op.now }
{
    has_frames(is_guard(op.code), op.snapshot.items())
}

fn ends(part: Part) -> bool
    ensures { result ≡ ends part }
{
    matches!(part, Part::Jump | Part::Finish)
}

/// Rule 9: the last operation is a jump or a finish, and no earlier one is.
pub(crate) fn is_end_only_at_end(trace: &Trace, k: usize, op: &Op) -> bool
    requires { k < length trace.now.ops }
    ensures { IsTrue result ↔ IsEndOnlyAtEnd trace.now k op.now }
{
    let count = trace.ops.items().len();
    ends(part_of(op.code)) == (k + 1 == count)
}
