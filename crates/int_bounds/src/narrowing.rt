//! What the answer of a comparison tells of its arguments.
ghost use Rattle.std.specs.Prelude.{◌≡◌, true, false, IfSome};
ghost use Rattle.int_bounds.specs.Narrows.{Answers, Narrows, IsTight, is_order, turned};

use crate::Interval;
use crate::signed::{apart, below, no_more, same};
use crate::unsigned::{unsigned_below, unsigned_no_more};
use trace_ops::OpCode;

// The other way round.
fn turned(pairs: Option<(Interval, Interval)>) -> Option<(Interval, Interval)>
    ensures { result ≡ turned pairs }
{
    match pairs {
        Some((a, b)) => Some((b, a)),
        None => None,
    }
}

// Of `int_lt`.
fn less(passed: bool, a: Interval, b: Interval) -> Option<(Interval, Interval)>
    ensures narrows { Narrows (Answers OpCode.IntLt passed) a b result }
    ensures tight { IfSome result (IsTight (Answers OpCode.IntLt passed)) }
{
    if passed {
        return below(a, b);
    }
    turned(no_more(b, a))
}

// Of `int_le`.
fn at_most(passed: bool, a: Interval, b: Interval) -> Option<(Interval, Interval)>
    ensures narrows { Narrows (Answers OpCode.IntLe passed) a b result }
    ensures tight { IfSome result (IsTight (Answers OpCode.IntLe passed)) }
{
    if passed {
        return no_more(a, b);
    }
    turned(below(b, a))
}

// Of `int_eq`.
fn equal(passed: bool, a: Interval, b: Interval) -> Option<(Interval, Interval)>
    ensures narrows { Narrows (Answers OpCode.IntEq passed) a b result }
    ensures tight { passed ≡ true → IfSome result (IsTight (Answers OpCode.IntEq passed)) }
{
    if passed {
        return same(a, b);
    }
    apart(a, b)
}

// Of `int_ne`.
fn unequal(passed: bool, a: Interval, b: Interval) -> Option<(Interval, Interval)>
    ensures narrows { Narrows (Answers OpCode.IntNe passed) a b result }
    ensures tight { passed ≡ false → IfSome result (IsTight (Answers OpCode.IntNe passed)) }
{
    if passed {
        return apart(a, b);
    }
    same(a, b)
}

// Of `uint_lt`.
fn unsigned_less(passed: bool, a: Interval, b: Interval) -> Option<(Interval, Interval)>
    ensures { Narrows (Answers OpCode.UintLt passed) a b result }
{
    if passed {
        return unsigned_below(a, b);
    }
    turned(unsigned_no_more(b, a))
}

// Of `uint_le`.
fn unsigned_at_most(passed: bool, a: Interval, b: Interval) -> Option<(Interval, Interval)>
    ensures { Narrows (Answers OpCode.UintLe passed) a b result }
{
    if passed {
        return unsigned_no_more(a, b);
    }
    turned(unsigned_below(b, a))
}

/// What a comparison that answered 1, where it passed, or 0 tells of its arguments: each pair of words of `a` and `b`
/// that answers so stays, neither interval grows, and `None` comes only where no pair answers so.
///
/// Signed order and equality are exact: neither bound can be moved, and `None` comes wherever no pair answers so.
/// Two words that differ trim a bound where one of them is known. Unsigned order is exact within one sign, and where
/// the greater isn't negative it leaves nothing negative to the lesser; else, and for what is no comparison, both
/// intervals come back.
pub fn narrow(code: OpCode, passed: bool, a: Interval, b: Interval) -> Option<(Interval, Interval)>
    ensures narrows { Narrows (Answers code passed) a b result }
    ensures tight { is_order code passed ≡ true → IfSome result (IsTight (Answers code passed)) }
{
    match code {
        OpCode::IntLt => less(passed, a, b),
        OpCode::IntLe => at_most(passed, a, b),
        OpCode::IntEq => equal(passed, a, b),
        OpCode::IntNe => unequal(passed, a, b),
        OpCode::IntGt => turned(less(passed, b, a)),
        OpCode::IntGe => turned(at_most(passed, b, a)),
        OpCode::UintLt => unsigned_less(passed, a, b),
        OpCode::UintLe => unsigned_at_most(passed, a, b),
        OpCode::UintGt => turned(unsigned_less(passed, b, a)),
        OpCode::UintGe => turned(unsigned_at_most(passed, b, a)),
        _ => Some((a, b)),
    }
}
