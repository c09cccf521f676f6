//! Where the results of integer operations lie, operation by operation.
ghost use Rattle.std.specs.Prelude.{◌≡◌, ℤ, pos, IfSome};
ghost use Rattle.trace_ops.specs.Folds.{unary, binary};
ghost use Rattle.int_bounds.specs.Within.{IsWithin};
ghost use Rattle.int_bounds.specs.Near.{IsNearOne, IsNearTwo};

use crate::Interval;
use crate::bits::{conjunctions, disjunctions, toggles};
use crate::outcomes::{at_mosts, differs, equals, lesses, unsigned_at_mosts, unsigned_lesses};
use crate::products::products;
use crate::shifts::{left_shifts, right_shifts, unsigned_right_shifts};
use crate::sums::{differences, inverses, negatives, raised, sums};
use trace_ops::OpCode;

// Only 0.
fn zero() -> Interval
    ensures contains { IsWithin result (pos 0) }
    ensures only { (y : ℤ) → IsWithin result y → y ≡ pos 0 }
{
    Interval { low: 0, high: 0 }
}

// Of one word.
pub fn bounds_of_one(code: OpCode, a: Interval) -> Interval
    ensures contains { (x : ℤ) → IsWithin a x → IfSome (unary code x) (IsWithin result) }
    ensures near { IsNearOne code a result }
{
    match code {
        OpCode::IntIsZero => equals(a, zero()),
        OpCode::IntIsTrue => differs(a, zero()),
        OpCode::IntNeg => negatives(a),
        OpCode::IntInvert => inverses(a),
        OpCode::IntForceGeZero => raised(a),
        OpCode::SameAsI => a,
        _ => Interval::ALL,
    }
}

// Of two words.
pub fn bounds_of_two(code: OpCode, a: Interval, b: Interval) -> Interval
    ensures contains { (x y : ℤ) → IsWithin a x → IsWithin b y → IfSome (binary code x y) (IsWithin result) }
    ensures near { IsNearTwo code a b result }
{
    match code {
        OpCode::IntAdd => sums(a, b),
        OpCode::IntSub => differences(a, b),
        OpCode::IntMul => products(a, b),
        OpCode::IntAnd => conjunctions(a, b),
        OpCode::IntOr => disjunctions(a, b),
        OpCode::IntXor => toggles(a, b),
        OpCode::IntLshift => left_shifts(a, b),
        OpCode::IntRshift => right_shifts(a, b),
        OpCode::UintRshift => unsigned_right_shifts(a, b),
        OpCode::IntLt => lesses(a, b),
        OpCode::IntLe => at_mosts(a, b),
        OpCode::IntEq => equals(a, b),
        OpCode::IntNe => differs(a, b),
        OpCode::IntGt => lesses(b, a),
        OpCode::IntGe => at_mosts(b, a),
        OpCode::UintLt => unsigned_lesses(a, b),
        OpCode::UintLe => unsigned_at_mosts(a, b),
        OpCode::UintGt => unsigned_lesses(b, a),
        OpCode::UintGe => unsigned_at_mosts(b, a),
        _ => Interval::ALL,
    }
}
