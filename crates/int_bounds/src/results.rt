//! Where the results of integer operations lie.
ghost use Rattle.std.specs.Prelude.{◌≡◌, ℤ, Some, List, length, IfSome};
ghost use Rattle.trace_ops.specs.Folds.{unary, binary};
ghost use Rattle.int_bounds.specs.Within.{IsWithin, AreWithin, IsOnly, AreOnly};
ghost use Rattle.int_bounds.specs.Near.{IsNearOne, IsNearTwo, IsNear};
ghost use Rattle.int_bounds.specs.Values.{plain_of, arity_of, value_of};

use crate::Interval;
use crate::bounds::{bounds_of_one, bounds_of_two};
use crate::only::only;
use trace_ops::{OpCode, fold};

// The operation that gives the same word and doesn't look for overflow.
fn plain_of(code: OpCode) -> OpCode
    ensures { result ≡ plain_of code }
{
    match code {
        OpCode::IntAddOvf => OpCode::IntAdd,
        OpCode::IntSubOvf => OpCode::IntSub,
        OpCode::IntMulOvf => OpCode::IntMul,
        _ => code,
    }
}

// Of one word; a known one is folded.
fn of_one(code: OpCode, a: Interval) -> Interval
    ensures contains { (x : ℤ) → IsWithin a x → IfSome (unary code x) (IsWithin result) }
    ensures constant { (x : ℤ) → IsOnly a x → IfSome (unary code x) (IsOnly result) }
    ensures near { IsNearOne code a result }
{
    let Some(x) = only(a) else {
        return bounds_of_one(code, a);
    };
    let Some(z) = fold(code, &[x]) else {
        return Interval::ALL;
    };
    Interval { low: z, high: z }
}

// Of two words; known ones are folded.
fn of_two(code: OpCode, a: Interval, b: Interval) -> Interval
    ensures contains { (x y : ℤ) → IsWithin a x → IsWithin b y → IfSome (binary code x y) (IsWithin result) }
    ensures constant { (x y : ℤ) → IsOnly a x → IsOnly b y → IfSome (binary code x y) (IsOnly result) }
    ensures near { IsNearTwo code a b result }
{
    let Some(x) = only(a) else {
        return bounds_of_two(code, a, b);
    };
    let Some(y) = only(b) else {
        return bounds_of_two(code, a, b);
    };
    let Some(z) = fold(code, &[x, y]) else {
        return Interval::ALL;
    };
    Interval { low: z, high: z }
}

/// Where an integer operation's results lie: among the words that it answers is each that it gives on words of `args`,
/// and where each of `args` is one word, the answer is the one result.
///
/// An operation that looks for overflow is read as the one that doesn't.
/// Sums, differences, negatives and products are exact where none wraps, and else the whole range; bits turned and
/// `int_force_ge_zero` are exact. Shifts by one known number are exact, to the left where none wraps.
/// `int_and` is from 0 to the lesser bound that isn't negative; `int_or` and `int_xor` of words that aren't negative
/// have as many bits as the greater bound. Comparisons are decided where the intervals decide them.
/// Everything else is the whole range.
pub fn transfer(code: OpCode, args: &[Interval]) -> Interval
    requires { arity_of code ≡ Some (length args.now) }
    ensures contains { (words : List ℤ) → AreWithin args.now words → IfSome (value_of code words) (IsWithin result) }
    ensures constant { (words : List ℤ) → AreOnly args.now words → IfSome (value_of code words) (IsOnly result) }
    ensures near { IsNear (plain_of code) args.now result }
{
    match args {
        [a] => of_one(plain_of(code), *a),
        [a, b] => of_two(plain_of(code), *a, *b),
        _ => Interval::ALL,
    }
}
