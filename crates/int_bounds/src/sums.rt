//! Sums, differences, negatives, and what else goes up or down with its argument.
ghost use Rattle.std.specs.Prelude.{◌≡◌, ◌+ℤ◌, ◌-ℤ◌, neg_ℤ, ℤ};
ghost use Rattle.trace_ops.specs.Words.{wrap, inverted, at_least_zero};
ghost use Rattle.int_bounds.specs.Within.{IsWithin};
ghost use Rattle.int_bounds.specs.Near.{IsSpan};

use crate::Interval;
use crate::exact::{difference, negative, sum};
use crate::span::span;
use trace_ops::{force_ge_zero, invert};

// Of sums: exact, unless one wraps.
pub fn sums(a: Interval, b: Interval) -> Interval
    ensures contains { (x y : ℤ) → IsWithin a x → IsWithin b y → IsWithin result (wrap (x +ℤ y)) }
    ensures near { IsSpan (a.low +ℤ b.low) (a.high +ℤ b.high) result }
{
    span(sum(a.low, b.low), sum(a.high, b.high))
}

// Of differences: exact, unless one wraps.
pub fn differences(a: Interval, b: Interval) -> Interval
    ensures contains { (x y : ℤ) → IsWithin a x → IsWithin b y → IsWithin result (wrap (x -ℤ y)) }
    ensures near { IsSpan (a.low -ℤ b.high) (a.high -ℤ b.low) result }
{
    span(difference(a.low, b.high), difference(a.high, b.low))
}

// Of negatives: exact, unless one wraps.
pub fn negatives(a: Interval) -> Interval
    ensures contains { (x : ℤ) → IsWithin a x → IsWithin result (wrap (neg_ℤ x)) }
    ensures near { IsSpan (neg_ℤ a.high) (neg_ℤ a.low) result }
{
    span(negative(a.high), negative(a.low))
}

// Of words with every bit turned: exact.
pub fn inverses(a: Interval) -> Interval
    ensures contains { (x : ℤ) → IsWithin a x → IsWithin result (inverted x) }
    ensures low { result.low ≡ inverted a.high }
    ensures high { result.high ≡ inverted a.low }
{
    Interval {
        low: invert(a.high),
        high: invert(a.low),
    }
}

// Of words raised to 0: exact.
pub fn raised(a: Interval) -> Interval
    ensures contains { (x : ℤ) → IsWithin a x → IsWithin result (at_least_zero x) }
    ensures low { result.low ≡ at_least_zero a.low }
    ensures high { result.high ≡ at_least_zero a.high }
{
    Interval {
        low: force_ge_zero(a.low),
        high: force_ge_zero(a.high),
    }
}
