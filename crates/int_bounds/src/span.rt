//! Where the words of neighbouring whole numbers lie.
ghost use Rattle.std.specs.Prelude.{◌≤ℤ◌, ℤ};
ghost use Rattle.trace_ops.specs.Words.{wrap};
ghost use Rattle.int_bounds.specs.Within.{IsWithin};
ghost use Rattle.int_bounds.specs.Near.{IsSpan};

use crate::Interval;

// Where the words of the numbers from low to high lie: exact, unless one of them is no word.
pub fn span(low: i128, high: i128) -> Interval
    requires { low ≤ℤ high }
    ensures contains { (z : ℤ) → low ≤ℤ z → z ≤ℤ high → IsWithin result (wrap z) }
    ensures near { IsSpan low high result }
{
    if low >= i64::MIN as i128 && high <= i64::MAX as i128 {
        return Interval {
            low: low as i64,
            high: high as i64,
        };
    }
    Interval::ALL
}
