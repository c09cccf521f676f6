//! Intervals of one word.
ghost use Rattle.std.specs.Prelude.{◌≡◌, ◌≢◌, ℤ, IfSome, IfNone};
ghost use Rattle.int_bounds.specs.Within.{IsWithin};

use crate::Interval;
use trace_ops::Word;

// The word of an interval that has no other.
pub fn only(a: Interval) -> Option<Word>
    ensures some { IfSome result (λ w. (x : ℤ) → IsWithin a x → x ≡ w) }
    ensures low { IfSome result (λ w. a.low ≡ w) }
    ensures high { IfSome result (λ w. a.high ≡ w) }
    ensures none { IfNone result (a.low ≢ a.high) }
{
    if a.low == a.high { Some(a.low) } else { None }
}
