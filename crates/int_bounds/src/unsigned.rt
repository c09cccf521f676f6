//! Pairs of words in order, read without sign.
//!
//! Within one sign words read without sign go up with the words; each negative one is above the others.
ghost use Rattle.std.specs.Prelude.{◌<◌, ◌≤◌, ◌≤ℤ◌, ◌<ℤ◌, ℤ, pos};
ghost use Rattle.trace_ops.specs.Words.{unsigned};
ghost use Rattle.int_bounds.specs.Within.{IsWithin, IsPart};
ghost use Rattle.int_bounds.specs.Narrows.{Narrows};

use crate::Interval;
use crate::signed::{below, greater, lesser, no_more};

// The words that aren't negative.
fn from_zero(a: Interval) -> Interval
    requires { pos 0 ≤ℤ a.high }
    ensures keeps { (x : ℤ) → IsWithin a x → pos 0 ≤ℤ x → IsWithin result x }
    ensures part { IsPart result a }
{
    Interval {
        low: greater(a.low, 0),
        high: a.high,
    }
}

// The negative words.
fn under_zero(a: Interval) -> Interval
    requires { a.low <ℤ pos 0 }
    ensures keeps { (x : ℤ) → IsWithin a x → x <ℤ pos 0 → IsWithin result x }
    ensures part { IsPart result a }
{
    Interval {
        low: a.low,
        high: lesser(a.high, -1),
    }
}

// The pairs whose first is below the second: as words where the sign of the greater is known, else all.
pub fn unsigned_below(a: Interval, b: Interval) -> Option<(Interval, Interval)>
    ensures { Narrows (λ x y. unsigned x < unsigned y) a b result }
{
    if b.low >= 0 {
        if a.high < 0 {
            return None;
        }
        return below(from_zero(a), b);
    }
    if a.high < 0 {
        return below(a, under_zero(b));
    }
    Some((a, b))
}

// The pairs whose first is at most the second: as words where the sign of the greater is known, else all.
pub fn unsigned_no_more(a: Interval, b: Interval) -> Option<(Interval, Interval)>
    ensures { Narrows (λ x y. unsigned x ≤ unsigned y) a b result }
{
    if b.low >= 0 {
        if a.high < 0 {
            return None;
        }
        return no_more(from_zero(a), b);
    }
    if a.high < 0 {
        return no_more(a, under_zero(b));
    }
    Some((a, b))
}
