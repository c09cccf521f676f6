//! What comparisons answer: 1 or 0 where the intervals decide them, else either.
ghost use Rattle.std.specs.Prelude.{◌≡◌, ◌≢◌, ◌≤◌, ℤ, pos, Bool, true, false};
ghost use Rattle.trace_ops.specs.Words.{truth, unsigned, less, at_most, equal, unequal, unsigned_less, unsigned_at_most};
ghost use Rattle.int_bounds.specs.Within.{IsWithin, IsOnly};
ghost use Rattle.int_bounds.specs.Near.{Settles};

use crate::Interval;

// The answers of a test that holds always, never, or for some.
fn outcomes(always: bool, never: bool) -> Interval
    ensures yes { always ≡ true → IsOnly result (pos 1) }
    ensures no { always ≡ false → never ≡ true → IsOnly result (pos 0) }
    ensures contains { (t : Bool) → (always ≡ true → t ≡ true) → (never ≡ true → t ≡ false) → IsWithin result (truth t) }
{
    if always {
        return Interval { low: 1, high: 1 };
    }
    if never {
        return Interval { low: 0, high: 0 };
    }
    Interval { low: 0, high: 1 }
}

// Whether one word is below another.
pub fn lesses(a: Interval, b: Interval) -> Interval
    ensures settled { Settles less a b result }
    ensures contains { (x y : ℤ) → IsWithin a x → IsWithin b y → IsWithin result (less x y) }
{
    outcomes(a.high < b.low, a.low >= b.high)
}

// Whether one word is at most another.
pub fn at_mosts(a: Interval, b: Interval) -> Interval
    ensures settled { Settles at_most a b result }
    ensures contains { (x y : ℤ) → IsWithin a x → IsWithin b y → IsWithin result (at_most x y) }
{
    outcomes(a.high <= b.low, a.low > b.high)
}

// Whether both intervals are the same one word.
fn are_one(a: Interval, b: Interval) -> bool
    ensures two { result ≡ false → (x : ℤ) × (y : ℤ) × IsWithin a x × IsWithin b y × (x ≢ y) }
    ensures one { result ≡ true → (x y : ℤ) → IsWithin a x → IsWithin b y → x ≡ y }
{
    a.low == b.high && a.high == b.low
}

// Whether no word is in both intervals.
fn are_apart(a: Interval, b: Interval) -> bool
    ensures shared { result ≡ false → (x : ℤ) × IsWithin a x × IsWithin b x }
    ensures apart { result ≡ true → (x : ℤ) → IsWithin a x → ¬ IsWithin b x }
{
    a.high < b.low || b.high < a.low
}

// Whether two words are equal.
pub fn equals(a: Interval, b: Interval) -> Interval
    ensures settled { Settles equal a b result }
    ensures contains { (x y : ℤ) → IsWithin a x → IsWithin b y → IsWithin result (equal x y) }
{
    outcomes(are_one(a, b), are_apart(a, b))
}

// Whether two words differ.
pub fn differs(a: Interval, b: Interval) -> Interval
    ensures settled { Settles unequal a b result }
    ensures contains { (x y : ℤ) → IsWithin a x → IsWithin b y → IsWithin result (unequal x y) }
{
    outcomes(are_apart(a, b), are_one(a, b))
}

// The least of the words read without sign.
fn unsigned_low(a: Interval) -> u64
    ensures there { (x : ℤ) × IsWithin a x × (unsigned x ≡ result) }
    ensures least { (x : ℤ) → IsWithin a x → result ≤ unsigned x }
{
    if a.low < 0 && a.high >= 0 {
        return 0;
    }
    a.low.cast_unsigned()
}

// The greatest of the words read without sign.
fn unsigned_high(a: Interval) -> u64
    ensures there { (x : ℤ) × IsWithin a x × (unsigned x ≡ result) }
    ensures greatest { (x : ℤ) → IsWithin a x → unsigned x ≤ result }
{
    if a.low < 0 && a.high >= 0 {
        return u64::MAX;
    }
    a.high.cast_unsigned()
}

// Whether one word is below another, both read without sign.
pub fn unsigned_lesses(a: Interval, b: Interval) -> Interval
    ensures settled { Settles unsigned_less a b result }
    ensures contains { (x y : ℤ) → IsWithin a x → IsWithin b y → IsWithin result (unsigned_less x y) }
{
    outcomes(
        unsigned_high(a) < unsigned_low(b),
        unsigned_low(a) >= unsigned_high(b),
    )
}

// Whether one word is at most another, both read without sign.
pub fn unsigned_at_mosts(a: Interval, b: Interval) -> Interval
    ensures settled { Settles unsigned_at_most a b result }
    ensures contains { (x y : ℤ) → IsWithin a x → IsWithin b y → IsWithin result (unsigned_at_most x y) }
{
    outcomes(
        unsigned_high(a) <= unsigned_low(b),
        unsigned_low(a) > unsigned_high(b),
    )
}
