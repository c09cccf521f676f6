//! Bitwise operations.
ghost use Rattle.std.specs.Prelude.{◌≡◌, ℕ, ◌<◌, ◌≤◌, ◌^◌, ℤ, pos, ◌≤ℤ◌, ◌<ℤ◌, ◌+ℤ◌};
ghost use Rattle.trace_ops.specs.Words.{conjoined, disjoined, toggled};
ghost use Rattle.int_bounds.specs.Within.{IsWithin};
ghost use Rattle.int_bounds.specs.Near.{IsMasked};

use crate::Interval;
use trace_ops::Word;

// Of conjunctions: from 0 to the lesser of the bounds that aren't negative, and the whole range where none is.
pub fn conjunctions(a: Interval, b: Interval) -> Interval
    ensures contains { (x y : ℤ) → IsWithin a x → IsWithin b y → IsWithin result (conjoined x y) }
    ensures first { IsMasked a result }
    ensures second { IsMasked b result }
{
    if a.low >= 0 {
        if b.low >= 0 && b.high < a.high {
            return up_to(b.high);
        }
        return up_to(a.high);
    }
    if b.low >= 0 {
        return up_to(b.high);
    }
    Interval::ALL
}

// From 0 to a word.
fn up_to(high: Word) -> Interval
    requires { pos 0 ≤ℤ high }
    ensures low { result.low ≡ pos 0 }
    ensures high { result.high ≡ high }
{
    Interval { low: 0, high }
}

// Of disjunctions: all words of as many bits as the greater bound, where no word is negative.
pub fn disjunctions(a: Interval, b: Interval) -> Interval
    ensures { (x y : ℤ) → IsWithin a x → IsWithin b y → IsWithin result (disjoined x y) }
{
    if a.low >= 0 && b.low >= 0 {
        return up_to(last_of_bits(a.high, b.high));
    }
    Interval::ALL
}

// Of exclusive disjunctions: all words of as many bits as the greater bound, where no word is negative.
pub fn toggles(a: Interval, b: Interval) -> Interval
    ensures { (x y : ℤ) → IsWithin a x → IsWithin b y → IsWithin result (toggled x y) }
{
    if a.low >= 0 && b.low >= 0 {
        return up_to(last_of_bits(a.high, b.high));
    }
    Interval::ALL
}

// The least power of two above a word read without sign.
fn power_above(most: u64) -> u64
    requires { most < 2 ^ 63 }
    ensures bits { (k : ℕ) × (k ≤ 63) × (result ≡ 2 ^ k) }
    ensures above { most < result }
    ensures few { result ≤ 2 ^ 63 }
{
    (most + 1).next_power_of_two()
}

// The last word with no more bits than the greater of two: a power of two less 1.
fn last_of_bits(a: Word, b: Word) -> Word
    requires first { pos 0 ≤ℤ a }
    requires second { pos 0 ≤ℤ b }
    ensures { (k : ℕ) × (k ≤ 63) × (a <ℤ pos (2 ^ k)) × (b <ℤ pos (2 ^ k)) × (result +ℤ pos 1 ≡ pos (2 ^ k)) }
{
    let most = if a < b { b } else { a };
    (power_above(most as u64) - 1) as i64
}
