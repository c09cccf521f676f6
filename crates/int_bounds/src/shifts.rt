//! Shifts.
ghost use Rattle.std.specs.Prelude.{◌≡◌, ◌^◌, ℤ, pos, ◌*ℤ◌};
ghost use Rattle.trace_ops.specs.Words.{shift_of, shifted_left, shifted_right, unsigned_right};
ghost use Rattle.int_bounds.specs.Within.{IsWithin};

use crate::Interval;
use crate::only::only;
use crate::span::span;
use trace_ops::{Word, wrap_rshift, wrap_unsigned_rshift};

// Times the power of two of a shift, which neither wraps nor overflows.
fn scaled(x: Word, by: Word) -> i128
    ensures { result ≡ x *ℤ pos (2 ^ shift_of by) }
{
    let power: u64 = 1 << (by.cast_unsigned() % 64);
    x as i128 * power as i128
}

// To the left by a known number: exact, unless one wraps.
fn left_by(a: Interval, by: Word) -> Interval
    ensures { (x : ℤ) → IsWithin a x → IsWithin result (shifted_left x by) }
{
    span(scaled(a.low, by), scaled(a.high, by))
}

// Of shifts to the left: where the second is known as by it, else the whole range.
pub fn left_shifts(a: Interval, b: Interval) -> Interval
    ensures { (x y : ℤ) → IsWithin a x → IsWithin b y → IsWithin result (shifted_left x y) }
{
    let Some(by) = only(b) else {
        return Interval::ALL;
    };
    left_by(a, by)
}

// To the right by a known number, with copies of the sign: exact.
fn right_by(a: Interval, by: Word) -> Interval
    ensures { (x : ℤ) → IsWithin a x → IsWithin result (shifted_right x by) }
{
    Interval {
        low: wrap_rshift(a.low, by),
        high: wrap_rshift(a.high, by),
    }
}

// Of shifts to the right with copies of the sign: where the second is known as by it, else the whole range.
pub fn right_shifts(a: Interval, b: Interval) -> Interval
    ensures { (x y : ℤ) → IsWithin a x → IsWithin b y → IsWithin result (shifted_right x y) }
{
    let Some(by) = only(b) else {
        return Interval::ALL;
    };
    right_by(a, by)
}

// To the right by a known number, with zeros: exact, but from 0 on where some words are negative and some aren't.
fn unsigned_right_by(a: Interval, by: Word) -> Interval
    ensures { (x : ℤ) → IsWithin a x → IsWithin result (unsigned_right x by) }
{
    if by.cast_unsigned() % 64 == 0 {
        return a;
    }
    if a.low < 0 && a.high >= 0 {
        return Interval {
            low: 0,
            high: wrap_unsigned_rshift(-1, by),
        };
    }
    Interval {
        low: wrap_unsigned_rshift(a.low, by),
        high: wrap_unsigned_rshift(a.high, by),
    }
}

// Of shifts to the right with zeros: where the second is known as by it, else the whole range.
pub fn unsigned_right_shifts(a: Interval, b: Interval) -> Interval
    ensures { (x y : ℤ) → IsWithin a x → IsWithin b y → IsWithin result (unsigned_right x y) }
{
    let Some(by) = only(b) else {
        return Interval::ALL;
    };
    unsigned_right_by(a, by)
}
