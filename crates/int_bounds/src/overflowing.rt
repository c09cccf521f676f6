//! Whether an operation that looks for overflow can find it.
ghost use Rattle.std.specs.Prelude.{◌≡◌, ℤ, ◌+ℤ◌, ◌-ℤ◌, ◌*ℤ◌, true, false};
ghost use Rattle.trace_ops.specs.Words.{overflows};
ghost use Rattle.int_bounds.specs.Within.{IsWithin};
ghost use Rattle.int_bounds.specs.Overflowing.{NeverOverflows};

use crate::Interval;
use trace_ops::{OpCode, add_overflows, mul_overflows, sub_overflows};

// Whether neither holds.
fn neither(x: bool, y: bool) -> bool
    ensures never { result ≡ true → (x ≡ false) × (y ≡ false) }
    ensures exact { x ≡ false → y ≡ false → result ≡ true }
{
    !x && !y
}

// Whether every sum is a word.
fn sums_fit(a: Interval, b: Interval) -> bool
    ensures never { result ≡ true → (x y : ℤ) → IsWithin a x → IsWithin b y → overflows (x +ℤ y) ≡ false }
    ensures exact { ((x y : ℤ) → IsWithin a x → IsWithin b y → overflows (x +ℤ y) ≡ false) → result ≡ true }
{
    neither(add_overflows(a.low, b.low), add_overflows(a.high, b.high))
}

// Whether every difference is a word.
fn differences_fit(a: Interval, b: Interval) -> bool
    ensures never { result ≡ true → (x y : ℤ) → IsWithin a x → IsWithin b y → overflows (x -ℤ y) ≡ false }
    ensures exact { ((x y : ℤ) → IsWithin a x → IsWithin b y → overflows (x -ℤ y) ≡ false) → result ≡ true }
{
    neither(sub_overflows(a.low, b.high), sub_overflows(a.high, b.low))
}

// Whether every product is a word.
fn products_fit(a: Interval, b: Interval) -> bool
    ensures never { result ≡ true → (x y : ℤ) → IsWithin a x → IsWithin b y → overflows (x *ℤ y) ≡ false }
    ensures exact { ((x y : ℤ) → IsWithin a x → IsWithin b y → overflows (x *ℤ y) ≡ false) → result ≡ true }
{
    let low = neither(mul_overflows(a.low, b.low), mul_overflows(a.low, b.high));
    let high = neither(mul_overflows(a.high, b.low), mul_overflows(a.high, b.high));
    neither(!low, !high)
}

/// Whether no pair of words of the two intervals overflows: exactly so for the three operations that look for overflow.
/// No other operation ever overflows.
pub fn overflows_never(code: OpCode, a: Interval, b: Interval) -> bool
    ensures never { result ≡ true → NeverOverflows code a b }
    ensures exact { NeverOverflows code a b → result ≡ true }
{
    match code {
        OpCode::IntAddOvf => sums_fit(a, b),
        OpCode::IntSubOvf => differences_fit(a, b),
        OpCode::IntMulOvf => products_fit(a, b),
        _ => true,
    }
}
