//! Products.
ghost use Rattle.std.specs.Prelude.{◌*ℤ◌, ℤ};
ghost use Rattle.trace_ops.specs.Words.{wrap};
ghost use Rattle.int_bounds.specs.Within.{IsWithin};

use crate::Interval;
use crate::exact::{greatest, least, product};
use crate::span::span;

// Of products: from the least to the greatest of the four products of bounds; exact, unless one wraps.
pub fn products(a: Interval, b: Interval) -> Interval
    ensures { (x y : ℤ) → IsWithin a x → IsWithin b y → IsWithin result (wrap (x *ℤ y)) }
{
    let first = product(a.low, b.low);
    let second = product(a.low, b.high);
    let third = product(a.high, b.low);
    let fourth = product(a.high, b.high);
    span(
        least(first, second, third, fourth),
        greatest(first, second, third, fourth),
    )
}
