//! A spot of a base, and single tests on spots.

ghost use Rattle.std.specs.Prelude.{◌≡◌};
ghost use Rattle.heap_cache.specs.Content.{is_elsewhere as elsewhere, is_field as field_in, is_item as item_in};

use trace_ops::{Arg, Spot};

/// A spot of the object that a base names.
#[derive(Clone, Copy, PartialEq, Eq, Hash)]
pub struct Key {
    pub base: Arg,
    pub spot: Spot,
}

/// Whether a spot is that spot, of another base.
pub fn is_elsewhere(base: Arg, spot: Spot, at: Key) -> bool
    ensures { result ≡ elsewhere base spot at }
{
    at.spot == spot && at.base != base
}

/// Whether a spot is one of the fields.
pub fn is_field(fields: &[u32], spot: Spot) -> bool
    ensures { result ≡ field_in fields.now spot }
{
    match spot {
        Spot::Field(f) => fields.contains(&f),
        Spot::Item(_, _) => false,
    }
}

/// Whether a spot is an item of the array.
pub fn is_item(array: u32, spot: Spot) -> bool
    ensures { result ≡ item_in array spot }
{
    match spot {
        Spot::Field(_) => false,
        Spot::Item(a, _) => a == array,
    }
}
