//! Writes values, in which an object goes by its number.
ghost use Rattle.std.specs.Prelude.{◌≡◌, ◌++◌, OnOk};
ghost use Rattle.seen_text.specs.Values.{object_text, value_text, more_values, values_text};

use crate::puts::put_number;
use heap_shape::Ref;
use std::alloc::AllocError;
use text_lines::put_integer;

/// Adds `#` and an object's number.
#[tactic(auto, unfolding(crate::specs::Values::object_text))]
pub fn put_object(out: &mut Vec<u8>, number: u64) -> Result<(), AllocError>
    ensures { OnOk result (out.new.items ≡ out.old.items ++ object_text number) }
{
    out.push(b'#')?;
    put_number(out, number)
}

/// Adds a value: an integer in decimal digits, `NULL`, or `#` and the object's number.
#[tactic(auto, unfolding(crate::specs::Values::value_text))]
pub fn put_value(out: &mut Vec<u8>, value: Ref) -> Result<(), AllocError>
    ensures { OnOk result (out.new.items ≡ out.old.items ++ value_text value) }
{
    match value {
        Ref::Int(word) => put_integer(out, word),
        Ref::Null => out.extend_from_slice(b"NULL"),
        Ref::Num(number) => put_object(out, u64::from(number)),
    }
}

fn put_more_values(out: &mut Vec<u8>, values: &[Ref]) -> Result<(), AllocError>
    ensures { OnOk result (out.new.items ≡ out.old.items ++ more_values values.now) }
{
    for value in values {
        out.extend_from_slice(b", ")?;
        put_value(out, *value)?;
    }
    Ok(())
}

/// Adds values with a comma and a space between two.
#[tactic(auto, unfolding(crate::specs::Values::values_text))]
pub fn put_values(out: &mut Vec<u8>, values: &[Ref]) -> Result<(), AllocError>
    ensures { OnOk result (out.new.items ≡ out.old.items ++ values_text values.now) }
{
    match values {
        [] => Ok(()),
        [first, more @ ..] => {
            put_value(out, *first)?;
            put_more_values(out, more)
        }
    }
}
