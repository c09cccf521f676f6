// Numbers in instructions: offsets and entries. One that has no room counts as a want of memory.
#![tactic(auto)]

ghost use Rattle.std.specs.Prelude.{◌≡◌, ◌==◌, Some, pos, position, true, false, IfOk, IfSome, IfNone};
ghost use Rattle.trace_ops.specs.declared.piece.Spot.TheVariants as spot;
ghost use Rattle.trace_meaning.specs.Objects.{fields_of};
ghost use Rattle.arena_objects.specs.Spots.{field_offset, item_offset, spot_offset};
ghost use Rattle.asm_select.specs.Chosen.{entry_of, entry_number, is_near};

use std::alloc::AllocError;
use trace_ops::{FieldRow, Table};

/// A number for which an instruction has four bytes.
pub fn as_short(n: i64) -> Result<i32, AllocError>
    ensures { IfOk result (λ short. short ≡ n) }
{
    match i32::try_from(n) {
        Ok(short) => Ok(short),
        Err(_) => Err(AllocError),
    }
}

/// The address of the host's entry for a function.
pub fn function_entry(f: u32) -> i64
    ensures { result ≡ pos (entry_of (entry_number f)) }
{
    0x3000_0000 + 16 * (16 + i64::from(f))
}

fn fields_of(table: &Table, size: u32) -> &[u32]
    ensures { result.now ≡ fields_of table.now size }
{
    match table.sizes.items().get(size as usize) {
        Some(row) => row.fields.items(),
        None => &[],
    }
}

// The place of a number among numbers.
fn place_in(f: u32, fields: &[u32]) -> Option<usize>
    ensures { result ≡ position (λ g. g == f) fields.now }
{
    fields.iter().position(|g| *g == f)
}

fn offset_in(table: &Table, f: u32, row: FieldRow) -> Result<i32, AllocError>
    ensures { IfOk result (λ n. n ≡ pos (field_offset table.now f (Some row))) }
{
    let place = match place_in(f, fields_of(table, row.size)) {
        Some(k) => k,
        None => 0,
    };
    match i32::try_from(place) {
        Ok(n) if n < 0x0FFF_FFFF => Ok(8 * (1 + n)),
        _ => Err(AllocError),
    }
}

/// How many bytes behind an object's address a field lies.
pub fn field_offset(table: &Table, f: u32) -> Result<i32, AllocError>
    ensures { IfOk result (λ n. n ≡ pos (spot_offset table.now (spot.Field f))) }
{
    match table.fields.items().get(f as usize) {
        Some(row) => offset_in(table, f, *row),
        None => Ok(8),
    }
}

/// How many bytes behind an array's address an item lies, where its index is known and not too great.
pub fn item_offset(i: i64) -> Option<i32>
    ensures some { IfSome result (λ n. (is_near i ≡ true) × (n ≡ pos (item_offset i))) }
    ensures none { IfNone result (is_near i ≡ false) }
{
    match u32::try_from(i) {
        Ok(n) if n < 0x100_0000 => Some(8 * (2 + n as i32)),
        _ => None,
    }
}
