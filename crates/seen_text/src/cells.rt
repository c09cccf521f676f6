//! Writes the cells of a listing.
ghost use Rattle.std.specs.Prelude.{◌≡◌, ◌++◌, OnOk};
ghost use Rattle.seen_text.specs.Cells.{part_text, parts_text, shape_text, cell_line, cell_lines, cells_text};

use crate::puts::put_count;
use crate::values::{put_object, put_value, put_values};
use descr_table::{array_name, field_name, fields_of, size_name};
use heap_shape::{Cell, Ref};
use std::alloc::AllocError;
use trace_ops::{ShapeOf, Table};

#[tactic(auto, unfolding(crate::specs::Cells::part_text))]
fn put_part(out: &mut Vec<u8>, table: &Table, field: u32, value: Ref) -> Result<(), AllocError>
    ensures { OnOk result (out.new.items ≡ out.old.items ++ part_text table.now field value) }
{
    out.push(b' ')?;
    out.extend_from_slice(field_name(table, field))?;
    out.push(b'=')?;
    put_value(out, value)
}

#[tactic(auto, unfolding(crate::specs::Cells::parts_text))]
fn put_parts(
    out: &mut Vec<u8>,
    table: &Table,
    fields: &[u32],
    parts: &[Ref],
) -> Result<(), AllocError>
    ensures { OnOk result (out.new.items ≡ out.old.items ++ parts_text table.now fields.now parts.now) }
{
    let mut rest = parts;
    for field in fields {
        let Some((value, after)) = rest.split_first() else {
            return Ok(());
        };
        put_part(out, table, *field, *value)?;
        rest = after;
    }
    Ok(())
}

#[tactic(auto, unfolding(crate::specs::Cells::shape_text))]
fn put_shape(out: &mut Vec<u8>, table: &Table, of: ShapeOf, parts: &[Ref]) -> Result<(), AllocError>
    ensures { OnOk result (out.new.items ≡ out.old.items ++ shape_text table.now of parts.now) }
{
    match of {
        ShapeOf::Size(k) => {
            out.extend_from_slice(size_name(table, k))?;
            put_parts(out, table, fields_of(table, k), parts)
        }
        ShapeOf::Array(k) => {
            out.extend_from_slice(array_name(table, k))?;
            out.extend_from_slice(b" [")?;
            put_values(out, parts)?;
            out.push(b']')?;
            Ok(())
        }
    }
}

#[tactic(auto, unfolding(crate::specs::Cells::cell_line))]
fn put_cell(out: &mut Vec<u8>, table: &Table, number: usize, cell: &Cell) -> Result<(), AllocError>
    ensures { OnOk result (out.new.items ≡ out.old.items ++ cell_line table.now number cell.now) }
{
    put_object(out, number as u64)?;
    out.push(b' ')?;
    put_shape(out, table, cell.of, cell.parts.items())?;
    out.push(b'\n')?;
    Ok(())
}

fn put_cell_lines(out: &mut Vec<u8>, table: &Table, cells: &[Cell]) -> Result<(), AllocError>
    ensures { OnOk result (out.new.items ≡ out.old.items ++ cell_lines table.now 0 cells.now) }
{
    for number in 0..cells.len() {
        put_cell(out, table, number, &cells[number])?;
    }
    Ok(())
}

/// Adds how many cells there are, and a line for each, numbered from 0: its size with the value of each field, or its
/// array with its items.
#[tactic(auto, unfolding(crate::specs::Cells::cells_text))]
pub fn put_cells(out: &mut Vec<u8>, table: &Table, cells: &[Cell]) -> Result<(), AllocError>
    ensures { OnOk result (out.new.items ≡ out.old.items ++ cells_text table.now cells.now) }
{
    put_count(out, b"cells ", cells.len())?;
    put_cell_lines(out, table, cells)
}
