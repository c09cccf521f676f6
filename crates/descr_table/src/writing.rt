//! The lines that write a table.

ghost use Rattle.std.specs.Prelude.{◌≡◌, ◌++◌, ◌∷◌, [], ℕ, List, OnOk, IfOk, map, slice_get};
ghost use Rattle.std.specs.List.{flat_map};
ghost use Rattle.descr_table.specs.Spelling.{kind_letter, kind_word, kinds_word, result_word};
ghost use Rattle.descr_table.specs.Reading.{table_at};
ghost use Rattle.descr_table.specs.Names.{size_name, field_name, array_name, prebuilt_name, fields_in};
ghost use Rattle.descr_table.specs.Writing.{word_text, head_text, vtable_text, immutable_text, of_text, args_text, gives_text, names_text, list_text, value_text, part_text, parts_text, more_items, items_text, body_text, size_line, array_line, field_line, call_line, function_line, prebuilt_line, shape_line, table_text};

use crate::names::{array_name, field_name, prebuilt_name, size_name};
use std::alloc::{AllocError, Global};
use text_lines::{lines_are_spelled, put_integer, put_word};
use trace_ops::{
    ArrayRow, CallRow, FieldRow, Initial, Kind, PrebuiltRow, ShapeOf, SizeRow, Table, Text,
};

#[tactic(auto, unfolding(crate::specs::Writing::head_text))]
fn put_head(out: &mut Vec<u8>, key: &[u8], name: &Text) -> Result<(), AllocError>
    ensures { OnOk result (out.new.items ≡ out.old.items ++ head_text key.now name.now) }
{
    out.extend_from_slice(key)?;
    put_word(out, name.bytes())
}

#[tactic(auto, unfolding(crate::specs::Writing::vtable_text))]
fn put_vtable(out: &mut Vec<u8>, vtable: &Option<Text>) -> Result<(), AllocError>
    ensures { OnOk result (out.new.items ≡ out.old.items ++ vtable_text vtable.now) }
{
    match vtable {
        None => Ok(()),
        Some(name) => {
            put_word(out, b"vtable")?;
            put_word(out, name.bytes())
        }
    }
}

#[tactic(auto, unfolding(crate::specs::Writing::immutable_text))]
fn put_immutable(out: &mut Vec<u8>, immutable: bool) -> Result<(), AllocError>
    ensures { OnOk result (out.new.items ≡ out.old.items ++ immutable_text immutable) }
{
    if immutable {
        return put_word(out, b"immutable");
    }
    Ok(())
}

fn kind_letter(kind: Kind) -> u8
    ensures { result ≡ kind_letter kind }
{
    match kind {
        Kind::Int => b'i',
        Kind::Ref => b'r',
    }
}

fn kind_word(kind: Kind) -> &'static [u8]
    ensures { result.now ≡ kind_word kind }
{
    match kind {
        Kind::Int => b"i",
        Kind::Ref => b"r",
    }
}

fn result_word(kind: Option<Kind>) -> &'static [u8]
    ensures { result.now ≡ result_word kind }
{
    match kind {
        None => b"n",
        Some(kind) => kind_word(kind),
    }
}

#[tactic(auto, unfolding(crate::specs::Writing::of_text))]
fn put_of(out: &mut Vec<u8>, size: &[u8], kind: Kind) -> Result<(), AllocError>
    ensures { OnOk result (out.new.items ≡ out.old.items ++ of_text size.now kind) }
{
    put_word(out, b"of")?;
    put_word(out, size)?;
    put_word(out, kind_word(kind))
}

fn put_letters(out: &mut Vec<u8>, kinds: &[Kind]) -> Result<(), AllocError>
    ensures { OnOk result (out.new.items ≡ out.old.items ++ map kind_letter kinds.now) }
{
    for kind in kinds {
        out.push(kind_letter(*kind))?;
    }
    Ok(())
}

fn put_kinds(out: &mut Vec<u8>, kinds: &[Kind]) -> Result<(), AllocError>
    ensures { OnOk result (out.new.items ≡ out.old.items ++ kinds_word kinds.now) }
{
    match kinds {
        [] => {
            out.push(b'-')?;
            Ok(())
        }
        _ => put_letters(out, kinds),
    }
}

#[tactic(auto, unfolding(crate::specs::Writing::args_text))]
fn put_args(out: &mut Vec<u8>, kinds: &[Kind]) -> Result<(), AllocError>
    ensures { OnOk result (out.new.items ≡ out.old.items ++ args_text kinds.now) }
{
    put_word(out, b"args")?;
    put_word(out, b"")?;
    put_kinds(out, kinds)
}

#[tactic(auto, unfolding(crate::specs::Writing::gives_text))]
fn put_gives(out: &mut Vec<u8>, kind: Option<Kind>) -> Result<(), AllocError>
    ensures { OnOk result (out.new.items ≡ out.old.items ++ gives_text kind) }
{
    put_word(out, b"result")?;
    put_word(out, result_word(kind))
}

fn put_names(out: &mut Vec<u8>, table: &Table, numbers: &[u32]) -> Result<(), AllocError>
    ensures { OnOk result (out.new.items ≡ out.old.items ++ names_text table.now numbers.now) }
{
    for k in numbers {
        put_word(out, field_name(table, *k))?;
    }
    Ok(())
}

#[tactic(auto, unfolding(crate::specs::Writing::list_text))]
fn put_list(out: &mut Vec<u8>, table: &Table, key: &[u8], numbers: &[u32]) -> Result<(), AllocError>
    ensures { OnOk result (out.new.items ≡ out.old.items ++ list_text table.now key.now numbers.now) }
{
    match numbers {
        [] => Ok(()),
        _ => {
            put_word(out, key)?;
            put_names(out, table, numbers)
        }
    }
}

#[tactic(auto, unfolding(crate::specs::Writing::value_text))]
fn put_value(out: &mut Vec<u8>, table: &Table, value: &Initial) -> Result<(), AllocError>
    ensures { OnOk result (out.new.items ≡ out.old.items ++ value_text table.now value.now) }
{
    match value {
        Initial::Int(z) => put_integer(out, *z),
        Initial::Null => out.extend_from_slice(b"NULL"),
        Initial::Ptr(k) => out.extend_from_slice(prebuilt_name(table, *k)),
    }
}

#[tactic(auto, unfolding(crate::specs::Writing::part_text))]
fn put_part(out: &mut Vec<u8>, table: &Table, field: u32, value: &Initial) -> Result<(), AllocError>
    ensures { OnOk result (out.new.items ≡ out.old.items ++ part_text table.now field value.now) }
{
    put_word(out, field_name(table, field))?;
    out.push(b'=')?;
    put_value(out, table, value)
}

#[tactic(auto, unfolding(crate::specs::Writing::parts_text))]
fn put_parts(
    out: &mut Vec<u8>,
    table: &Table,
    fields: &[u32],
    parts: &[Initial],
) -> Result<(), AllocError>
    ensures { OnOk result (out.new.items ≡ out.old.items ++ parts_text table.now fields.now parts.now) }
{
    let mut rest = parts;
    for field in fields {
        let Some((value, after)) = rest.split_first() else {
            return Ok(());
        };
        put_part(out, table, *field, value)?;
        rest = after;
    }
    Ok(())
}

fn put_more(out: &mut Vec<u8>, table: &Table, items: &[Initial]) -> Result<(), AllocError>
    ensures { OnOk result (out.new.items ≡ out.old.items ++ more_items table.now items.now) }
{
    for item in items {
        out.extend_from_slice(b", ")?;
        put_value(out, table, item)?;
    }
    Ok(())
}

#[tactic(auto, unfolding(crate::specs::Writing::items_text))]
fn put_items(out: &mut Vec<u8>, table: &Table, items: &[Initial]) -> Result<(), AllocError>
    ensures { OnOk result (out.new.items ≡ out.old.items ++ items_text table.now items.now) }
{
    match items {
        [] => Ok(()),
        [first, more @ ..] => {
            put_value(out, table, first)?;
            put_more(out, table, more)
        }
    }
}

fn fields_of(table: &Table, k: u32) -> &[u32]
    ensures { result.now ≡ fields_in (slice_get table.now.sizes k) }
{
    match table.sizes.items().get(k as usize) {
        None => &[],
        Some(row) => row.fields.items(),
    }
}

#[tactic(auto, unfolding(crate::specs::Writing::body_text))]
fn put_body(
    out: &mut Vec<u8>,
    table: &Table,
    of: ShapeOf,
    parts: &[Initial],
) -> Result<(), AllocError>
    ensures { OnOk result (out.new.items ≡ out.old.items ++ body_text table.now of parts.now) }
{
    match of {
        ShapeOf::Size(k) => {
            put_word(out, size_name(table, k))?;
            put_parts(out, table, fields_of(table, k), parts)
        }
        ShapeOf::Array(k) => {
            put_word(out, array_name(table, k))?;
            out.extend_from_slice(b" [")?;
            put_items(out, table, parts)?;
            out.push(b']')?;
            Ok(())
        }
    }
}

fn end_line(out: &mut Vec<u8>) -> Result<(), AllocError>
    ensures { OnOk result (out.new.items ≡ out.old.items ++ 10 ∷ []) }
{
    out.push(b'\n')?;
    Ok(())
}

fn put_size(out: &mut Vec<u8>, row: &SizeRow) -> Result<(), AllocError>
    ensures { OnOk result (out.new.items ≡ out.old.items ++ size_line row.now) }
{
    put_head(out, b"size", &row.name)?;
    put_vtable(out, &row.vtable)?;
    end_line(out)
}

fn put_array(out: &mut Vec<u8>, row: &ArrayRow) -> Result<(), AllocError>
    ensures { OnOk result (out.new.items ≡ out.old.items ++ array_line row.now) }
{
    put_head(out, b"array", &row.name)?;
    put_word(out, kind_word(row.kind))?;
    end_line(out)
}

fn put_field(out: &mut Vec<u8>, table: &Table, row: &FieldRow) -> Result<(), AllocError>
    ensures { OnOk result (out.new.items ≡ out.old.items ++ field_line table.now row.now) }
{
    put_head(out, b"field", &row.name)?;
    put_of(out, size_name(table, row.size), row.kind)?;
    put_immutable(out, row.immutable)?;
    end_line(out)
}

fn put_call(out: &mut Vec<u8>, table: &Table, row: &CallRow) -> Result<(), AllocError>
    ensures { OnOk result (out.new.items ≡ out.old.items ++ call_line table.now row.now) }
{
    put_head(out, b"calldescr", &row.name)?;
    put_args(out, row.args.items())?;
    put_gives(out, row.result)?;
    put_list(out, table, b"reads", row.reads.items())?;
    put_list(out, table, b"writes", row.writes.items())?;
    end_line(out)
}

fn put_function(out: &mut Vec<u8>, name: &Text) -> Result<(), AllocError>
    ensures { OnOk result (out.new.items ≡ out.old.items ++ function_line name.now) }
{
    put_head(out, b"function", name)?;
    end_line(out)
}

fn put_prebuilt(out: &mut Vec<u8>, table: &Table, row: &PrebuiltRow) -> Result<(), AllocError>
    ensures { OnOk result (out.new.items ≡ out.old.items ++ prebuilt_line table.now row.now) }
{
    put_head(out, b"prebuilt", &row.name)?;
    put_body(out, table, row.of, row.parts.items())?;
    end_line(out)
}

#[tactic(auto, unfolding(crate::specs::Writing::shape_line))]
fn put_shape(out: &mut Vec<u8>, table: &Table, shape: ShapeOf) -> Result<(), AllocError>
    ensures { OnOk result (out.new.items ≡ out.old.items ++ shape_line table.now shape) }
{
    match shape {
        ShapeOf::Size(k) => match table.sizes.items().get(k as usize) {
            None => Ok(()),
            Some(row) => put_size(out, row),
        },
        ShapeOf::Array(k) => match table.arrays.items().get(k as usize) {
            None => Ok(()),
            Some(row) => put_array(out, row),
        },
    }
}

fn put_shapes(out: &mut Vec<u8>, table: &Table) -> Result<(), AllocError>
    ensures { OnOk result (out.new.items ≡ out.old.items ++ flat_map (λ s. shape_line table.now s) table.now.shapes) }
{
    for shape in table.shapes.items() {
        put_shape(out, table, *shape)?;
    }
    Ok(())
}

fn put_fields(out: &mut Vec<u8>, table: &Table) -> Result<(), AllocError>
    ensures { OnOk result (out.new.items ≡ out.old.items ++ flat_map (λ r. field_line table.now r) table.now.fields) }
{
    for row in table.fields.items() {
        put_field(out, table, row)?;
    }
    Ok(())
}

fn put_calls(out: &mut Vec<u8>, table: &Table) -> Result<(), AllocError>
    ensures { OnOk result (out.new.items ≡ out.old.items ++ flat_map (λ r. call_line table.now r) table.now.calls) }
{
    for row in table.calls.items() {
        put_call(out, table, row)?;
    }
    Ok(())
}

fn put_functions(out: &mut Vec<u8>, table: &Table) -> Result<(), AllocError>
    ensures { OnOk result (out.new.items ≡ out.old.items ++ flat_map (λ n. function_line n) table.now.functions) }
{
    for name in table.functions.items() {
        put_function(out, name)?;
    }
    Ok(())
}

fn put_prebuilts(out: &mut Vec<u8>, table: &Table) -> Result<(), AllocError>
    ensures { OnOk result (out.new.items ≡ out.old.items ++ flat_map (λ r. prebuilt_line table.now r) table.now.prebuilts) }
{
    for row in table.prebuilts.items() {
        put_prebuilt(out, table, row)?;
    }
    Ok(())
}

/// The lines behind `%table` that write a table. A table that some text stands for is what they stand for, whatever
/// the number of their first line.
pub fn write_table(alloc: Global, table: &Table) -> Result<Vec<u8>, AllocError>
    ensures text { IfOk result (λ v. v.items ≡ table_text table.now) }
    ensures read_back { IfOk result (λ v. (text : List ℕ) (first again : ℕ) → table_at first text ≡ Ok table.now → table_at again v.items ≡ Ok table.now) }
{
    lines_are_spelled();
    let mut out = Vec::new(alloc);
    put_shapes(&mut out, table)?;
    put_fields(&mut out, table)?;
    put_calls(&mut out, table)?;
    put_functions(&mut out, table)?;
    put_prebuilts(&mut out, table)?;
    Ok(out)
}
