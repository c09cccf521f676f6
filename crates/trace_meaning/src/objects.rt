//! How objects begin, where their parts lie, and what is read of them.

ghost use Rattle.std.specs.Prelude.{◌≡◌, ◌<◌, ◌^◌, ◌==◌, IfOk, length, map, slice_get, position, pos};
ghost use Rattle.std.specs.Option.{option_map};
ghost use Rattle.trace_meaning.specs.Recorded.{initial_value as value_begun, prebuilt_object as object_begun};
ghost use Rattle.trace_meaning.specs.World.{size_of as object_size};
ghost use Rattle.trace_meaning.specs.Objects.{fields_of as size_fields, zero_field as field_zero, zero_item as item_zero, zeroed as zeroed_object, cleared as cleared_array, index_of as index_at, field_place as field_at, item_place as item_at, place_of as spot_at, read_in as read_from, length_in as length_from, is_array as array_of, is_frozen as frozen, immutable as fixed, part_of_object};

use crate::folding::zero_of;
use crate::{Object, Value};
use std::alloc::{AllocError, Global};
use trace_ops::{Initial, List, PrebuiltRow, ShapeOf, Spot, Table, Word};

// The fields of a size, in order.
fn fields_of(table: &Table, size: u32) -> &[u32]
    ensures { result.now ≡ size_fields table.now size }
{
    match table.sizes.items().get(size as usize) {
        None => &[],
        Some(row) => row.fields.items(),
    }
}

fn zero_field(table: &Table, field: u32) -> Value
    ensures { result ≡ field_zero (slice_get table.now.fields field) }
{
    match table.fields.items().get(field as usize) {
        None => Value::Int(0),
        Some(row) => zero_of(row.kind),
    }
}

fn zero_item(table: &Table, array: u32) -> Value
    ensures { result ≡ item_zero (slice_get table.now.arrays array) }
{
    match table.arrays.items().get(array as usize) {
        None => Value::Int(0),
        Some(row) => zero_of(row.kind),
    }
}

/// A new structure: each field is 0 or null.
pub fn zeroed(alloc: Global, table: &Table, size: u32) -> Result<Object, AllocError>
    ensures { IfOk result (λ o. o ≡ zeroed_object table.now size) }
{
    let fields = fields_of(table, size);
    let mut parts = Vec::new(alloc);
    for field in fields {
        parts.push(zero_field(table, *field))?;
    }
    Ok(Object {
        of: ShapeOf::Size(size),
        parts: List::of(parts),
    })
}

/// A new array of so many items, each 0 or null.
pub fn cleared(alloc: Global, table: &Table, array: u32, items: usize) -> Result<Object, AllocError>
    ensures { IfOk result (λ o. o ≡ cleared_array table.now array items) }
{
    let parts = Vec::from_elem(alloc, zero_item(table, array), items)?;
    Ok(Object {
        of: ShapeOf::Array(array),
        parts: List::of(parts),
    })
}

/// The size of an object in bytes: 8 and 8 per field, or 16 and 8 per item.
pub fn size_of(object: &Object) -> u128
    ensures value { result ≡ object_size object.now }
    ensures small { result < 2 ^ 68 }
{
    let parts = object.parts.items().len() as u128;
    match object.of {
        ShapeOf::Size(_) => 8 + 8 * parts,
        ShapeOf::Array(_) => 16 + 8 * parts,
    }
}

// Where the field stands in a list of fields.
fn place_among(fields: &[u32], field: u32) -> Option<usize>
    ensures { result ≡ position (λ f. f == field) fields.now }
{
    fields.iter().position(|f| *f == field)
}

fn field_place(table: &Table, of: ShapeOf, field: u32) -> Option<usize>
    ensures { result ≡ field_at table.now of field }
{
    match of {
        ShapeOf::Size(size) => place_among(fields_of(table, size), field),
        ShapeOf::Array(_) => None,
    }
}

/// A word that isn't below 0, as an index.
pub fn index_of(i: Word) -> Option<usize>
    ensures { result ≡ index_at i }
{
    if i < 0 { None } else { Some(i as usize) }
}

fn item_place(of: ShapeOf, array: u32, i: Word) -> Option<usize>
    ensures { result ≡ item_at of array i }
{
    match of {
        ShapeOf::Size(_) => None,
        ShapeOf::Array(a) => { if a == array { index_of(i) } else { None } }
    }
}

/// Where a spot lies among the parts of an object of this shape.
pub fn place_of(table: &Table, of: ShapeOf, at: Spot) -> Option<usize>
    ensures { result ≡ spot_at table.now of at }
{
    match at {
        Spot::Field(field) => field_place(table, of, field),
        Spot::Item(array, i) => item_place(of, array, i),
    }
}

// The part of an object at a spot.
fn part_at(table: &Table, at: Spot, object: &Object) -> Option<Value>
    ensures { result ≡ part_of_object table.now at object.now }
{
    match place_of(table, object.of, at) {
        None => None,
        Some(i) => object.parts.items().get(i).copied(),
    }
}

/// What a spot of a value holds.
pub fn read(table: &Table, at: Spot, base: Value, objects: &[Object]) -> Option<Value>
    ensures { result ≡ read_from table.now at base objects.now }
{
    match base {
        Value::Obj(n) => match objects.get(n as usize) {
            None => None,
            Some(object) => part_at(table, at, object),
        },
        Value::Int(_) => None,
        Value::Null => None,
    }
}

fn is_array(array: u32, of: ShapeOf) -> bool
    ensures { result ≡ array_of array of }
{
    match of {
        ShapeOf::Array(a) => a == array,
        ShapeOf::Size(_) => false,
    }
}

// How many values, as a word.
fn count_of(values: &[Value]) -> Word
    ensures { result ≡ pos (length values.now) }
{
    values.len() as Word
}

/// The length of a value that is an array of this row.
pub fn length_at(array: u32, base: Value, objects: &[Object]) -> Option<Word>
    ensures { result ≡ option_map pos (length_from array base objects.now) }
{
    match base {
        Value::Obj(n) => match objects.get(n as usize) {
            None => None,
            Some(object) => {
                if is_array(array, object.of) {
                    Some(count_of(object.parts.items()))
                } else {
                    None
                }
            }
        },
        Value::Int(_) => None,
        Value::Null => None,
    }
}

fn is_immutable(table: &Table, field: u32) -> bool
    ensures { result ≡ fixed (slice_get table.now.fields field) }
{
    match table.fields.items().get(field as usize) {
        None => false,
        Some(row) => row.immutable,
    }
}

/// Whether a spot is an immutable field, and the object of this number a prebuilt one.
pub fn is_frozen(table: &Table, at: Spot, n: u32) -> bool
    ensures { result ≡ frozen table.now at n }
{
    match at {
        Spot::Field(field) => {
            (n as usize) < table.prebuilts.items().len() && is_immutable(table, field)
        }
        Spot::Item(_, _) => false,
    }
}

fn initial_value(initial: Initial) -> Value
    ensures { result ≡ value_begun initial }
{
    match initial {
        Initial::Int(word) => Value::Int(word),
        Initial::Null => Value::Null,
        Initial::Ptr(k) => Value::Obj(k),
    }
}

fn prebuilt_object(alloc: Global, row: &PrebuiltRow) -> Result<Object, AllocError>
    ensures { IfOk result (λ o. o ≡ object_begun row.now) }
{
    let mut parts = Vec::new(alloc);
    for initial in row.parts.items() {
        parts.push(initial_value(*initial))?;
    }
    Ok(Object {
        of: row.of,
        parts: List::of(parts),
    })
}

/// The prebuilt objects, in order.
pub fn prebuilt_objects(alloc: Global, rows: &[PrebuiltRow]) -> Result<Vec<Object>, AllocError>
    ensures { IfOk result (λ r. r.items ≡ map object_begun rows.now) }
{
    let mut objects = Vec::new(alloc);
    for row in rows {
        objects.push(prebuilt_object(alloc, row)?)?;
    }
    Ok(objects)
}
