//! All objects of an arena as a store.

ghost use Rattle.std.specs.Prelude.{◌≡◌, ◌+◌, ◌*◌, ◌^◌, ◌≤◌, List, Some, slice_get, IfOk};
ghost use Rattle.target_base.specs.Arena.{arena_word};
ghost use Rattle.trace_ops.specs.declared.trace.Kind.TheVariants.{Ref};
ghost use Rattle.trace_ops.specs.Kinds.{kind_of_field, kind_of_item};
ghost use Rattle.trace_ops.specs.InRange.{IsTableInRange};
ghost use Rattle.trace_meaning.specs.Objects.{fields_of};
ghost use Rattle.trace_meaning.specs.Kinds.{kind_of_part, ObjectsHold};
ghost use Rattle.trace_meaning.specs.declared.value.Object.{Object as OneObject};
ghost use Rattle.arena_objects.specs.Standing.{Stands};
ghost use Rattle.arena_objects.specs.ReadBack.{or_zero, part_in as part_is, parts_from, object_in as object_is, objects_in};
ghost use Rattle.arena_objects.specs.Walked.{addresses_found};
ghost use Rattle.arena_world.specs.View.{value_by};

use crate::laws::stores_are_read_back;
use arena_objects::{Found, Walked, begins_at, walk_finds, words_ahead};
use std::alloc::{AllocError, Global};
use target_base::ArenaWords;
use trace_meaning::{Object, Store, Value};
use trace_ops::{Kind, List, ShapeOf, Table, Word};

// What the field of a row holds.
fn field_kind(table: &Table, field: u32) -> Option<Kind>
    ensures { result ≡ kind_of_field table.now field }
{
    match table.fields.items().get(field as usize) {
        None => None,
        Some(row) => Some(row.kind),
    }
}

// What the items of the array of a row hold.
fn item_kind(table: &Table, array: u32) -> Option<Kind>
    ensures { result ≡ kind_of_item table.now array }
{
    match table.arrays.items().get(array as usize) {
        None => None,
        Some(row) => Some(row.kind),
    }
}

// The field at a place of a size.
fn field_at(table: &Table, size: u32, i: u64) -> Option<u32>
    ensures { result ≡ slice_get (fields_of table.now size) i }
{
    match table.sizes.items().get(size as usize) {
        None => None,
        Some(row) => row.fields.items().get(i as usize).copied(),
    }
}

// What a part of an object holds.
fn part_kind(table: &Table, shape: ShapeOf, i: u64) -> Option<Kind>
    ensures { result ≡ kind_of_part table.now shape i }
{
    match shape {
        ShapeOf::Size(size) => match field_at(table, size, i) {
            None => None,
            Some(field) => field_kind(table, field),
        },
        ShapeOf::Array(array) => item_kind(table, array),
    }
}

// A word read as a reference.
fn reference(walked: &Walked, word: Word) -> Value
    ensures { result ≡ value_by walked.now.found (Some Ref) word }
{
    match walked.number_of(word) {
        None => Value::Null,
        Some(k) => Value::Obj(k),
    }
}

// A word read as a value.
fn value_of(walked: &Walked, kind: Option<Kind>, word: Word) -> Value
    ensures { result ≡ value_by walked.now.found kind word }
{
    match kind {
        Some(Kind::Ref) => reference(walked, word),
        _ => Value::Int(word),
    }
}

// The word at an address, or 0.
fn word_or_zero(arena: &ArenaWords, at: u64) -> Word
    ensures { result ≡ or_zero (arena_word arena.now at) }
{
    match arena.read(at) {
        None => 0,
        Some(word) => word,
    }
}

// What is read: an arena by its table, with the addresses that were found.
#[derive(Clone, Copy)]
struct Reading<'a> {
    table: &'a Table,
    arena: &'a ArenaWords,
    walked: &'a Walked,
}

impl<'a> Reading<'a> {
    // A part of an object that was found.
    fn part(&self, found: Found, i: u64) -> Value
        requires walked { self.now.walked.now.found ≡ addresses_found self.now.table.now self.now.arena.now }
        requires at { found.at ≤ 2 ^ 30 }
        requires few { i ≤ 2 ^ 22 }
        ensures { result ≡ part_is self.now.table.now self.now.arena.now found i }
    {
        walk_finds();
        let word = word_or_zero(self.arena, found.at + 8 * (words_ahead(found.of) + i));
        value_of(self.walked, part_kind(self.table, found.of, i), word)
    }

    // The parts of an object that was found.
    fn parts(&self, alloc: Global, found: Found) -> Result<Vec<Value>, AllocError>
        requires walked { self.now.walked.now.found ≡ addresses_found self.now.table.now self.now.arena.now }
        requires at { found.at ≤ 2 ^ 30 }
        requires few { found.parts ≤ 2 ^ 22 }
        ensures { IfOk result (λ xs. xs.items ≡ parts_from self.now.table.now self.now.arena.now found 0 found.parts) }
    {
        let mut parts = Vec::with_capacity(alloc, found.parts as usize)?;
        for i in 0..found.parts {
            parts.push(self.part(found, i))?;
        }
        Ok(parts)
    }

    // An object that was found.
    fn object(&self, alloc: Global, found: Found) -> Result<Object, AllocError>
        requires walked { self.now.walked.now.found ≡ addresses_found self.now.table.now self.now.arena.now }
        requires at { found.at ≤ 2 ^ 30 }
        requires few { found.parts ≤ 2 ^ 22 }
        ensures { IfOk result (λ o. o ≡ object_is self.now.table.now self.now.arena.now found) }
    {
        let parts = self.parts(alloc, found)?;
        Ok(Object {
            of: found.of,
            parts: List::of(parts),
        })
    }

    // All objects, in the order of the walk.
    fn objects(&self, alloc: Global) -> Result<Vec<Object>, AllocError>
        requires walked { self.now.walked.now.found ≡ addresses_found self.now.table.now self.now.arena.now }
        ensures { IfOk result (λ os. os.items ≡ objects_in self.now.table.now self.now.arena.now) }
    {
        walk_finds();
        let taken = self.arena.taken();
        let mut objects = Vec::new(alloc);
        let mut at = 0x1000_0000u64;
        for _ in 0..taken {
            match begins_at(self.table, self.arena, at) {
                None => return Ok(objects),
                Some(found) => {
                    objects.push(self.object(alloc, found)?)?;
                    at = found.at + 8 * (words_ahead(found.of) + found.parts);
                }
            }
        }
        Ok(objects)
    }
}

/// All objects that a walk over an arena finds, in its order, as a store.
///
/// Where objects stand in the arena, each of whose parts holds a value of its kind, it is these objects.
pub fn read_store(alloc: Global, table: &Table, arena: &ArenaWords) -> Result<Store, AllocError>
    ensures objects { IfOk result (λ s. s.objects ≡ objects_in table.now arena.now) }
    ensures back { IfOk result (λ s. (objects : List OneObject) → IsTableInRange table.now → Stands table.now objects arena.now → ObjectsHold table.now objects → s.objects ≡ objects) }
{
    stores_are_read_back();
    let mut walked = Walked::new(alloc, arena.size())?;
    walked.walk(table, arena);
    let reading = Reading {
        table,
        arena,
        walked: &walked,
    };
    let objects = reading.objects(alloc)?;
    Ok(Store {
        objects: List::of(objects),
    })
}
