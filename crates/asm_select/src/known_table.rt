// A table with the header number of each shape and the place of each prebuilt object, so that each is found at once.
#![tactic(auto)]

ghost use Rattle.std.specs.Prelude.{◌≡◌, ◌+◌, ◌*◌, pos, length, IfOk, IsTrue};
ghost use Rattle.std.specs.List.{Contains};
ghost use Rattle.trace_ops.specs.Kinds.{NamesShape};
ghost use Rattle.trace_ops.specs.declared.piece.Spot.TheVariants as spot;
ghost use Rattle.arena_objects.specs.Layout.{header_of, same_shape, words_ahead};
ghost use Rattle.arena_objects.specs.Spots.{spot_offset};
ghost use Rattle.asm_select.specs.Chosen.{address_in};
ghost use Rattle.asm_select.specs.Known.{HaveStarts};

use crate::table_numbers::field_offset;
use arena_objects::Headers;
use std::alloc::{AllocError, Global};
use std::marker::Model;
use trace_ops::{PrebuiltRow, ShapeOf, Table};

/// The table, its header numbers and the words before each of its prebuilt objects.
#[derive(Drop)]
pub struct KnownTable<'a> {
    table: &'a Table,
    headers: Headers,
    starts: Vec<u64>,
}

impl<'a> Model for KnownTable<'a> {
    ghost use Rattle.trace_ops.specs.declared.table.Table.{Table};
    ghost use Rattle.arena_objects.specs.Headers.{HaveHeaders};
    ghost use Rattle.asm_select.specs.Known.{HaveStarts};

    ghost Value = { Table };

    ghost view = { λ k. k.table.now };

    ghost invariant = { λ k. record {
      headers : HaveHeaders k.table.now k.headers;
      starts : HaveStarts k.table.now.prebuilts k.starts.items;
    } };
}

impl<'a> KnownTable<'a> {
    pub fn new(alloc: Global, table: &Table) -> Result<KnownTable<'_>, AllocError>
        ensures { IfOk result (λ k. k ≡ table.now) }
    {
        if table.shapes.items().len() > u32::MAX as usize {
            return Err(AllocError);
        }
        let headers = Headers::new(alloc, table)?;
        let starts = starts_of(alloc, table.prebuilts.items())?;
        Ok(KnownTable {
            table,
            headers,
            starts,
        })
    }

    /// The header number of a shape. One that the table doesn't list counts as a want of memory.
    pub fn header_of(&self, shape: ShapeOf) -> Result<i32, AllocError>
        ensures { IfOk result (λ n. n ≡ pos (header_of self.now shape)) }
    {
        let number = self.headers.of(shape);
        if !lists(self.table, shape, number) {
            return Err(AllocError);
        }
        match i32::try_from(number) {
            Ok(n) => Ok(n),
            Err(_) => Err(AllocError),
        }
    }

    /// The address of a prebuilt object.
    pub fn address_in(&self, k: u32) -> Result<i64, AllocError>
        ensures { IfOk result (λ n. n ≡ pos (address_in self.now k)) }
    {
        match self.starts.get(k as usize) {
            Some(words) => address_at(*words),
            None => Err(AllocError),
        }
    }

    /// How many bytes behind an object's address a field lies.
    pub fn field_offset(&self, f: u32) -> Result<i32, AllocError>
        ensures { IfOk result (λ n. n ≡ pos (spot_offset self.now (spot.Field f))) }
    {
        field_offset(self.table, f)
    }
}

fn same_shape(one: ShapeOf, other: ShapeOf) -> bool
    ensures { result ≡ same_shape one other }
{
    match (one, other) {
        (ShapeOf::Size(a), ShapeOf::Size(b)) => a == b,
        (ShapeOf::Array(a), ShapeOf::Array(b)) => a == b,
        _ => false,
    }
}

// The shape's row is there.
fn names_shape(table: &Table, shape: ShapeOf) -> bool
    ensures { IsTrue result → NamesShape table.now shape }
{
    match shape {
        ShapeOf::Size(n) => (n as usize) < table.sizes.items().len(),
        ShapeOf::Array(n) => (n as usize) < table.arrays.items().len(),
    }
}

// The shape stands among the shapes at the place of this number.
fn stands_at(shapes: &[ShapeOf], shape: ShapeOf, number: u32) -> bool
    ensures { IsTrue result → Contains shapes.now shape }
{
    let place = number as usize;
    if place == 0 || place > shapes.len() {
        return false;
    }
    same_shape(shapes[place - 1], shape)
}

// The table lists the shape, at this number.
fn lists(table: &Table, shape: ShapeOf, number: u32) -> bool
    ensures { IsTrue result → Contains table.now.shapes shape × NamesShape table.now shape }
{
    stands_at(table.shapes.items(), shape, number) && names_shape(table, shape)
}

// The address of a word of the arena.
fn address_at(words: u64) -> Result<i64, AllocError>
    ensures { IfOk result (λ n. n ≡ pos (0x10000000 + 8 * words)) }
{
    match i32::try_from(words) {
        Ok(n) => Ok(0x1000_0000 + 8 * i64::from(n)),
        Err(_) => Err(AllocError),
    }
}

fn words_ahead(shape: ShapeOf) -> u64
    ensures { result ≡ words_ahead shape }
{
    match shape {
        ShapeOf::Size(_) => 1,
        ShapeOf::Array(_) => 2,
    }
}

// The words of a prebuilt object.
fn words_of(row: &PrebuiltRow) -> u64
    ensures { result ≡ words_ahead row.now.of + length row.now.parts }
{
    words_ahead(row.of) + row.parts.items().len() as u64
}

// The words before each prebuilt object.
fn starts_of(alloc: Global, rows: &[PrebuiltRow]) -> Result<Vec<u64>, AllocError>
    ensures { IfOk result (λ starts. HaveStarts rows.now starts.items) }
{
    let mut starts = Vec::new(alloc);
    let mut words: u64 = 0;
    for k in 0..rows.len() {
        starts.push(words)?;
        let Some(sum) = words.checked_add(words_of(&rows[k])) else {
            return Err(AllocError);
        };
        words = sum;
    }
    Ok(starts)
}
