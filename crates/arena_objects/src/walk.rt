// The objects of an arena, found from its start.

ghost use Rattle.std.specs.Prelude.{◌≡◌, ℕ, ◌+◌, ◌*◌, ◌^◌, ◌≤◌, pos, length, slice_get};
ghost use Rattle.std.specs.Option.{option_map};
ghost use Rattle.std.specs.Int.{cast_unsigned, w64};
ghost use Rattle.trace_meaning.specs.Objects.{fields_of as size_fields};
ghost use Rattle.target_base.specs.Arena.{arena_word};
ghost use Rattle.arena_objects.specs.Layout.{words_ahead as words_before_parts};
ghost use Rattle.arena_objects.specs.Walk.{shape_of as shape_is, parts_at as parts_are, if_taken as where_taken, found_with, found_of, begins_at as begins, object_at as number_is};

use target_base::ArenaWords;
use trace_ops::{ShapeOf, Table};

/// An object that was found: its address, its shape and how many parts it has.
#[derive(Clone, Copy, Debug, PartialEq, Eq)]
pub struct Found {
    pub at: u64,
    pub of: ShapeOf,
    pub parts: u64,
}

fn shape_of(table: &Table, header: Option<i64>) -> Option<ShapeOf>
    ensures { result ≡ shape_is table.now header }
{
    match header {
        None => None,
        Some(h) => {
            if h <= 0 {
                None
            } else {
                table.shapes.items().get((h - 1) as usize).copied()
            }
        }
    }
}

fn field_count(table: &Table, size: u32) -> u64
    ensures value { result ≡ length (size_fields table.now size) }
{
    match table.sizes.items().get(size as usize) {
        None => 0,
        Some(row) => row.fields.items().len() as u64,
    }
}

fn length_of(word: Option<i64>) -> Option<u64>
    ensures { result ≡ option_map (cast_unsigned w64) word }
{
    match word {
        None => None,
        Some(w) => Some(w.cast_unsigned()),
    }
}

fn parts_at(table: &Table, arena: &ArenaWords, a: u64, shape: ShapeOf) -> Option<u64>
    requires { a ≤ 2 ^ 30 }
    ensures { result ≡ parts_are table.now arena.now a shape }
{
    match shape {
        ShapeOf::Size(s) => Some(field_count(table, s)),
        ShapeOf::Array(_) => length_of(arena.read(a + 8)),
    }
}

/// The words of an object before its parts.
pub fn words_ahead(shape: ShapeOf) -> u64
    ensures value { result ≡ words_before_parts shape }
    ensures some { 1 ≤ result }
    ensures few { result ≤ 2 }
{
    match shape {
        ShapeOf::Size(_) => 1,
        ShapeOf::Array(_) => 2,
    }
}

fn if_taken(arena: &ArenaWords, found: Found) -> Option<Found>
    requires low { 0x1000_0000 ≤ found.at }
    requires high { found.at ≤ 2 ^ 30 }
    ensures { result ≡ where_taken arena.now found }
{
    let end = 0x1000_0000 + arena.taken();
    let ahead = words_ahead(found.of);
    if found.parts > 0x20_0000 || found.at + 8 * (ahead + found.parts) > end {
        None
    } else {
        Some(found)
    }
}

fn found_when(arena: &ArenaWords, a: u64, shape: ShapeOf, parts: Option<u64>) -> Option<Found>
    requires low { 0x1000_0000 ≤ a }
    requires high { a ≤ 2 ^ 30 }
    ensures { result ≡ found_with arena.now a shape parts }
{
    match parts {
        None => None,
        Some(n) => if_taken(
            arena,
            Found {
                at: a,
                of: shape,
                parts: n,
            },
        ),
    }
}

fn found_as(table: &Table, arena: &ArenaWords, a: u64, shape: Option<ShapeOf>) -> Option<Found>
    requires low { 0x1000_0000 ≤ a }
    requires high { a ≤ 2 ^ 30 }
    ensures { result ≡ found_of table.now arena.now a shape }
{
    match shape {
        None => None,
        Some(s) => found_when(arena, a, s, parts_at(table, arena, a, s)),
    }
}

/// The object that begins at an address, if one does.
pub fn begins_at(table: &Table, arena: &ArenaWords, a: u64) -> Option<Found>
    requires low { 0x1000_0000 ≤ a }
    requires high { a ≤ 2 ^ 30 }
    ensures { result ≡ begins table.now arena.now a }
{
    found_as(table, arena, a, shape_of(table, arena.read(a)))
}

/// The number of the object that begins at an address.
fn number_at(table: &Table, arena: &ArenaWords, a: u64) -> Option<u32>
    ensures { result ≡ number_is table.now arena.now (pos a) }
{
    let taken = arena.taken();
    let mut at = 0x1000_0000u64;
    let mut k = 0u32;
    for _ in 0..taken {
        match begins_at(table, arena, at) {
            None => return None,
            Some(found) => {
                if found.at == a {
                    return Some(k);
                }
                at = found.at + 8 * (words_ahead(found.of) + found.parts);
                k += 1;
            }
        }
    }
    None
}

/// The number of the object of which a word is the address.
pub fn object_at(table: &Table, arena: &ArenaWords, word: i64) -> Option<u32>
    ensures { result ≡ number_is table.now arena.now word }
{
    if word < 0 {
        None
    } else {
        number_at(table, arena, word as u64)
    }
}
