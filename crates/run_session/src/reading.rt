// Values read from the words of registers and arena.

ghost use Rattle.std.specs.Prelude.{◌≡◌, ◌+◌, ◌*◌, ◌<◌, ◌≤◌, ◌^◌, not as negated, length, position, ◌==◌, Some, slice_get, IfSome};
ghost use Rattle.trace_ops.specs.InRange.{IsTableInRange};
ghost use Rattle.trace_ops.specs.Kinds.{kind_of_field};
ghost use Rattle.std.specs.Option.{option_map};
ghost use Rattle.trace_ops.specs.declared.table.ShapeOf.TheVariants.{Size};
ghost use Rattle.trace_meaning.specs.Objects.{field_place as place_meant, item_place as item_meant, place_of as spot_meant};
ghost use Rattle.target_base.specs.Arena.{arena_word};
ghost use Rattle.arena_objects.specs.Walk.{shape_of as shape_meant, words_found, begins_at as one_begins, object_at};
ghost use Rattle.arena_objects.specs.Walked.{number_in, addresses_found};
ghost use Rattle.arena_objects.specs.ReadBack.{reference_to, or_zero};
ghost use Rattle.arena_world.specs.View.{value_by};
ghost use Rattle.run_session.specs.Read.{is_known as known, begins_by, field_read, field_by, is_within};
ghost use Rattle.resume_rebuild.specs.Rebuilding.{found_addresses};
ghost use Rattle.session_host.specs.Showing.{has_spot as spot_is_there};

use arena_objects::{Found, begins_at, walk_finds, words_ahead};
use resume_rebuild::Rebuilt;
use target_base::ArenaWords;
use trace_meaning::Value;
use trace_ops::{Kind, ShapeOf, Spot, Table, Word};

/// A word as a reference, by the objects that were found last.
pub(crate) fn reference(rebuilt: &Rebuilt, word: Word) -> Value
    ensures { result ≡ reference_to (number_in word rebuilt.now.found) }
{
    match rebuilt.number_of(word) {
        None => Value::Null,
        Some(k) => Value::Obj(k),
    }
}

/// A word as a value of a kind.
pub(crate) fn value(rebuilt: &Rebuilt, kind: Kind, word: Word) -> Value
    ensures { result ≡ value_by rebuilt.now.found (Some kind) word }
{
    match kind {
        Kind::Int => Value::Int(word),
        Kind::Ref => reference(rebuilt, word),
    }
}

/// Whether a word is null or the address of an object.
pub(crate) fn is_known(rebuilt: &Rebuilt, word: Word) -> bool
    ensures { result ≡ known rebuilt.now.found word }
{
    word == 0 || rebuilt.number_of(word).is_some()
}

/// Whether a word is neither null nor the address of an object.
pub(crate) fn is_stray(rebuilt: &Rebuilt, word: Word) -> bool
    ensures { result ≡ negated (known rebuilt.now.found word) }
{
    word != 0 && rebuilt.number_of(word).is_none()
}

/// The shape of a header number.
pub(crate) fn shape_of(table: &Table, header: Word) -> Option<ShapeOf>
    ensures { result ≡ shape_meant table.now (Some header) }
{
    if header <= 0 {
        return None;
    }
    table.shapes.items().get((header - 1) as usize).copied()
}

// The object that begins at the address in a word.
fn begins(table: &Table, arena: &ArenaWords, word: Word) -> Option<Found>
    ensures value { result ≡ begins_by table.now arena.now word }
    ensures few { IfSome result (λ f. f.at ≤ 2 ^ 30) }
{
    walk_finds();
    let _bound = arena.size();
    if word < 0x1000_0000 || word > 0x4000_0000 {
        return None;
    }
    begins_at(table, arena, word as u64)
}

fn index_of(fields: &[u32], field: u32) -> Option<usize>
    ensures value { result ≡ position (λ g. g == field) fields.now }
    ensures few { IfSome result (λ i. i < length fields.now) }
    ensures there { IfSome result (λ i. slice_get fields.now i ≡ Some field) }
{
    fields.iter().position(|g| *g == field)
}

// The place of a field in its size.
fn place_in_size(table: &Table, size: u32, field: u32) -> Option<usize>
    requires { IsTableInRange table.now }
    ensures value { result ≡ place_meant table.now (Size size) field }
    ensures few { IfSome result (λ i. i < 64) }
{
    match table.sizes.items().get(size as usize) {
        None => None,
        Some(row) => index_of(row.fields.items(), field),
    }
}

// The place of a field of a shape.
fn field_place(table: &Table, shape: ShapeOf, field: u32) -> Option<usize>
    requires { IsTableInRange table.now }
    ensures value { result ≡ place_meant table.now shape field }
    ensures few { IfSome result (λ i. i < 64) }
{
    match shape {
        ShapeOf::Array(_) => None,
        ShapeOf::Size(size) => place_in_size(table, size, field),
    }
}

// The word at an address, or 0.
fn word_or_zero(arena: &ArenaWords, at: u64) -> Word
    ensures { result ≡ or_zero (arena_word arena.now at) }
{
    match arena.read(at) {
        None => 0,
        Some(word) => word,
    }
}

// What a field holds.
fn field_kind(table: &Table, field: u32) -> Option<Kind>
    ensures { result ≡ kind_of_field table.now field }
{
    match table.fields.items().get(field as usize) {
        None => None,
        Some(row) => Some(row.kind),
    }
}

// A word as a value, where it may be of a kind.
fn value_of(rebuilt: &Rebuilt, kind: Option<Kind>, word: Word) -> Value
    ensures { result ≡ value_by rebuilt.now.found kind word }
{
    match kind {
        Some(Kind::Ref) => reference(rebuilt, word),
        _ => Value::Int(word),
    }
}

// A field of an object that was found, at its place.
fn field_in(
    table: &Table,
    arena: &ArenaWords,
    rebuilt: &Rebuilt,
    found: Found,
    field: u32,
    place: Option<usize>,
) -> Option<Value>
    requires at { found.at ≤ 2 ^ 30 }
    requires few { IfSome place (λ i. i < 64) }
    ensures { result ≡ option_map (field_read table.now arena.now rebuilt.now.found found field) place }
{
    match place {
        None => None,
        Some(i) => {
            let word = word_or_zero(arena, found.at + 8 * (words_ahead(found.of) + i as u64));
            Some(value_of(rebuilt, field_kind(table, field), word))
        }
    }
}

/// What a field of the object at an address holds, where one begins there and it is a field of its size.
pub(crate) fn field_at(
    table: &Table,
    arena: &ArenaWords,
    rebuilt: &Rebuilt,
    word: Word,
    field: u32,
) -> Option<Value>
    requires { IsTableInRange table.now }
    ensures { result ≡ field_by table.now arena.now rebuilt.now.found field (begins_by table.now arena.now word) }
{
    walk_finds();
    match begins(table, arena, word) {
        None => None,
        Some(found) => field_in(
            table,
            arena,
            rebuilt,
            found,
            field,
            field_place(table, found.of, field),
        ),
    }
}

// The place of an item of an array, at an index that isn't below 0.
fn item_place(shape: ShapeOf, array: u32, index: Word) -> Option<u64>
    ensures { result ≡ item_meant shape array index }
{
    match shape {
        ShapeOf::Size(_) => None,
        ShapeOf::Array(row) => {
            if row == array && index >= 0 {
                Some(index as u64)
            } else {
                None
            }
        }
    }
}

// The place of a spot of a shape.
fn spot_place(table: &Table, shape: ShapeOf, spot: Spot) -> Option<u64>
    requires { IsTableInRange table.now }
    ensures { result ≡ spot_meant table.now shape spot }
{
    match spot {
        Spot::Item(array, index) => item_place(shape, array, index),
        Spot::Field(field) => match field_place(table, shape, field) {
            None => None,
            Some(i) => Some(i as u64),
        },
    }
}

// Whether an object that was found has a spot.
fn has_spot_in(table: &Table, found: Found, spot: Spot) -> bool
    requires { IsTableInRange table.now }
    ensures { result ≡ is_within found.parts (spot_meant table.now found.of spot) }
{
    match spot_place(table, found.of, spot) {
        None => false,
        Some(i) => i < found.parts,
    }
}

/// Whether a word is the address of an object that has a spot.
pub(crate) fn has_spot(
    table: &Table,
    arena: &ArenaWords,
    rebuilt: &Rebuilt,
    word: Word,
    spot: Spot,
) -> bool
    requires range { IsTableInRange table.now }
    requires walked { rebuilt.now.found ≡ addresses_found table.now arena.now }
    ensures { result ≡ spot_is_there table.now arena.now spot (object_at table.now arena.now word) }
{
    walk_finds();
    if rebuilt.number_of(word).is_none() {
        return false;
    }
    match begins(table, arena, word) {
        None => false,
        Some(found) => has_spot_in(table, found, spot),
    }
}

// The address behind the object that begins at an address, where one does.
fn behind(table: &Table, arena: &ArenaWords, at: u64) -> Option<u64>
    requires low { 0x1000_0000 ≤ at }
    requires high { at ≤ 2 ^ 30 }
    ensures { result ≡ option_map (λ f. f.at + 8 * words_found f) (one_begins table.now arena.now at) }
{
    walk_finds();
    let _bound = arena.taken();
    match begins_at(table, arena, at) {
        None => None,
        Some(found) => Some(found.at + 8 * (words_ahead(found.of) + found.parts)),
    }
}

/// The address of the k-th object of an arena, from 0, or 0 where there are fewer.
pub(crate) fn nth_address(table: &Table, arena: &ArenaWords, k: u32) -> Word
    ensures { result ≡ or_zero (slice_get (found_addresses table.now arena.now) k) }
{
    walk_finds();
    let _bound = arena.taken();
    let mut at = 0x1000_0000u64;
    for _ in 0..k {
        match behind(table, arena, at) {
            None => return 0,
            Some(next) => at = next,
        }
    }
    match begins_at(table, arena, at) {
        None => 0,
        Some(_found) => at as Word,
    }
}
