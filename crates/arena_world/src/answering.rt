//! What an answer does in an arena.

ghost use Rattle.std.specs.Prelude.{◌≡◌, ◌↔◌, ◌-◌, ◌==◌, ◌^◌, ◌<◌, ◌≤◌, pos, length, position, slice_get, min, IsErr, IfErr, OnOk, OnErr, IfSome};
ghost use Rattle.std.specs.Option.{option_map};
ghost use Rattle.trace_ops.specs.InRange.{IsTableInRange};
ghost use Rattle.trace_ops.specs.declared.table.ShapeOf.TheVariants.{Size};
ghost use Rattle.trace_meaning.specs.Objects.{fields_of, field_place as place_meant};
ghost use Rattle.trace_meaning.specs.declared.call.Give.TheVariants.{New};
ghost use Rattle.arena_objects.specs.Layout.{part_offset};
ghost use Rattle.arena_objects.specs.Making.{bytes_left as left_in};
ghost use Rattle.arena_world.specs.Prebuilt.{IsHostOf};
ghost use Rattle.arena_world.specs.Answering.{given_word as word_given, field_offset as offset_meant, put_word as word_put, put_behind as put_from, put_in_field as put_field, store_put, stores_put, fresh_bytes as bytes_of_fresh, with_fresh_words, IsOfSize, Goes, Comes};

use crate::fitting::fits;
use crate::host::{Host, word_at};
use arena_objects::{Full, allocate, words_ahead};
use target_base::ArenaWords;
use trace_meaning::{Answer, AnswerStore, Give};
use trace_ops::{CallRow, FieldRow, ShapeOf, Table, Word};

/// An answer that isn't done: it doesn't fit, or the bytes of its new object are over those that are left.
#[derive(Clone, Copy, Debug, PartialEq, Eq)]
pub enum Refused {
    Misfit,
    Full(Full),
}

// The word of what is given.
fn given_word(host: &Host, references: &[Word], fresh: Word, given: Give) -> Word
    ensures { result ≡ word_given host.now.prebuilts references.now fresh given }
{
    match given {
        Give::Nothing => 0,
        Give::Int(word) => word,
        Give::Null => 0,
        Give::Arg(k) => word_at(references, k as usize),
        Give::Prebuilt(k) => host.prebuilt(k),
        Give::New(_) => fresh,
    }
}

fn index_of(fields: &[u32], field: u32) -> Option<usize>
    ensures value { result ≡ position (λ g. g == field) fields.now }
    ensures few { IfSome result (λ i. i < length fields.now) }
{
    fields.iter().position(|g| *g == field)
}

// The place of a field in its size.
fn field_place(table: &Table, size: u32, field: u32) -> Option<usize>
    requires { IsTableInRange table.now }
    ensures value { result ≡ place_meant table.now (Size size) field }
    ensures few { IfSome result (λ i. i < 64) }
{
    match table.sizes.items().get(size as usize) {
        None => None,
        Some(row) => index_of(row.fields.items(), field),
    }
}

// How far behind the address of an object of a size a part lies.
fn offset_of(size: u32, place: Option<usize>) -> Option<u64>
    requires { IfSome place (λ i. i < 64) }
    ensures value { result ≡ option_map (part_offset (Size size)) place }
    ensures few { IfSome result (λ d. d ≤ 2 ^ 30) }
{
    match place {
        None => None,
        Some(i) => Some(8 * (words_ahead(ShapeOf::Size(size)) + i as u64)),
    }
}

// How far behind the address of its object a field lies.
fn field_offset(table: &Table, field: u32) -> Option<u64>
    requires { IsTableInRange table.now }
    ensures value { result ≡ offset_meant table.now field (slice_get table.now.fields field) }
    ensures few { IfSome result (λ d. d ≤ 2 ^ 30) }
{
    match table.fields.items().get(field as usize) {
        None => None,
        Some(row) => offset_of(row.size, field_place(table, row.size, field)),
    }
}

fn put_word(arena: &mut ArenaWords, at: u64, word: Word)
    ensures { arena.new ≡ word_put at word arena.old }
{
    let _written = arena.write(at, word);
}

fn put_behind(arena: &mut ArenaWords, base: Word, offset: u64, word: Word)
    requires { offset ≤ 2 ^ 30 }
    ensures { arena.new ≡ put_from base offset word arena.old }
{
    if base >= 0 {
        put_word(arena, base as u64 + offset, word);
    }
}

fn put_in_field(arena: &mut ArenaWords, offset: Option<u64>, base: Word, word: Word)
    requires { IfSome offset (λ d. d ≤ 2 ^ 30) }
    ensures { arena.new ≡ put_field offset base word arena.old }
{
    match offset {
        None => {}
        Some(d) => put_behind(arena, base, d, word),
    }
}

fn do_store(
    table: &Table,
    host: &Host,
    references: &[Word],
    store: AnswerStore,
    arena: &mut ArenaWords,
)
    requires range { IsTableInRange table.now }
    requires host { IsHostOf table.now host.now }
    ensures { arena.new ≡ store_put table.now references.now store arena.old }
{
    let base = word_at(references, store.arg as usize);
    let word = given_word(host, references, 0, store.value);
    put_in_field(arena, field_offset(table, store.field), base, word);
}

// Does stores, in order.
fn do_stores(
    table: &Table,
    host: &Host,
    references: &[Word],
    stores: &[AnswerStore],
    arena: &mut ArenaWords,
)
    requires range { IsTableInRange table.now }
    requires host { IsHostOf table.now host.now }
    ensures { arena.new ≡ stores_put table.now references.now stores.now arena.old }
{
    for store in stores {
        do_store(table, host, references, *store, arena);
    }
}

// How many fields a size has.
fn field_count(table: &Table, size: u32) -> u64
    ensures { result ≡ length (fields_of table.now size) }
{
    match table.sizes.items().get(size as usize) {
        None => 0,
        Some(row) => row.fields.items().len() as u64,
    }
}

// Makes a new object of a size of the table.
fn make_size(table: &Table, host: &Host, size: u32, arena: &mut ArenaWords) -> Result<(), Full>
    requires range { IsTableInRange table.now }
    requires host { IsHostOf table.now host.now }
    requires named { size < length table.now.sizes }
    ensures full { IsErr result ↔ (left_in arena.old < bytes_of_fresh table.now (New size)) }
    ensures asked { IfErr result (λ f. f ≡ record { asked = min (bytes_of_fresh table.now (New size)) (2 ^ 64 - 1); left = left_in arena.old }) }
    ensures ok { OnOk result (arena.new ≡ with_fresh_words table.now (New size) arena.old) }
    ensures err { OnErr result (arena.new ≡ arena.old) }
{
    let shape = ShapeOf::Size(size);
    let parts = field_count(table, size);
    match allocate(arena, shape, host.header_of(shape), parts) {
        Err(full) => Err(full),
        Ok(_address) => Ok(()),
    }
}

// Makes the new object, if one is given; its size is one of the table.
fn make_fresh(table: &Table, host: &Host, given: Give, arena: &mut ArenaWords) -> Result<(), Full>
    requires range { IsTableInRange table.now }
    requires host { IsHostOf table.now host.now }
    requires named { IsOfSize table.now given }
    ensures full { IsErr result ↔ (left_in arena.old < bytes_of_fresh table.now given) }
    ensures asked { IfErr result (λ f. f ≡ record { asked = min (bytes_of_fresh table.now given) (2 ^ 64 - 1); left = left_in arena.old }) }
    ensures ok { OnOk result (arena.new ≡ with_fresh_words table.now given arena.old) }
    ensures err { OnErr result (arena.new ≡ arena.old) }
{
    match given {
        Give::New(size) => make_size(table, host, size, arena),
        _ => Ok(()),
    }
}

// Does an answer, for whose new object there may be no room.
fn do_answer(
    table: &Table,
    host: &Host,
    references: &[Word],
    answer: &Answer,
    arena: &mut ArenaWords,
) -> Result<Word, Full>
    requires range { IsTableInRange table.now }
    requires host { IsHostOf table.now host.now }
    requires named { IsOfSize table.now answer.now.gives }
    ensures { Goes table.now references.now answer.now arena.old arena.new result }
{
    let fresh = 0x1000_0000 + arena.taken() as Word;
    match make_fresh(table, host, answer.gives, arena) {
        Err(full) => Err(full),
        Ok(()) => {
            do_stores(table, host, references, answer.stores.items(), arena);
            Ok(given_word(host, references, fresh, answer.gives))
        }
    }
}

/// Does an answer that fits a call with these words as its references, each of which is 0 or the address of an object:
/// makes its new object, does its stores in order, and answers the word of what is given.
///
/// An answer that is refused changes nothing. It takes no memory.
pub fn answer(
    table: &Table,
    host: &Host,
    row: &CallRow,
    references: &[Word],
    answer: &Answer,
    arena: &mut ArenaWords,
) -> Result<Word, Refused>
    requires range { IsTableInRange table.now }
    requires host { IsHostOf table.now host.now }
    ensures { Comes table.now row.now references.now answer.now arena.old arena.new result }
{
    if !fits(table, host, row, references, answer, arena) {
        return Err(Refused::Misfit);
    }
    match do_answer(table, host, references, answer, arena) {
        Err(full) => Err(Refused::Full(full)),
        Ok(word) => Ok(word),
    }
}
