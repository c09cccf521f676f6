//! Which answers fit a call, over the words of an arena.

ghost use Rattle.std.specs.Prelude.{◌≡◌, ◌<◌, Some, length, slice_get};
ghost use Rattle.std.specs.List.{list_all};
ghost use Rattle.trace_ops.specs.InRange.{IsTableInRange};
ghost use Rattle.trace_ops.specs.declared.table.ShapeOf.TheVariants.{Size};
ghost use Rattle.trace_meaning.specs.Answers.{same_result as results_same, kind_given as given_kind, is_named as named, is_new as new_given, may_be_stored as storable, is_declared as declared_in};
ghost use Rattle.arena_objects.specs.Headers.{header_in};
ghost use Rattle.arena_objects.specs.Layout.{header_of};
ghost use Rattle.arena_world.specs.Prebuilt.{prebuilt_addresses, last_of, IsHostOf};
ghost use Rattle.arena_world.specs.Fitting.{loaded as word_loaded, is_header as header_is, is_base_word as is_based, store_fits_in as fits_in, store_fits_word as fits_word, fits_words};

use crate::host::Host;
use target_base::ArenaWords;
use trace_meaning::{Answer, AnswerStore, Give};
use trace_ops::{CallRow, FieldRow, Kind, ShapeOf, Table, Word};

fn same_result(a: Option<Kind>, b: Option<Kind>) -> bool
    ensures { result ≡ results_same a b }
{
    match a {
        None => b.is_none(),
        Some(Kind::Int) => match b {
            Some(Kind::Int) => true,
            _ => false,
        },
        Some(Kind::Ref) => match b {
            Some(Kind::Ref) => true,
            _ => false,
        },
    }
}

// The kind of what is given, if anything is.
fn kind_given(given: Give) -> Option<Kind>
    ensures { result ≡ given_kind given }
{
    match given {
        Give::Nothing => None,
        Give::Int(_) => Some(Kind::Int),
        Give::Null => Some(Kind::Ref),
        Give::Arg(_) => Some(Kind::Ref),
        Give::Prebuilt(_) => Some(Kind::Ref),
        Give::New(_) => Some(Kind::Ref),
    }
}

// Whether its number names a reference argument of so many, a prebuilt object or a size.
fn is_named(table: &Table, references: usize, given: Give) -> bool
    ensures { result ≡ named table.now references given }
{
    match given {
        Give::Arg(k) => (k as usize) < references,
        Give::Prebuilt(k) => (k as usize) < table.prebuilts.items().len(),
        Give::New(k) => (k as usize) < table.sizes.items().len(),
        _ => true,
    }
}

fn is_new(given: Give) -> bool
    ensures { result ≡ new_given given }
{
    match given {
        Give::New(_) => true,
        _ => false,
    }
}

// Whether what is given may be stored in a field of this kind.
fn may_be_stored(table: &Table, references: usize, kind: Kind, given: Give) -> bool
    ensures { result ≡ storable table.now references kind given }
{
    same_result(kind_given(given), Some(kind))
        && !is_new(given)
        && is_named(table, references, given)
}

fn is_declared(writes: &[u32], field: u32) -> bool
    ensures { result ≡ declared_in writes.now field }
{
    writes.iter().any(|f| *f == field)
}

// The word at an address that is a word.
fn loaded(arena: &ArenaWords, word: Word) -> Option<Word>
    ensures { result ≡ word_loaded arena.now word }
{
    if word < 0 {
        None
    } else {
        arena.read(word as u64)
    }
}

fn is_header(number: u32, word: Option<Word>) -> bool
    ensures { result ≡ header_is number word }
{
    match word {
        None => false,
        Some(word) => word == i64::from(number),
    }
}

// Whether a word is the address of an object in which the field may be written.
fn is_base(host: &Host, field: FieldRow, arena: &ArenaWords, base: Option<Word>) -> bool
    ensures { result ≡ is_based (header_in host.now.headers (Size field.size)) (last_of host.now.prebuilts) field.immutable arena.now base }
{
    match base {
        None => false,
        Some(word) => {
            is_header(
                host.header_of(ShapeOf::Size(field.size)),
                loaded(arena, word),
            ) && !(field.immutable && word <= host.last_prebuilt())
        }
    }
}

// The same of a field of a size of the table.
fn is_base_of(
    table: &Table,
    host: &Host,
    field: FieldRow,
    arena: &ArenaWords,
    base: Option<Word>,
) -> bool
    requires range { IsTableInRange table.now }
    requires host { IsHostOf table.now host.now }
    requires sized { field.size < length table.now.sizes }
    ensures { result ≡ is_based (header_of table.now (Size field.size)) (last_of (prebuilt_addresses table.now)) field.immutable arena.now base }
{
    is_base(host, field, arena, base)
}

fn store_fits_field(
    table: &Table,
    host: &Host,
    row: &CallRow,
    references: &[Word],
    arena: &ArenaWords,
    store: AnswerStore,
    field: FieldRow,
) -> bool
    requires range { IsTableInRange table.now }
    requires host { IsHostOf table.now host.now }
    requires field { slice_get table.now.fields store.field ≡ Some field }
    ensures { result ≡ fits_in table.now row.now references.now arena.now store (Some field) }
{
    let base = references.get(store.arg as usize).copied();
    may_be_stored(table, references.len(), field.kind, store.value)
        && is_base_of(table, host, field, arena, base)
        && is_declared(row.writes.items(), store.field)
}

// Whether a store is one of a value of the field's kind, into a field that the call declares.
fn store_fits(
    table: &Table,
    host: &Host,
    row: &CallRow,
    references: &[Word],
    arena: &ArenaWords,
    store: AnswerStore,
) -> bool
    requires range { IsTableInRange table.now }
    requires host { IsHostOf table.now host.now }
    ensures { result ≡ fits_word table.now row.now references.now arena.now store }
{
    match table.fields.items().get(store.field as usize) {
        None => false,
        Some(field) => store_fits_field(table, host, row, references, arena, store, *field),
    }
}

fn stores_fit(
    table: &Table,
    host: &Host,
    row: &CallRow,
    references: &[Word],
    arena: &ArenaWords,
    stores: &[AnswerStore],
) -> bool
    requires range { IsTableInRange table.now }
    requires host { IsHostOf table.now host.now }
    ensures { result ≡ list_all (fits_word table.now row.now references.now arena.now) stores.now }
{
    for store in stores {
        if !store_fits(table, host, row, references, arena, *store) {
            return false;
        }
    }
    true
}

/// Whether an answer fits a call with these words as its references, each of which is 0 or the address of an object.
pub fn fits(
    table: &Table,
    host: &Host,
    row: &CallRow,
    references: &[Word],
    answer: &Answer,
    arena: &ArenaWords,
) -> bool
    requires range { IsTableInRange table.now }
    requires host { IsHostOf table.now host.now }
    ensures { result ≡ fits_words table.now row.now references.now arena.now answer.now }
{
    same_result(kind_given(answer.gives), row.result)
        && is_named(table, references.len(), answer.gives)
        && stores_fit(table, host, row, references, arena, answer.stores.items())
}
