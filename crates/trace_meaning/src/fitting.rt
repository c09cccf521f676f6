//! Whether the answer of a host fits a call.

ghost use Rattle.std.specs.Prelude.{◌≡◌, slice_get, Some};
ghost use Rattle.std.specs.List.{list_all};
ghost use Rattle.trace_meaning.specs.Passing.{is_structure_of as structure_of};
ghost use Rattle.trace_meaning.specs.Answers.{same_result as results_same, kind_given as given_kind, is_named as named, is_new as new_given, is_size as of_size, is_base as is_based, may_be_stored as storable, is_declared as declared_in, store_fits_field as fits_field, store_fits as fits_store, fits as fits_call};

use crate::objects::is_frozen;
use crate::{Answer, AnswerStore, Give, Object, Value};
use trace_ops::{CallRow, FieldRow, Kind, ShapeOf, Spot, Table};

fn same_result(a: Option<Kind>, b: Option<Kind>) -> bool
    ensures { result ≡ results_same a b }
{
    match a {
        None => b.is_none(),
        Some(Kind::Int) => match b {
            Some(Kind::Int) => true,
            _ => false,
        },
        Some(Kind::Ref) => match b {
            Some(Kind::Ref) => true,
            _ => false,
        },
    }
}

// The kind of what is given, if anything is.
fn kind_given(given: Give) -> Option<Kind>
    ensures { result ≡ given_kind given }
{
    match given {
        Give::Nothing => None,
        Give::Int(_) => Some(Kind::Int),
        Give::Null => Some(Kind::Ref),
        Give::Arg(_) => Some(Kind::Ref),
        Give::Prebuilt(_) => Some(Kind::Ref),
        Give::New(_) => Some(Kind::Ref),
    }
}

// Whether its number names a reference argument of so many, a prebuilt object or a size.
fn is_named(table: &Table, references: usize, given: Give) -> bool
    ensures { result ≡ named table.now references given }
{
    match given {
        Give::Arg(k) => (k as usize) < references,
        Give::Prebuilt(k) => (k as usize) < table.prebuilts.items().len(),
        Give::New(k) => (k as usize) < table.sizes.items().len(),
        _ => true,
    }
}

fn is_new(given: Give) -> bool
    ensures { result ≡ new_given given }
{
    match given {
        Give::New(_) => true,
        _ => false,
    }
}

fn is_structure(size: u32, of: ShapeOf) -> bool
    ensures { result ≡ structure_of size of }
{
    match of {
        ShapeOf::Size(s) => s == size,
        ShapeOf::Array(_) => false,
    }
}

fn is_size(size: u32, objects: &[Object], n: u32) -> bool
    ensures { result ≡ of_size size (slice_get objects.now n) }
{
    match objects.get(n as usize) {
        None => false,
        Some(object) => is_structure(size, object.of),
    }
}

// Whether the field may be written in a value.
fn is_base(table: &Table, size: u32, field: u32, objects: &[Object], base: Option<Value>) -> bool
    ensures { result ≡ is_based table.now size field objects.now base }
{
    match base {
        Some(Value::Obj(n)) => {
            is_size(size, objects, n) && !is_frozen(table, Spot::Field(field), n)
        }
        _ => false,
    }
}

// Whether what is given may be stored in a field of this kind.
fn may_be_stored(table: &Table, references: usize, kind: Kind, given: Give) -> bool
    ensures { result ≡ storable table.now references kind given }
{
    same_result(kind_given(given), Some(kind))
        && !is_new(given)
        && is_named(table, references, given)
}

fn is_declared(writes: &[u32], field: u32) -> bool
    ensures { result ≡ declared_in writes.now field }
{
    writes.iter().any(|f| *f == field)
}

fn store_fits_field(
    table: &Table,
    row: &CallRow,
    references: &[Value],
    objects: &[Object],
    store: AnswerStore,
    field: FieldRow,
) -> bool
    ensures { result ≡ fits_field table.now row.now references.now objects.now store (Some field) }
{
    let base = references.get(store.arg as usize).copied();
    may_be_stored(table, references.len(), field.kind, store.value)
        && is_base(table, field.size, store.field, objects, base)
        && is_declared(row.writes.items(), store.field)
}

// Whether a store is one of a value of the field's kind, into a field that the call declares.
fn store_fits(
    table: &Table,
    row: &CallRow,
    references: &[Value],
    objects: &[Object],
    store: AnswerStore,
) -> bool
    ensures { result ≡ fits_store table.now row.now references.now objects.now store }
{
    match table.fields.items().get(store.field as usize) {
        None => false,
        Some(field) => store_fits_field(table, row, references, objects, store, *field),
    }
}

fn stores_fit(
    table: &Table,
    row: &CallRow,
    references: &[Value],
    objects: &[Object],
    stores: &[AnswerStore],
) -> bool
    ensures { result ≡ list_all (fits_store table.now row.now references.now objects.now) stores.now }
{
    for store in stores {
        if !store_fits(table, row, references, objects, *store) {
            return false;
        }
    }
    true
}

/// Whether an answer fits a call with these reference arguments.
pub fn fits(
    table: &Table,
    row: &CallRow,
    references: &[Value],
    objects: &[Object],
    answer: &Answer,
) -> bool
    ensures { result ≡ fits_call table.now row.now references.now objects.now answer.now }
{
    same_result(kind_given(answer.gives), row.result)
        && is_named(table, references.len(), answer.gives)
        && stores_fit(table, row, references, objects, answer.stores.items())
}
