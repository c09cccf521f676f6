//! Whether the result and the descr of an operation are those that it wants.
ghost use Rattle.std.specs.Prelude.{◌≡◌, ◌↔◌, IsTrue, Some, slice_get};
ghost use Rattle.std.specs.Option.{IsSomeAnd, option_map};
ghost use Rattle.trace_ops.specs.Fits.{FitsDescr, HasVtable};
ghost use Rattle.trace_ops.specs.Rules.{CitesItsDescr, GivesItsKind};
ghost use Rattle.trace_ops.specs.declared.trace.BoxId.{BoxId};
ghost use Rattle.trace_ops.specs.declared.table.CallRow.{CallRow};

use crate::kinds::{are_same, field_kind, is_asked, item_kind};
use trace_ops::{BoxId, Cites, Descr, Kind, Op, Table, cites_of, gives_of};

fn result_kind(made: Option<BoxId>) -> Option<Kind>
    ensures { result ≡ option_map (λ (b : BoxId). b.kind) made }
{
    match made {
        None => None,
        Some(made) => Some(made.kind),
    }
}

/// Rule 5: there is a result of the operation's kind, or none where it has none.
pub(crate) fn gives_its_kind(op: &Op) -> bool
    ensures { IsTrue result ↔ GivesItsKind op.now }
{
    are_same(result_kind(op.result), gives_of(op.code))
}

fn is_size(table: &Table, size: u32, vtable: bool) -> bool
    ensures { IsTrue result ↔ IsSomeAnd (slice_get table.now.sizes size) (HasVtable vtable) }
{
    match table.sizes.items().get(size as usize) {
        None => false,
        Some(row) => row.vtable.is_some() == vtable,
    }
}

fn is_call(table: &Table, call: u32, kind: Option<Kind>) -> bool
    ensures { IsTrue result ↔ IsSomeAnd (slice_get table.now.calls call) (λ (row : CallRow). row.result ≡ kind) }
{
    match table.calls.items().get(call as usize) {
        None => false,
        Some(row) => are_same(row.result, kind),
    }
}

fn fits_descr(table: &Table, cites: Cites, descr: Descr) -> bool
    ensures { IsTrue result ↔ FitsDescr table.now cites descr }
{
    match (cites, descr) {
        (Cites::Nothing, Descr::No) => true,
        (Cites::Anything, _) => true,
        (Cites::Field(kind), Descr::Field(field)) => is_asked(kind, field_kind(table, field)),
        (Cites::Array(kind), Descr::Array(array)) => is_asked(kind, item_kind(table, array)),
        (Cites::Size(vtable), Descr::Size(size)) => is_size(table, size, vtable),
        (Cites::Call(kind), Descr::Call(call)) => is_call(table, call, kind),
        (Cites::Target, Descr::Target(_)) => true,
        (Cites::Target, Descr::No) => true,
        _ => false,
    }
}

/// Rule 6: the descr is of the class and kind that the operation wants.
pub(crate) fn cites_its_descr(table: &Table, op: &Op) -> bool
    ensures { IsTrue result ↔ CitesItsDescr table.now op.now }
{
    fits_descr(table, cites_of(op.code), op.descr)
}
