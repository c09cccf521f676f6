//! Kinds of arguments.
ghost use Rattle.std.specs.Prelude.{◌≡◌, ◌↔◌, IsTrue, IsSome, Some, None};
ghost use Rattle.trace_ops.specs.Kinds.{kind_of_arg, kind_of_field, kind_of_item};
ghost use Rattle.trace_ops.specs.Fits.{IsOfKind, IsAsked};

use trace_ops::{Arg, Kind, Table};

// The kind of a value; a class and a function have none.
pub(crate) fn kind_of(a: Arg) -> Option<Kind>
    ensures { result ≡ kind_of_arg a }
{
    match a {
        Arg::Of(of) => Some(of.kind),
        Arg::Const(_) => Some(Kind::Int),
        Arg::Null => Some(Kind::Ref),
        Arg::Class(_) => None,
        Arg::Func(_) => None,
        Arg::Ptr(_) => Some(Kind::Ref),
    }
}

pub(crate) fn are_same(a: Option<Kind>, b: Option<Kind>) -> bool
    ensures { IsTrue result ↔ (a ≡ b) }
{
    a == b
}

pub(crate) fn is_of(kind: Kind, a: Arg) -> bool
    ensures { IsTrue result ↔ (kind_of_arg a ≡ Some kind) }
{
    are_same(kind_of(a), Some(kind))
}

pub(crate) fn is_value(a: Arg) -> bool
    ensures { IsTrue result ↔ IsSome (kind_of_arg a) }
{
    kind_of(a).is_some()
}

// The kind that is asked for, where one is.
pub(crate) fn is_asked(kind: Option<Kind>, have: Option<Kind>) -> bool
    ensures { IsTrue result ↔ IsAsked kind have }
{
    match kind {
        None => have.is_some(),
        Some(kind) => are_same(have, Some(kind)),
    }
}

pub(crate) fn field_kind(table: &Table, field: u32) -> Option<Kind>
    ensures { result ≡ kind_of_field table.now field }
{
    match table.fields.items().get(field as usize) {
        None => None,
        Some(row) => Some(row.kind),
    }
}

pub(crate) fn item_kind(table: &Table, array: u32) -> Option<Kind>
    ensures { result ≡ kind_of_item table.now array }
{
    match table.arrays.items().get(array as usize) {
        None => None,
        Some(row) => Some(row.kind),
    }
}
