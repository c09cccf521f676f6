//! Whether the arguments of an operation fit it, in number and kinds.
ghost use Rattle.std.specs.Prelude.{◌≡◌, ◌↔◌, IsTrue, IsSome, Some, None, map};
ghost use Rattle.std.specs.List.{All};
ghost use Rattle.std.specs.Option.{IsSomeAnd};
ghost use Rattle.trace_ops.specs.Kinds.{kind_of_arg, NamesClass};
ghost use Rattle.trace_ops.specs.Fits.{IsClass, AreCompared};
ghost use Rattle.trace_ops.specs.Rules.{stored_kind, IsStored, Suits, AreValues, ArePassed, AreCalling, AreTaken, TakesItsArguments};

use crate::kinds::{field_kind, is_of, is_value, item_kind, kind_of};
use trace_ops::{Arg, Cites, Descr, Kind, Op, Table, Takes, Want, cites_of, takes_of};

// The kind that is stored, where the descr is of the class that is wanted.
fn stored_kind(table: &Table, cites: Cites, descr: &Descr) -> Option<Kind>
    ensures { result ≡ stored_kind table.now cites descr.now }
{
    match (cites, descr) {
        (Cites::Field(_), Descr::Field(field)) => field_kind(table, *field),
        (Cites::Array(_), Descr::Array(array)) => item_kind(table, *array),
        _ => None,
    }
}

fn is_stored(kind: Option<Kind>, a: Arg) -> bool
    ensures { IsTrue result ↔ IsStored kind a }
{
    match kind {
        Some(kind) => is_of(kind, a),
        None => is_value(a),
    }
}

fn is_class(table: &Table, a: Arg) -> bool
    ensures { IsTrue result ↔ IsClass table.now a }
{
    match a {
        Arg::Class(size) => match table.sizes.items().get(size as usize) {
            None => false,
            Some(row) => row.vtable.is_some(),
        },
        _ => false,
    }
}

fn suits(table: &Table, cites: Cites, descr: &Descr, want: Want, a: Arg) -> bool
    ensures { IsTrue result ↔ Suits table.now cites descr.now want a }
{
    match want {
        Want::Int => is_of(Kind::Int, a),
        Want::Ref => is_of(Kind::Ref, a),
        Want::Class => is_class(table, a),
        Want::Stored => is_stored(stored_kind(table, cites, descr), a),
    }
}

fn compares(kind: Option<Kind>, b: Arg) -> bool
    ensures { IsTrue result ↔ AreCompared kind b }
{
    match (kind, b) {
        (Some(Kind::Int), Arg::Const(_)) => true,
        (Some(Kind::Ref), Arg::Null) => true,
        (Some(Kind::Ref), Arg::Ptr(_)) => true,
        _ => false,
    }
}

fn are_values(args: &[Arg]) -> bool
    ensures { IsTrue result ↔ All (λ a. IsSome (kind_of_arg a)) args.now }
{
    args.iter().all(|a| is_value(*a))
}

fn are_few_values(args: &[Arg]) -> bool
    ensures { IsTrue result ↔ AreValues args.now }
{
    are_values(args) && args.len() <= 6
}

/// Whether the values have these kinds, one after the other.
pub(crate) fn have_kinds(args: &[Arg], kinds: &[Kind]) -> bool
    ensures { IsTrue result ↔ (map kind_of_arg args.now ≡ map (λ k. Some k) kinds.now) }
{
    match args {
        [] => kinds.is_empty(),
        [a, rest @ ..] => match kinds {
            [] => false,
            [kind, others @ ..] => is_of(*kind, *a) && have_kinds(rest, others),
        },
    }
}

fn are_passed(table: &Table, descr: &Descr, args: &[Arg]) -> bool
    ensures { IsTrue result ↔ ArePassed table.now descr.now args.now }
{
    match descr {
        Descr::Call(call) => match table.calls.items().get(*call as usize) {
            None => false,
            Some(row) => have_kinds(args, row.args.items()),
        },
        _ => are_few_values(args),
    }
}

fn are_calling(table: &Table, descr: &Descr, args: &[Arg]) -> bool
    ensures { IsTrue result ↔ AreCalling table.now descr.now args.now }
{
    match args {
        [Arg::Func(_), rest @ ..] => are_passed(table, descr, rest),
        _ => false,
    }
}

fn are_taken(table: &Table, cites: Cites, descr: &Descr, takes: Takes, args: &[Arg]) -> bool
    ensures { IsTrue result ↔ AreTaken table.now cites descr.now takes args.now }
{
    match takes {
        Takes::Nothing => args.is_empty(),
        Takes::One(u) => match args {
            [a] => suits(table, cites, descr, u, *a),
            _ => false,
        },
        Takes::Two(u, v) => match args {
            [a, b] => suits(table, cites, descr, u, *a) && suits(table, cites, descr, v, *b),
            _ => false,
        },
        Takes::Three(u, v, w) => match args {
            [a, b, c] => {
                suits(table, cites, descr, u, *a)
                    && (suits(table, cites, descr, v, *b) && suits(table, cites, descr, w, *c))
            }
            _ => false,
        },
        Takes::Compared => match args {
            [a, b] => compares(kind_of(*a), *b),
            _ => false,
        },
        Takes::Called => are_calling(table, descr, args),
        Takes::Finished => match args {
            [] => true,
            [a] => is_value(*a),
            _ => false,
        },
        Takes::Passed => true,
    }
}

/// Rule 4: number and kinds of arguments fit the operation.
pub(crate) fn takes_its_arguments(table: &Table, op: &Op) -> bool
    ensures { IsTrue result ↔ TakesItsArguments table.now op.now }
{
    are_taken(
        table,
        cites_of(op.code),
        &op.descr,
        takes_of(op.code),
        op.args.items(),
    )
}
