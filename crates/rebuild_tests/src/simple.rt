//! A quick test of resume tables with one guard, which is made before one is rebuilt from.

ghost use Rattle.std.specs.Prelude.{◌≡◌, nat_lt, slice_get, IsTrue};
ghost use Rattle.std.specs.List.{list_all, list_any};
ghost use Rattle.arena_objects.specs.Layout.{same_shape as shapes_same};
ghost use Rattle.resume_numbering.specs.Lawful.{IsLawful};
ghost use Rattle.resume_numbering.specs.Reading.{HasRow};
ghost use Rattle.resume_rebuild.specs.Known.{ShapesAreKnown};
ghost use Rattle.rebuild_tests.specs.Simple.{leads_well as leads, all_lead_well as all_lead, frame_is_simple as frame_simple, virtual_is_simple as virtual_simple, store_is_simple as store_simple, is_constant as constant, guard_is_simple as guard_simple, first_is_simple, first_has, is_simple as simply, names_row as names, is_known as known, all_known as each_known};

use resume_numbering::{FrameRow, GuardRow, PendingRow, ResumeTable, VirtualRow};
use trace_ops::{Arg, ShapeOf, Table};

fn leads_well(consts: usize, virtuals: usize, number: u32) -> bool
    ensures { result ≡ leads consts virtuals number }
{
    let index = (number / 4) as usize;
    if number % 4 == 2 {
        index < consts
    } else if number % 4 == 3 {
        index < virtuals
    } else {
        true
    }
}

fn all_lead_well(consts: usize, virtuals: usize, numbers: &[u32]) -> bool
    ensures { result ≡ all_lead consts virtuals numbers.now }
{
    numbers.iter().all(|t| leads_well(consts, virtuals, *t))
}

fn frame_is_simple(consts: usize, virtuals: usize, row: &FrameRow) -> bool
    ensures { result ≡ frame_simple consts virtuals row.now }
{
    row.parent.is_none() && all_lead_well(consts, virtuals, row.slots.items())
}

fn virtual_is_simple(consts: usize, virtuals: usize, row: &VirtualRow) -> bool
    ensures { result ≡ virtual_simple consts virtuals row.now }
{
    all_lead_well(consts, virtuals, row.parts.items())
}

fn store_is_simple(consts: usize, virtuals: usize, row: &PendingRow) -> bool
    ensures { result ≡ store_simple consts virtuals row.now }
{
    leads_well(consts, virtuals, row.base)
        && leads_well(consts, virtuals, row.value)
        && !(row.base % 4 == 3)
}

fn is_constant(arg: Arg) -> bool
    ensures { result ≡ constant arg }
{
    match arg {
        Arg::Of(_) => false,
        Arg::Class(_) => false,
        Arg::Func(_) => false,
        _ => true,
    }
}

fn frames_are_simple(consts: usize, virtuals: usize, rows: &[FrameRow]) -> bool
    ensures { result ≡ list_all (frame_simple consts virtuals) rows.now }
{
    rows.iter()
        .all(|row| frame_is_simple(consts, virtuals, row))
}

fn virtuals_are_simple(consts: usize, virtuals: usize, rows: &[VirtualRow]) -> bool
    ensures { result ≡ list_all (virtual_simple consts virtuals) rows.now }
{
    rows.iter()
        .all(|row| virtual_is_simple(consts, virtuals, row))
}

fn stores_are_simple(consts: usize, virtuals: usize, rows: &[PendingRow]) -> bool
    ensures { result ≡ list_all (store_simple consts virtuals) rows.now }
{
    rows.iter()
        .all(|row| store_is_simple(consts, virtuals, row))
}

fn are_constants(consts: &[Arg]) -> bool
    ensures { result ≡ list_all constant consts.now }
{
    consts.iter().all(|arg| is_constant(*arg))
}

fn are_rows(virtuals: &[u32], rows: usize) -> bool
    ensures { result ≡ list_all (λ k. nat_lt k rows) virtuals.now }
{
    virtuals.iter().all(|k| (*k as usize) < rows)
}

fn guard_is_simple(table: &ResumeTable, guard: &GuardRow) -> bool
    ensures { result ≡ guard_simple table.now guard.now }
{
    let consts = table.consts.items();
    let virtuals = guard.virtuals.items();
    (guard.frame as usize) < table.frames.items().len()
        && are_rows(virtuals, table.virtuals.items().len())
        && frames_are_simple(consts.len(), virtuals.len(), table.frames.items())
        && virtuals_are_simple(consts.len(), virtuals.len(), table.virtuals.items())
        && stores_are_simple(consts.len(), virtuals.len(), guard.pending.items())
        && are_constants(consts)
}

fn first_simple(table: &ResumeTable) -> bool
    ensures { result ≡ first_is_simple table.now (slice_get table.now.guards 0) }
{
    match table.guards.items().get(0) {
        None => false,
        Some(guard) => guard_is_simple(table, guard),
    }
}

fn is_simple(table: &ResumeTable) -> bool
    ensures { result ≡ simply table.now }
{
    table.guards.items().len() == 1 && first_simple(table)
}

fn same_shape(a: ShapeOf, b: ShapeOf) -> bool
    ensures { result ≡ shapes_same a b }
{
    match a {
        ShapeOf::Size(k) => match b {
            ShapeOf::Size(m) => k == m,
            ShapeOf::Array(_) => false,
        },
        ShapeOf::Array(k) => match b {
            ShapeOf::Size(_) => false,
            ShapeOf::Array(m) => k == m,
        },
    }
}

fn names_row(t: &Table, shape: ShapeOf) -> bool
    ensures { result ≡ names t.now shape }
{
    match shape {
        ShapeOf::Size(k) => (k as usize) < t.sizes.items().len(),
        ShapeOf::Array(k) => (k as usize) < t.arrays.items().len(),
    }
}

fn is_listed(shapes: &[ShapeOf], shape: ShapeOf) -> bool
    ensures { result ≡ list_any (λ x. shapes_same x shape) shapes.now }
{
    shapes.iter().any(|s| same_shape(*s, shape))
}

fn is_known(t: &Table, shape: ShapeOf) -> bool
    ensures { result ≡ known t.now shape }
{
    is_listed(t.shapes.items(), shape) && names_row(t, shape)
}

fn all_known(t: &Table, rows: &[VirtualRow]) -> bool
    ensures { result ≡ each_known t.now rows.now }
{
    rows.iter().all(|row| is_known(t, row.of))
}

/// Whether a table has one guard, of this number, and can be rebuilt from.
pub fn can_rebuild(t: &Table, table: &ResumeTable, guard: u32) -> bool
    ensures lawful { IsTrue result → IsLawful table.now }
    ensures row { IsTrue result → HasRow table.now guard }
    ensures shapes { IsTrue result → ShapesAreKnown t.now table.now guard }
{
    if !is_simple(table) {
        return false;
    }
    if !all_known(t, table.virtuals.items()) {
        return false;
    }
    is_first(table.guards.items(), guard)
}

fn is_first(rows: &[GuardRow], guard: u32) -> bool
    ensures { result ≡ first_has guard (slice_get rows.now 0) }
{
    match rows.get(0) {
        None => false,
        Some(row) => row.guard == guard,
    }
}
