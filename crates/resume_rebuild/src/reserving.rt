//! How much room a rebuild needs.

ghost use Rattle.std.specs.Prelude.{◌≡◌, ◌≤◌, ◌<◌, [], length, All, IfOk};
ghost use Rattle.std.specs.Vec.{vec_len};
ghost use Rattle.resume_numbering.specs.Standing.{HasLowerParents};
ghost use Rattle.resume_numbering.specs.declared.rows.FrameRow.{FrameRow as OneFrame};
ghost use Rattle.resume_numbering.specs.declared.rows.GuardRow.{GuardRow as OneGuard};
ghost use Rattle.resume_rebuild.specs.Room.{HasSpace};
ghost use Rattle.resume_rebuild.specs.Rows.{frames_from};

use resume_numbering::{FrameRow, GuardRow, ResumeTable};
use std::alloc::{AllocError, Global};
use trace_meaning::Value;
use trace_ops::{List, Table};

/// A table without rows.
pub(crate) fn no_table(alloc: Global) -> Table
    ensures shapes { result.shapes ≡ [] }
{
    Table {
        shapes: List::of(Vec::new(alloc)),
        sizes: List::of(Vec::new(alloc)),
        fields: List::of(Vec::new(alloc)),
        arrays: List::of(Vec::new(alloc)),
        calls: List::of(Vec::new(alloc)),
        functions: List::of(Vec::new(alloc)),
        prebuilts: List::of(Vec::new(alloc)),
    }
}

/// The larger one.
pub(crate) fn larger(a: usize, b: usize) -> usize
    ensures first { a ≤ result }
    ensures second { b ≤ result }
{
    if a < b { b } else { a }
}

/// The most virtual objects of a guard.
pub(crate) fn most_virtuals(guards: &[GuardRow]) -> usize
    ensures { All (λ (g : OneGuard). length g.virtuals ≤ result) guards.now }
{
    let mut most = 0usize;
    for g in guards {
        most = larger(most, g.virtuals.items().len());
    }
    most
}

/// The most slots of a frame.
pub(crate) fn widest(rows: &[FrameRow]) -> usize
    ensures { All (λ (row : OneFrame). length row.slots ≤ result) rows.now }
{
    let mut most = 0usize;
    for row in rows {
        most = larger(most, row.slots.items().len());
    }
    most
}

// How many frames there are from a row on by parents.
fn depth_of(rows: &[FrameRow], first: u32) -> usize
    requires lower { HasLowerParents rows.now }
    requires first { first < length rows.now }
    ensures { result ≡ length (frames_from rows.now first) }
{
    let mut count = 0usize;
    let mut at = Some(first);
    while let Some(k) = at {
        count += 1;
        at = rows[k as usize].parent;
    }
    count
}

/// The most frames of a guard.
pub(crate) fn deepest(rows: &[FrameRow], guards: &[GuardRow]) -> usize
    requires lower { HasLowerParents rows.now }
    requires first { All (λ (g : OneGuard). g.frame < length rows.now) guards.now }
    ensures { All (λ (g : OneGuard). length (frames_from rows.now g.frame) ≤ result) guards.now }
{
    let mut most = 0usize;
    for g in guards {
        most = larger(most, depth_of(rows, g.frame));
    }
    most
}

/// So many empty lists with room for so many slots.
pub(crate) fn made_pool(
    alloc: Global,
    count: usize,
    width: usize,
) -> Result<Vec<Vec<Value>>, AllocError>
    ensures count { IfOk result (λ pool. vec_len pool ≡ count) }
    ensures each { IfOk result (λ pool. All (HasSpace width) pool.items) }
{
    let mut pool = Vec::new(alloc);
    for _ in 0..count {
        pool.push(Vec::with_capacity(alloc, width)?)?;
    }
    Ok(pool)
}

// One past the number of a box, or 0.
fn past_box(number: u32) -> usize {
    if number % 4 == 0 {
        (number / 4) as usize + 1
    } else {
        0
    }
}

// One past the greatest number of a box among tagged numbers.
fn past_boxes(numbers: &[u32]) -> usize {
    let mut most = 0usize;
    for number in numbers {
        most = larger(most, past_box(*number));
    }
    most
}

fn past_pending(guard: &GuardRow) -> usize {
    let mut most = 0usize;
    for store in guard.pending.items() {
        most = larger(most, larger(past_box(store.base), past_box(store.value)));
    }
    most
}

/// One past the greatest number of a box in a table.
pub(crate) fn boxes_of(table: &ResumeTable) -> usize {
    let mut most = 0usize;
    for row in table.frames.items() {
        most = larger(most, past_boxes(row.slots.items()));
    }
    for row in table.virtuals.items() {
        most = larger(most, past_boxes(row.parts.items()));
    }
    for guard in table.guards.items() {
        most = larger(most, past_pending(guard));
    }
    most
}
