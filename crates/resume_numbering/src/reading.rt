//! The snapshot for which a table stands at a guard.
ghost use Rattle.std.specs.Prelude.{◌≡◌, ℕ, ◌+◌, ◌*◌, ◌<◌, ◌^◌, List, Some, None, length, reverse, slice_get, All, IfOk};
ghost use Rattle.std.specs.List.{AllZip};
ghost use Rattle.resume_numbering.specs.Tags.{Reads, small_index, IsBoxTagBelow, IsConstBelow, IsNoVirtual};
ghost use Rattle.resume_numbering.specs.Values.{IsOfKind};
ghost use Rattle.resume_numbering.specs.Standing.{HasLowerParents, FramesStand, IsFrame, VirtualStands, PendingStands, StandsFor};
ghost use Rattle.resume_numbering.specs.Leading.{LeadsOnlyTo};
ghost use Rattle.resume_numbering.specs.Lawful.{IsConstant, IsLawful};
ghost use Rattle.resume_numbering.specs.Placed.{small_integer as small_with};
ghost use Rattle.resume_numbering.specs.Reading.{IsRowOf, HasRow, HasKinds, StandsAt, AreOfKind, IsReadable, AreReadable, place_of, KindsOfFrame, KindsOfShape, KindsOfStore, RowIsReadable};
ghost use Rattle.resume_numbering.specs.declared.rows.FrameRow.{FrameRow};
ghost use Rattle.trace_ops.specs.declared.piece.Snapshot.{Snapshot};
ghost use Rattle.trace_ops.specs.declared.piece.Val.TheVariants.{Known};

use crate::{FrameRow, GuardRow, PendingRow, ResumeTable, VirtualRow};
use std::alloc::{AllocError, Global};
use trace_ops::{Arg, BoxId, Kind, List, OptFrame, Pending, Shape, Snapshot, Val, Word};

// The integer with this index modulo 2^30.
pub(crate) fn small_integer(index: u32) -> Word
    requires { index < 1073741824 }
    ensures index { small_index result ≡ Some index }
    ensures value { result ≡ small_with index }
{
    if index < 536_870_912 {
        Word::from(index)
    } else {
        Word::from(index) - 1_073_741_824
    }
}

fn read_box(kinds: &[Kind], number: u32) -> BoxId
    requires { number < length kinds.now }
    ensures number { result.number ≡ number }
    ensures kind { slice_get kinds.now number ≡ Some result.kind }
{
    BoxId {
        kind: kinds[number as usize],
        number,
    }
}

fn read_const(consts: &[Arg], index: u32) -> Arg
    requires { index < length consts.now }
    ensures { slice_get consts.now index ≡ Some result }
{
    consts[index as usize]
}

// The value of a tagged number.
fn read_value(consts: &[Arg], kinds: &[Kind], number: u32) -> Val
    requires readable { IsReadable (length consts.now) (length kinds.now) number }
    requires constants { All IsConstant consts.now }
    ensures reads { Reads consts.now number result }
    ensures kind { IsOfKind kinds.now result }
{
    let index = number / 4;
    let tag = number % 4;
    if tag == 0 {
        Val::Known(Arg::Of(read_box(kinds, index)))
    } else if tag == 1 {
        Val::Known(Arg::Const(small_integer(index)))
    } else if tag == 2 {
        Val::Known(read_const(consts, index))
    } else {
        Val::Virtual(index)
    }
}

// The argument of a tagged number that isn't a virtual's.
fn read_base(consts: &[Arg], kinds: &[Kind], number: u32) -> Arg
    requires readable { IsReadable (length consts.now) (length kinds.now) number }
    requires constants { All IsConstant consts.now }
    requires base { IsNoVirtual number }
    ensures reads { Reads consts.now number (Known result) }
    ensures kind { IsOfKind kinds.now (Known result) }
{
    match read_value(consts, kinds, number) {
        Val::Known(arg) => arg,
        Val::Virtual(_) => unreachable!(),
    }
}

// The values of tagged numbers.
fn read_values(
    alloc: Global,
    consts: &[Arg],
    kinds: &[Kind],
    numbers: &[u32],
) -> Result<Vec<Val>, AllocError>
    requires readable { AreReadable (length consts.now) (length kinds.now) numbers.now }
    requires constants { All IsConstant consts.now }
    ensures reads { IfOk result (λ vs. AllZip (Reads consts.now) numbers.now vs.items) }
    ensures kinds { IfOk result (λ vs. All (IsOfKind kinds.now) vs.items) }
{
    let mut vals = Vec::new(alloc);
    for number in numbers {
        vals.push(read_value(consts, kinds, *number))?;
    }
    Ok(vals)
}

fn read_frame(
    alloc: Global,
    consts: &[Arg],
    kinds: &[Kind],
    row: &FrameRow,
) -> Result<OptFrame, AllocError>
    requires readable { AreReadable (length consts.now) (length kinds.now) row.now.slots }
    requires constants { All IsConstant consts.now }
    ensures reads { IfOk result (λ f. IsFrame consts.now row.now row.now.parent f) }
    ensures kinds { IfOk result (λ f. KindsOfFrame kinds.now f) }
{
    let slots = read_values(alloc, consts, kinds, row.slots.items())?;
    Ok(OptFrame {
        name: row.name,
        pc: row.pc,
        slots: List::of(slots),
    })
}

// The frames from a row on by parents, outermost first.
fn read_frames(
    alloc: Global,
    table: &ResumeTable,
    kinds: &[Kind],
    row: &GuardRow,
) -> Result<Vec<OptFrame>, AllocError>
    requires lawful { IsLawful table.now }
    requires readable { RowIsReadable table.now (length kinds.now) row.now }
    requires frame { row.now.frame < length table.now.frames }
    ensures reads { IfOk result (λ fs. FramesStand table.now.consts table.now.frames (Some row.now.frame) (reverse fs.items)) }
    ensures kinds { IfOk result (λ fs. All (KindsOfFrame kinds.now) fs.items) }
{
    let rows = table.frames.items();
    let consts = table.consts.items();
    let mut frames = Vec::new(alloc);
    let mut at = Some(row.frame);
    while let Some(k) = at {
        let row = &rows[k as usize];
        frames.push(read_frame(alloc, consts, kinds, row)?)?;
        at = row.parent;
    }
    frames.reverse();
    Ok(frames)
}

fn read_shape(
    alloc: Global,
    consts: &[Arg],
    kinds: &[Kind],
    row: &VirtualRow,
) -> Result<Shape, AllocError>
    requires readable { AreReadable (length consts.now) (length kinds.now) row.now.parts }
    requires constants { All IsConstant consts.now }
    ensures of { IfOk result (λ s. row.now.of ≡ s.of) }
    ensures reads { IfOk result (λ s. AllZip (Reads consts.now) row.now.parts s.parts) }
    ensures kinds { IfOk result (λ s. KindsOfShape kinds.now s) }
{
    let parts = read_values(alloc, consts, kinds, row.parts.items())?;
    Ok(Shape {
        of: row.of,
        parts: List::of(parts),
    })
}

// The virtual objects of a guard.
fn read_shapes(
    alloc: Global,
    table: &ResumeTable,
    kinds: &[Kind],
    row: &GuardRow,
) -> Result<Vec<Shape>, AllocError>
    requires lawful { IsLawful table.now }
    requires readable { RowIsReadable table.now (length kinds.now) row.now }
    requires virtuals { All (λ k. k < length table.now.virtuals) row.now.virtuals }
    ensures reads { IfOk result (λ ss. AllZip (VirtualStands table.now.consts table.now.virtuals) row.now.virtuals ss.items) }
    ensures kinds { IfOk result (λ ss. All (KindsOfShape kinds.now) ss.items) }
{
    let rows = table.virtuals.items();
    let consts = table.consts.items();
    let numbers = row.virtuals.items();
    let mut shapes = Vec::new(alloc);
    for k in numbers {
        shapes.push(read_shape(alloc, consts, kinds, &rows[*k as usize])?)?;
    }
    Ok(shapes)
}

fn read_store(consts: &[Arg], kinds: &[Kind], row: PendingRow) -> Pending
    requires base { IsReadable (length consts.now) (length kinds.now) row.base }
    requires value { IsReadable (length consts.now) (length kinds.now) row.value }
    requires constants { All IsConstant consts.now }
    requires base_known { IsNoVirtual row.base }
    ensures reads { PendingStands consts.now row result }
    ensures kinds { KindsOfStore kinds.now result }
{
    Pending {
        base: read_base(consts, kinds, row.base),
        spot: row.spot,
        value: read_value(consts, kinds, row.value),
    }
}

// The pending stores of a guard.
fn read_stores(
    alloc: Global,
    table: &ResumeTable,
    kinds: &[Kind],
    row: &GuardRow,
) -> Result<Vec<Pending>, AllocError>
    requires lawful { IsLawful table.now }
    requires readable { RowIsReadable table.now (length kinds.now) row.now }
    requires bases { All (λ (p : PendingRow). IsNoVirtual p.base) row.now.pending }
    ensures reads { IfOk result (λ ps. AllZip (PendingStands table.now.consts) row.now.pending ps.items) }
    ensures kinds { IfOk result (λ ps. All (KindsOfStore kinds.now) ps.items) }
{
    let consts = table.consts.items();
    let rows = row.pending.items();
    let mut stores = Vec::new(alloc);
    for row in rows {
        stores.push(read_store(consts, kinds, *row))?;
    }
    Ok(stores)
}

// The place of the row of a guard.
pub(crate) fn place_of(rows: &[GuardRow], guard: u32) -> Option<usize>
    ensures { result ≡ place_of guard rows.now }
{
    rows.iter().position(|row| row.guard == guard)
}

// The snapshot for which a row stands.
fn read_row(
    alloc: Global,
    table: &ResumeTable,
    kinds: &[Kind],
    row: &GuardRow,
) -> Result<Snapshot, AllocError>
    requires lawful { IsLawful table.now }
    requires readable { RowIsReadable table.now (length kinds.now) row.now }
    requires frame { row.now.frame < length table.now.frames }
    requires virtuals { All (λ k. k < length table.now.virtuals) row.now.virtuals }
    requires bases { All (λ (p : PendingRow). IsNoVirtual p.base) row.now.pending }
    ensures stands { IfOk result (λ snap. StandsFor table.now.consts table.now.frames table.now.virtuals row.now snap) }
    ensures kinds { IfOk result (λ snap. AreOfKind kinds.now snap) }
{
    let frames = read_frames(alloc, table, kinds, row)?;
    let shapes = read_shapes(alloc, table, kinds, row)?;
    let pending = read_stores(alloc, table, kinds, row)?;
    Ok(Snapshot {
        frames: List::of(frames),
        shapes: List::of(shapes),
        pending: List::of(pending),
    })
}

/// The one snapshot for which a lawful table stands at a guard that has a row, box `k` being of the kind `kinds[k]`.
pub fn frames_of(
    alloc: Global,
    table: &ResumeTable,
    guard: u32,
    kinds: &[Kind],
) -> Result<Snapshot, AllocError>
    requires lawful { IsLawful table.now }
    requires row { HasRow table.now guard }
    requires kinds { HasKinds table.now guard kinds.now }
    ensures stands { IfOk result (λ snap. StandsAt table.now guard snap) }
    ensures kinds { IfOk result (λ snap. AreOfKind kinds.now snap) }
    ensures only { IfOk result (λ snap. (other : Snapshot) → StandsAt table.now guard other → AreOfKind kinds.now other → other ≡ snap) }
{
    let rows = table.guards.items();
    let Some(k) = place_of(rows, guard) else {
        unreachable!()
    };
    read_row(alloc, table, kinds, &rows[k])
}
