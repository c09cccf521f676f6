//! A quick test of pieces that are far below every limit, which tests make before they number a piece.
ghost use Rattle.std.specs.Prelude.{◌≡◌, All, IsTrue};
ghost use Rattle.trace_ops.specs.Sound.{snapshots_in};
ghost use Rattle.resume_numbering.specs.Conditions.{CanNumber};
ghost use Rattle.resume_numbering.specs.Reading.{AreOfKind};
ghost use Rattle.resume_numbering.specs.Fitting.{kind_is, arg_fits, value_fits, all_fit, values_fit, store_fits, lengths_fit, frames_fit, shapes_fit, stores_fit, snapshot_fits, op_fits, ops_fit, fits};

use trace_ops::{Arg, Kind, OptOp, Pending, Piece, Snapshot, Val};

fn kind_is(found: Option<Kind>, kind: Kind) -> bool
    ensures { result ≡ kind_is found kind }
{
    match found {
        Some(Kind::Int) => match kind {
            Kind::Int => true,
            Kind::Ref => false,
        },
        Some(Kind::Ref) => match kind {
            Kind::Int => false,
            Kind::Ref => true,
        },
        None => false,
    }
}

fn arg_fits(kinds: &[Kind], arg: Arg) -> bool
    ensures { result ≡ arg_fits kinds.now arg }
{
    match arg {
        Arg::Of(b) => kind_is(kinds.get(b.number as usize).copied(), b.kind),
        Arg::Const(_) => true,
        Arg::Null => true,
        Arg::Class(_) => false,
        Arg::Func(_) => false,
        Arg::Ptr(_) => true,
    }
}

fn value_fits(kinds: &[Kind], shapes: usize, val: Val) -> bool
    ensures { result ≡ value_fits kinds.now shapes val }
{
    match val {
        Val::Known(arg) => arg_fits(kinds, arg),
        Val::Virtual(k) => (k as usize) < shapes,
    }
}

fn all_fit(kinds: &[Kind], shapes: usize, vals: &[Val]) -> bool
    ensures { result ≡ all_fit kinds.now shapes vals.now }
{
    vals.iter().all(|val| value_fits(kinds, shapes, *val))
}

fn values_fit(kinds: &[Kind], shapes: usize, vals: &[Val]) -> bool
    ensures { result ≡ values_fit kinds.now shapes vals.now }
{
    vals.len() < 64 && all_fit(kinds, shapes, vals)
}

fn store_fits(kinds: &[Kind], shapes: usize, store: Pending) -> bool
    ensures { result ≡ store_fits kinds.now shapes store }
{
    arg_fits(kinds, store.base) && value_fits(kinds, shapes, store.value)
}

fn lengths_fit(snap: &Snapshot) -> bool
    ensures { result ≡ lengths_fit snap.now }
{
    let frames = snap.frames.items().len();
    0 < frames && frames < 64 && snap.shapes.items().len() < 64 && snap.pending.items().len() < 64
}

fn frames_fit(kinds: &[Kind], snap: &Snapshot) -> bool
    ensures { result ≡ frames_fit kinds.now snap.now }
{
    let shapes = snap.shapes.items().len();
    snap.frames
        .items()
        .iter()
        .all(|f| values_fit(kinds, shapes, f.slots.items()))
}

fn shapes_fit(kinds: &[Kind], snap: &Snapshot) -> bool
    ensures { result ≡ shapes_fit kinds.now snap.now }
{
    let shapes = snap.shapes.items().len();
    snap.shapes
        .items()
        .iter()
        .all(|h| values_fit(kinds, shapes, h.parts.items()))
}

fn stores_fit(kinds: &[Kind], snap: &Snapshot) -> bool
    ensures { result ≡ stores_fit kinds.now snap.now }
{
    let shapes = snap.shapes.items().len();
    snap.pending
        .items()
        .iter()
        .all(|store| store_fits(kinds, shapes, *store))
}

fn snapshot_fits(kinds: &[Kind], snap: &Snapshot) -> bool
    ensures { result ≡ snapshot_fits kinds.now snap.now }
{
    lengths_fit(snap)
        && frames_fit(kinds, snap)
        && shapes_fit(kinds, snap)
        && stores_fit(kinds, snap)
}

fn op_fits(kinds: &[Kind], k: usize, op: &OptOp) -> bool
    ensures { result ≡ op_fits kinds.now k op.now }
{
    match op {
        OptOp::Guard { guard, snap, .. } => *guard as usize == k && snapshot_fits(kinds, snap),
        OptOp::Exit { guard, snap } => *guard as usize == k && snapshot_fits(kinds, snap),
        OptOp::Plain { .. } => true,
        OptOp::Jump { .. } => true,
        OptOp::Finish { .. } => true,
    }
}

fn ops_fit(kinds: &[Kind], ops: &[OptOp]) -> bool
    ensures { result ≡ ops_fit kinds.now 0 ops.now }
{
    for k in 0..ops.len() {
        if !op_fits(kinds, k, &ops[k]) {
            return false;
        }
    }
    true
}

fn passes(kinds: &[Kind], piece: &Piece) -> bool
    ensures { result ≡ fits kinds.now piece.now }
{
    kinds.len() < 65_536 && piece.ops.items().len() < 32_769 && ops_fit(kinds, piece.ops.items())
}

/// Whether the piece is small, the guard at place `k` is guard `k`, and each box is of the kind of its number.
pub(crate) fn fits(kinds: &[Kind], piece: &Piece) -> bool
    ensures can { IsTrue result → CanNumber piece.now }
    ensures kinds { IsTrue result → All (AreOfKind kinds.now) (snapshots_in piece.now) }
{
    passes(kinds, piece)
}
