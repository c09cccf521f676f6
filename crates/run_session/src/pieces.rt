// What pieces say of an exit.

ghost use Rattle.std.specs.Prelude.{◌≡◌};
ghost use Rattle.std.specs.Option.{option_copied};
ghost use Rattle.opt_meaning.specs.Pieces.{piece_at as piece_meant, ops_at, all_pieces, last_of};
ghost use Rattle.opt_meaning.specs.Rebuilding.{snapshot_of as snapshot_meant, snapshot_in as snapshot_found};
ghost use Rattle.session_host.specs.Showing.{finish_of as finish_meant};

use trace_ops::{Arg, OptOp, OptTrace, Piece, PieceId, Snapshot};

// The first piece of this name.
fn piece_at(pieces: &[Piece], id: PieceId) -> Option<&Piece>
    ensures { option_copied result ≡ piece_meant pieces.now id }
{
    for piece in pieces {
        if id == piece.id {
            return Some(piece);
        }
    }
    None
}

// The first one among the pieces of several traces.
fn piece_among(opt: &[OptTrace], id: PieceId) -> Option<&Piece>
    ensures { option_copied result ≡ piece_meant (all_pieces opt.now) id }
{
    for one in opt {
        if let Some(piece) = piece_at(one.pieces.items(), id) {
            return Some(piece);
        }
    }
    None
}

/// The operations of a piece.
pub(crate) fn ops_of_piece(opt: &[OptTrace], id: PieceId) -> &[OptOp]
    ensures { result.now ≡ ops_at (all_pieces opt.now) id }
{
    match piece_among(opt, id) {
        None => &[],
        Some(piece) => piece.ops.items(),
    }
}

/// What a piece finishes with, if its last operation does.
pub(crate) fn finish_of(ops: &[OptOp]) -> Option<Option<Arg>>
    ensures { result ≡ finish_meant (last_of ops.now) }
{
    match ops.last() {
        Some(OptOp::Finish { value }) => Some(*value),
        _ => None,
    }
}

// The snapshot of guard n, if the operation stands for it.
fn snapshot_of(op: &OptOp, n: u32) -> Option<&Snapshot>
    ensures { option_copied result ≡ snapshot_meant n op.now }
{
    match op {
        OptOp::Guard { guard, snap, .. } => { if *guard == n { Some(snap) } else { None } }
        OptOp::Exit { guard, snap } => { if *guard == n { Some(snap) } else { None } }
        _ => None,
    }
}

/// The snapshot of guard n of a piece.
pub(crate) fn snapshot_in(ops: &[OptOp], n: u32) -> Option<&Snapshot>
    ensures { option_copied result ≡ snapshot_found ops.now n }
{
    for op in ops {
        if let Some(snap) = snapshot_of(op, n) {
            return Some(snap);
        }
    }
    None
}
