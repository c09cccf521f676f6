//! The constants in the snapshots of pieces are words.
ghost use Rattle.std.specs.List.{All, AllByRecursion};
ghost use Rattle.trace_ops.specs.declared.piece.Piece.{Piece};
ghost use Rattle.trace_ops.specs.declared.piece.Snapshot.{Snapshot};
ghost use Rattle.trace_ops.specs.Constants.{ArgHasWord};
ghost use Rattle.trace_ops.specs.Sound.{constants_in_arg, constants_in, snapshots_in};
ghost use Rattle.opt_meaning.specs.Pieces.{all_pieces};
ghost use Rattle.set_in_image.specs.Snapshots.{ValHasWord, FrameHasWords, ShapeHasWords, StoreHasWords, SnapshotHasWords, OpShowsWords};

use trace_ops::{Arg, OptFrame, OptOp, OptTrace, Pending, Piece, Shape, Snapshot, Val};

// By its type.
fn constant_is_word(arg: Arg)
    ensures { AllByRecursion ArgHasWord (constants_in_arg arg) }
{
    match arg {
        Arg::Const(_word) => {}
        Arg::Of(_) | Arg::Null | Arg::Class(_) | Arg::Func(_) | Arg::Ptr(_) => {}
    }
}

fn value_is_word(value: Val)
    ensures { ValHasWord value }
{
    match value {
        Val::Known(arg) => constant_is_word(arg),
        Val::Virtual(_) => {}
    }
}

fn values_are_words(values: &[Val])
    ensures { AllByRecursion ValHasWord values.now }
{
    for value in values {
        value_is_word(*value);
    }
}

fn frames_have_words(frames: &[OptFrame])
    ensures { AllByRecursion FrameHasWords frames.now }
{
    for frame in frames {
        values_are_words(frame.slots.items());
    }
}

fn shapes_have_words(shapes: &[Shape])
    ensures { AllByRecursion ShapeHasWords shapes.now }
{
    for shape in shapes {
        values_are_words(shape.parts.items());
    }
}

fn store_has_words(store: Pending)
    ensures { StoreHasWords store }
{
    constant_is_word(store.base);
    value_is_word(store.value);
}

fn stores_have_words(stores: &[Pending])
    ensures { AllByRecursion StoreHasWords stores.now }
{
    for store in stores {
        store_has_words(*store);
    }
}

fn snapshot_has_words(snapshot: &Snapshot)
    ensures { SnapshotHasWords snapshot.now }
{
    let frames = snapshot.frames.items();
    let shapes = snapshot.shapes.items();
    let stores = snapshot.pending.items();
    frames_have_words(frames);
    shapes_have_words(shapes);
    stores_have_words(stores);
}

fn operation_shows_words(op: &OptOp)
    ensures { OpShowsWords op.now }
{
    match op {
        OptOp::Guard { snap, .. } => snapshot_has_words(snap),
        OptOp::Exit { snap, .. } => snapshot_has_words(snap),
        OptOp::Plain { .. } | OptOp::Jump { .. } | OptOp::Finish { .. } => {}
    }
}

fn operations_show_words(ops: &[OptOp])
    ensures { AllByRecursion OpShowsWords ops.now }
{
    for op in ops {
        operation_shows_words(op);
    }
}

fn piece_shows_words(piece: &Piece)
    ensures { All SnapshotHasWords (snapshots_in piece.now) }
{
    let ops = piece.ops.items();
    operations_show_words(ops);
}

fn pieces_show_words(pieces: &[Piece])
    ensures { AllByRecursion (λ (p : Piece). All SnapshotHasWords (snapshots_in p)) pieces.now }
{
    for piece in pieces {
        piece_shows_words(piece);
    }
}

/// The constants in the snapshots of all pieces of these traces are words: in the slots of frames, in the parts of shapes and in
/// the stores that wait. It takes as long as there are such, and no memory.
pub fn snapshots_have_words(traces: &[OptTrace])
    ensures { AllByRecursion (λ (p : Piece). All (λ (s : Snapshot). All ArgHasWord (constants_in s)) (snapshots_in p)) (all_pieces traces.now) }
{
    for trace in traces {
        pieces_show_words(trace.pieces.items());
    }
}
