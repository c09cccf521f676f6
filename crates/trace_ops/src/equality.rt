//! What the derived `==` of each type says: that the two values are the same.
ghost use Rattle.std.specs.Prelude.{◌≡◌, ◌↔◌, IsTrue};

use crate::{
    Arg, ArrayRow, BoxId, CallRow, Descr, Entry, Fact, FieldRow, Frame, Half, Initial, Kind, Op,
    OpCode, OptFrame, OptOp, OptTrace, Origin, Pending, Piece, PieceId, PrebuiltRow, Shape,
    ShapeOf, SizeRow, Snapshot, Spot, Table, Text, Trace, TraceSet, Val, What,
};

/// Whether two kinds are the same.
#[tactic(auto, using(crate::proofs::Same::kind_decides))]
pub fn same_kind(a: Kind, b: Kind) -> bool
    ensures { IsTrue result ↔ (a ≡ b) }
{
    a == b
}

/// Whether two boxes are the same.
#[tactic(auto, using(crate::proofs::Same::box_decides))]
pub fn same_box(a: BoxId, b: BoxId) -> bool
    ensures { IsTrue result ↔ (a ≡ b) }
{
    a == b
}

/// Whether two arguments are the same.
#[tactic(auto, using(crate::proofs::Same::arg_decides))]
pub fn same_arg(a: Arg, b: Arg) -> bool
    ensures { IsTrue result ↔ (a ≡ b) }
{
    a == b
}

/// Whether two codes are the same.
#[tactic(auto, using(crate::proofs::Same::code_decides))]
pub fn same_code(a: OpCode, b: OpCode) -> bool
    ensures { IsTrue result ↔ (a ≡ b) }
{
    a == b
}

/// Whether two descrs are the same.
#[tactic(auto, using(crate::proofs::Same::descr_decides))]
pub fn same_descr(a: Descr, b: Descr) -> bool
    ensures { IsTrue result ↔ (a ≡ b) }
{
    a == b
}

/// Whether two texts are the same.
#[tactic(auto, using(crate::proofs::Same::text_decides))]
pub fn same_text(a: Text, b: Text) -> bool
    ensures { IsTrue result ↔ (a ≡ b) }
{
    a == b
}

/// Whether two origins are the same.
#[tactic(auto, using(crate::proofs::Same::origin_decides))]
pub fn same_origin(a: Origin, b: Origin) -> bool
    ensures { IsTrue result ↔ (a ≡ b) }
{
    a == b
}

/// Whether two kinds of object are the same.
#[tactic(auto, using(crate::proofs::Same::shape_of_decides))]
pub fn same_shape_of(a: ShapeOf, b: ShapeOf) -> bool
    ensures { IsTrue result ↔ (a ≡ b) }
{
    a == b
}

/// Whether two rows are the same.
#[tactic(auto, using(crate::proofs::Same::field_row_decides))]
pub fn same_field_row(a: FieldRow, b: FieldRow) -> bool
    ensures { IsTrue result ↔ (a ≡ b) }
{
    a == b
}

/// Whether two rows are the same.
#[tactic(auto, using(crate::proofs::Same::array_row_decides))]
pub fn same_array_row(a: ArrayRow, b: ArrayRow) -> bool
    ensures { IsTrue result ↔ (a ≡ b) }
{
    a == b
}

/// Whether two values are the same.
#[tactic(auto, using(crate::proofs::Same::initial_decides))]
pub fn same_initial(a: Initial, b: Initial) -> bool
    ensures { IsTrue result ↔ (a ≡ b) }
{
    a == b
}

/// Whether two halves are the same.
#[tactic(auto, using(crate::proofs::Same::half_decides))]
pub fn same_half(a: Half, b: Half) -> bool
    ensures { IsTrue result ↔ (a ≡ b) }
{
    a == b
}

/// Whether two names of pieces are the same.
#[tactic(auto, using(crate::proofs::Same::piece_id_decides))]
pub fn same_piece_id(a: PieceId, b: PieceId) -> bool
    ensures { IsTrue result ↔ (a ≡ b) }
{
    a == b
}

/// Whether two values are the same.
#[tactic(auto, using(crate::proofs::Same::val_decides))]
pub fn same_val(a: Val, b: Val) -> bool
    ensures { IsTrue result ↔ (a ≡ b) }
{
    a == b
}

/// Whether two spots are the same.
#[tactic(auto, using(crate::proofs::Same::spot_decides))]
pub fn same_spot(a: Spot, b: Spot) -> bool
    ensures { IsTrue result ↔ (a ≡ b) }
{
    a == b
}

/// Whether two pending stores are the same.
#[tactic(auto, using(crate::proofs::Same::pending_decides))]
pub fn same_pending(a: Pending, b: Pending) -> bool
    ensures { IsTrue result ↔ (a ≡ b) }
{
    a == b
}

/// Whether two names of limits are the same.
#[tactic(auto, using(crate::proofs::Same::what_decides))]
pub fn same_what(a: What, b: What) -> bool
    ensures { IsTrue result ↔ (a ≡ b) }
{
    a == b
}

/// Whether two frames are the same.
#[tactic(auto, using(crate::proofs::Same::frame_decides))]
pub fn same_frame(a: &Frame, b: &Frame) -> bool
    ensures { IsTrue result ↔ (a.now ≡ b.now) }
{
    a == b
}

/// Whether two operations are the same.
#[tactic(auto, using(crate::proofs::Same::op_decides))]
pub fn same_op(a: &Op, b: &Op) -> bool
    ensures { IsTrue result ↔ (a.now ≡ b.now) }
{
    a == b
}

/// Whether two traces are the same.
#[tactic(auto, using(crate::proofs::Same::trace_decides))]
pub fn same_trace(a: &Trace, b: &Trace) -> bool
    ensures { IsTrue result ↔ (a.now ≡ b.now) }
{
    a == b
}

/// Whether two rows are the same.
#[tactic(auto, using(crate::proofs::Same::size_row_decides))]
pub fn same_size_row(a: &SizeRow, b: &SizeRow) -> bool
    ensures { IsTrue result ↔ (a.now ≡ b.now) }
{
    a == b
}

/// Whether two rows are the same.
#[tactic(auto, using(crate::proofs::Same::call_row_decides))]
pub fn same_call_row(a: &CallRow, b: &CallRow) -> bool
    ensures { IsTrue result ↔ (a.now ≡ b.now) }
{
    a == b
}

/// Whether two rows are the same.
#[tactic(auto, using(crate::proofs::Same::prebuilt_row_decides))]
pub fn same_prebuilt_row(a: &PrebuiltRow, b: &PrebuiltRow) -> bool
    ensures { IsTrue result ↔ (a.now ≡ b.now) }
{
    a == b
}

/// Whether two tables are the same.
#[tactic(auto, using(crate::proofs::Same::table_decides))]
pub fn same_table(a: &Table, b: &Table) -> bool
    ensures { IsTrue result ↔ (a.now ≡ b.now) }
{
    a == b
}

/// Whether two sets are the same.
#[tactic(auto, using(crate::proofs::Same::trace_set_decides))]
pub fn same_trace_set(a: &TraceSet, b: &TraceSet) -> bool
    ensures { IsTrue result ↔ (a.now ≡ b.now) }
{
    a == b
}

/// Whether two virtual objects are the same.
#[tactic(auto, using(crate::proofs::Same::shape_decides))]
pub fn same_shape(a: &Shape, b: &Shape) -> bool
    ensures { IsTrue result ↔ (a.now ≡ b.now) }
{
    a == b
}

/// Whether two frames are the same.
#[tactic(auto, using(crate::proofs::Same::opt_frame_decides))]
pub fn same_opt_frame(a: &OptFrame, b: &OptFrame) -> bool
    ensures { IsTrue result ↔ (a.now ≡ b.now) }
{
    a == b
}

/// Whether two snapshots are the same.
#[tactic(auto, using(crate::proofs::Same::snapshot_decides))]
pub fn same_snapshot(a: &Snapshot, b: &Snapshot) -> bool
    ensures { IsTrue result ↔ (a.now ≡ b.now) }
{
    a == b
}

/// Whether two operations are the same.
#[tactic(auto, using(crate::proofs::Same::opt_op_decides))]
pub fn same_opt_op(a: &OptOp, b: &OptOp) -> bool
    ensures { IsTrue result ↔ (a.now ≡ b.now) }
{
    a == b
}

/// Whether two pieces are the same.
#[tactic(auto, using(crate::proofs::Same::piece_decides))]
pub fn same_piece(a: &Piece, b: &Piece) -> bool
    ensures { IsTrue result ↔ (a.now ≡ b.now) }
{
    a == b
}

/// Whether two optimised traces are the same.
#[tactic(auto, using(crate::proofs::Same::opt_trace_decides))]
pub fn same_opt_trace(a: &OptTrace, b: &OptTrace) -> bool
    ensures { IsTrue result ↔ (a.now ≡ b.now) }
{
    a == b
}

/// Whether two facts are the same.
#[tactic(auto, using(crate::proofs::Same::fact_decides))]
pub fn same_fact(a: &Fact, b: &Fact) -> bool
    ensures { IsTrue result ↔ (a.now ≡ b.now) }
{
    a == b
}

/// Whether two entries are the same.
#[tactic(auto, using(crate::proofs::Same::entry_decides))]
pub fn same_entry(a: &Entry, b: &Entry) -> bool
    ensures { IsTrue result ↔ (a.now ≡ b.now) }
{
    a == b
}
