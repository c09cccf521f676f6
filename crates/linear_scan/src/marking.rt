//! The last operation that uses each box.
ghost use Rattle.std.specs.Prelude.{◌≡◌, ℕ, ◌<◌, ◌^◌, Some, length, slice_get};
ghost use Rattle.std.specs.List.{flat_map};
ghost use Rattle.trace_ops.specs.declared.piece.OptOp.{OptOp};
ghost use Rattle.trace_ops.specs.Parts.{boxes_of_arg, boxes_of_val, boxes_of_frame, boxes_of_shape, boxes_of_pending, boxes_of};
ghost use Rattle.trace_ops.specs.Pieces.{used_by};
ghost use Rattle.linear_scan.specs.Living.{HaveNumbersBelow};
ghost use Rattle.linear_scan.specs.Marking.{mark, mark_all};

use trace_ops::{Arg, OptFrame, OptOp, Pending, Shape, Snapshot, Val};

fn mark_arg(tos: &mut [u32], k: u32, arg: Arg)
    requires { HaveNumbersBelow (length tos.old) (boxes_of_arg arg) }
    ensures { tos.new ≡ mark k (boxes_of_arg arg) tos.old }
{
    if let Arg::Of(b) = arg {
        tos[b.number as usize] = k;
    }
}

fn mark_val(tos: &mut [u32], k: u32, val: Val)
    requires { HaveNumbersBelow (length tos.old) (boxes_of_val val) }
    ensures { tos.new ≡ mark k (boxes_of_val val) tos.old }
{
    if let Val::Known(arg) = val {
        mark_arg(tos, k, arg);
    }
}

fn mark_args(tos: &mut [u32], k: u32, args: &[Arg])
    requires { HaveNumbersBelow (length tos.old) (flat_map boxes_of_arg args.now) }
    ensures { tos.new ≡ mark k (flat_map boxes_of_arg args.now) tos.old }
{
    for arg in args {
        mark_arg(tos, k, *arg);
    }
}

fn mark_vals(tos: &mut [u32], k: u32, vals: &[Val])
    requires { HaveNumbersBelow (length tos.old) (flat_map boxes_of_val vals.now) }
    ensures { tos.new ≡ mark k (flat_map boxes_of_val vals.now) tos.old }
{
    for val in vals {
        mark_val(tos, k, *val);
    }
}

fn mark_frames(tos: &mut [u32], k: u32, frames: &[OptFrame])
    requires { HaveNumbersBelow (length tos.old) (flat_map boxes_of_frame frames.now) }
    ensures { tos.new ≡ mark k (flat_map boxes_of_frame frames.now) tos.old }
{
    for frame in frames {
        mark_vals(tos, k, frame.slots.items());
    }
}

fn mark_shapes(tos: &mut [u32], k: u32, shapes: &[Shape])
    requires { HaveNumbersBelow (length tos.old) (flat_map boxes_of_shape shapes.now) }
    ensures { tos.new ≡ mark k (flat_map boxes_of_shape shapes.now) tos.old }
{
    for shape in shapes {
        mark_vals(tos, k, shape.parts.items());
    }
}

fn mark_pending(tos: &mut [u32], k: u32, pending: Pending)
    requires { HaveNumbersBelow (length tos.old) (boxes_of_pending pending) }
    ensures { tos.new ≡ mark k (boxes_of_pending pending) tos.old }
{
    mark_arg(tos, k, pending.base);
    mark_val(tos, k, pending.value);
}

fn mark_stores(tos: &mut [u32], k: u32, stores: &[Pending])
    requires { HaveNumbersBelow (length tos.old) (flat_map boxes_of_pending stores.now) }
    ensures { tos.new ≡ mark k (flat_map boxes_of_pending stores.now) tos.old }
{
    for store in stores {
        mark_pending(tos, k, *store);
    }
}

fn mark_snapshot(tos: &mut [u32], k: u32, snap: &Snapshot)
    requires { HaveNumbersBelow (length tos.old) (boxes_of snap.now) }
    ensures { tos.new ≡ mark k (boxes_of snap.now) tos.old }
{
    mark_frames(tos, k, snap.frames.items());
    mark_shapes(tos, k, snap.shapes.items());
    mark_stores(tos, k, snap.pending.items());
}

// Notes an operation at the boxes that it uses.
fn mark_op(tos: &mut [u32], k: u32, op: &OptOp)
    requires { HaveNumbersBelow (length tos.old) (used_by op.now) }
    ensures { tos.new ≡ mark k (used_by op.now) tos.old }
{
    match op {
        OptOp::Plain { args, .. } => mark_args(tos, k, args.items()),
        OptOp::Guard { args, snap, .. } => {
            mark_args(tos, k, args.items());
            mark_snapshot(tos, k, snap);
        }
        OptOp::Exit { snap, .. } => mark_snapshot(tos, k, snap),
        OptOp::Jump { args, .. } => mark_args(tos, k, args.items()),
        OptOp::Finish { value: Some(arg) } => mark_arg(tos, k, *arg),
        OptOp::Finish { value: None } => {}
    }
}

// Notes each operation at the boxes that it uses.
pub(crate) fn mark_ops(tos: &mut [u32], ops: &[OptOp])
    requires few { length ops.now < 2 ^ 32 }
    requires defined { (k : ℕ) (op : OptOp) → slice_get ops.now k ≡ Some op → HaveNumbersBelow (length tos.old) (used_by op) }
    ensures { tos.new ≡ mark_all 0 ops.now tos.old }
{
    for k in 0..ops.len() {
        mark_op(tos, k as u32, &ops[k]);
    }
}
