//! The boxes that a snapshot needs.
ghost use Rattle.std.specs.Prelude.{◌≡◌, IfOk, OnOk, ◌++◌, List};
ghost use Rattle.std.specs.List.{flat_map};
ghost use Rattle.trace_ops.specs.Parts.{with_boxes, parts_of, boxes_of_arg, boxes_of_val, boxes_of_frame, boxes_of_shape, boxes_of_pending};

use crate::{Arg, BoxId, OptFrame, Pending, Shape, Snapshot, Val};
use indexmap::IndexSet;
use std::alloc::{AllocError, Global};

#[tactic(auto, unfolding(crate::specs::Parts::with_boxes))]
fn note_arg(seen: &mut IndexSet<BoxId>, arg: Arg) -> Result<(), AllocError>
    ensures { OnOk result (seen.new.keys ≡ with_boxes seen.old.keys (boxes_of_arg arg)) }
{
    match arg {
        Arg::Of(of) => {
            seen.insert(of)?;
            Ok(())
        }
        Arg::Const(_) => Ok(()),
        Arg::Null => Ok(()),
        Arg::Class(_) => Ok(()),
        Arg::Func(_) => Ok(()),
        Arg::Ptr(_) => Ok(()),
    }
}

#[tactic(auto, unfolding(crate::specs::Parts::with_boxes))]
fn note_val(seen: &mut IndexSet<BoxId>, val: Val) -> Result<(), AllocError>
    ensures { OnOk result (seen.new.keys ≡ with_boxes seen.old.keys (boxes_of_val val)) }
{
    match val {
        Val::Known(arg) => note_arg(seen, arg),
        Val::Virtual(_) => Ok(()),
    }
}

#[tactic(auto, using(crate::proofs::WithBoxes::append))]
fn note_vals(seen: &mut IndexSet<BoxId>, vals: &[Val]) -> Result<(), AllocError>
    ensures { OnOk result (seen.new.keys ≡ with_boxes seen.old.keys (flat_map boxes_of_val vals.now)) }
{
    for val in vals {
        note_val(seen, *val)?;
    }
    Ok(())
}

#[tactic(auto, using(crate::proofs::WithBoxes::append))]
fn note_frames(seen: &mut IndexSet<BoxId>, frames: &[OptFrame]) -> Result<(), AllocError>
    ensures { OnOk result (seen.new.keys ≡ with_boxes seen.old.keys (flat_map boxes_of_frame frames.now)) }
{
    for frame in frames {
        note_vals(seen, frame.slots.items())?;
    }
    Ok(())
}

#[tactic(auto, using(crate::proofs::WithBoxes::append))]
fn note_shapes(seen: &mut IndexSet<BoxId>, shapes: &[Shape]) -> Result<(), AllocError>
    ensures { OnOk result (seen.new.keys ≡ with_boxes seen.old.keys (flat_map boxes_of_shape shapes.now)) }
{
    for shape in shapes {
        note_vals(seen, shape.parts.items())?;
    }
    Ok(())
}

#[tactic(auto, using(crate::proofs::WithBoxes::append))]
fn note_store(seen: &mut IndexSet<BoxId>, store: Pending) -> Result<(), AllocError>
    ensures { OnOk result (seen.new.keys ≡ with_boxes seen.old.keys (boxes_of_pending store)) }
{
    note_arg(seen, store.base)?;
    note_val(seen, store.value)
}

#[tactic(auto, using(crate::proofs::WithBoxes::append))]
fn note_stores(seen: &mut IndexSet<BoxId>, stores: &[Pending]) -> Result<(), AllocError>
    ensures { OnOk result (seen.new.keys ≡ with_boxes seen.old.keys (flat_map boxes_of_pending stores.now)) }
{
    for store in stores {
        note_store(seen, *store)?;
    }
    Ok(())
}

/// Each box that a snapshot needs, once, where it is met first: frames are gone through before shapes, and shapes before
/// pending stores.
#[tactic(auto, using(crate::proofs::WithBoxes::append))]
pub fn parts(alloc: Global, snap: &Snapshot) -> Result<Vec<BoxId>, AllocError>
    ensures { IfOk result (λ boxes. boxes.items ≡ parts_of snap.now) }
{
    let mut seen = IndexSet::new(alloc);
    note_frames(&mut seen, snap.frames.items())?;
    note_shapes(&mut seen, snap.shapes.items())?;
    note_stores(&mut seen, snap.pending.items())?;
    seen.iter().copied().collect(alloc)
}
