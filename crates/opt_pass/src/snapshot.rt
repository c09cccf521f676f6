//! What stands at a guard: the snapshot, and the entry of a bridge from there.
ghost use Rattle.std.specs.Prelude.{◌≡◌, [], ◌∷◌, ◌++◌, IfOk, OnOk, map};
ghost use Rattle.trace_ops.specs.declared.trace.Arg.TheVariants.{Of};
ghost use Rattle.opt_meaning.specs.Admits.{slots_of};
ghost use Rattle.opt_meaning.specs.Step.{resume_args};
ghost use Rattle.opt_pass.specs.State.{slot_val, opt_frame, snap_of, jump_frame, entry_at};

use crate::names::{Names, meaning_of};
use std::alloc::{AllocError, Global};
use trace_ops::{Arg, BoxId, Entry, Frame, List, OptFrame, Snapshot, Text, Val, parts};

fn opt_slots(
    alloc: Global,
    names: &Names,
    forward: &Names,
    slots: &[Arg],
) -> Result<List<Val>, AllocError>
    ensures { IfOk result (λ r. r ≡ map (slot_val names.now forward.now) slots.now) }
{
    let mut out = Vec::new(alloc);
    for x in slots {
        out.push(Val::Known(meaning_of(names, forward, *x)))?;
    }
    Ok(List::of(out))
}

fn frame_at(
    alloc: Global,
    names: &Names,
    forward: &Names,
    frame: &Frame,
) -> Result<OptFrame, AllocError>
    ensures { IfOk result (λ r. r ≡ opt_frame names.now forward.now frame.now) }
{
    let slots = opt_slots(alloc, names, forward, frame.slots.items())?;
    Ok(OptFrame {
        name: frame.name,
        pc: frame.pc,
        slots,
    })
}

fn frames_at(
    alloc: Global,
    names: &Names,
    forward: &Names,
    frames: &[Frame],
) -> Result<List<OptFrame>, AllocError>
    ensures { IfOk result (λ r. r ≡ map (opt_frame names.now forward.now) frames.now) }
{
    let mut out = Vec::new(alloc);
    for frame in frames {
        let made = frame_at(alloc, names, forward, frame)?;
        out.push(made)?;
    }
    Ok(List::of(out))
}

fn add_slots(out: &mut Vec<Val>, slots: &[Val]) -> Result<(), AllocError>
    ensures { OnOk result (out.new.items ≡ out.old.items ++ slots.now) }
{
    for x in slots {
        out.push(*x)?;
    }
    Ok(())
}

fn all_slots(alloc: Global, frames: &[OptFrame]) -> Result<List<Val>, AllocError>
    ensures { IfOk result (λ r. r ≡ slots_of frames.now) }
{
    let mut out = Vec::new(alloc);
    for frame in frames {
        add_slots(&mut out, frame.slots.items())?;
    }
    Ok(List::of(out))
}

/// The snapshot of a guard.
pub fn snapshot(
    alloc: Global,
    names: &Names,
    forward: &Names,
    frames: &[Frame],
) -> Result<Snapshot, AllocError>
    ensures { IfOk result (λ r. r ≡ snap_of names.now forward.now frames.now) }
{
    let frames = frames_at(alloc, names, forward, frames)?;
    Ok(Snapshot {
        frames,
        shapes: List::of(Vec::new(alloc)),
        pending: List::of(Vec::new(alloc)),
    })
}

/// What a jump passes, as the one frame of a snapshot.
pub fn passed(
    alloc: Global,
    names: &Names,
    forward: &Names,
    args: &[Arg],
) -> Result<Snapshot, AllocError>
    ensures { IfOk result (λ r. r ≡ snap_of names.now forward.now (jump_frame args.now ∷ [])) }
{
    let slots = opt_slots(alloc, names, forward, args)?;
    let frame = OptFrame {
        name: Text::new(&[]),
        pc: 0,
        slots,
    };
    Ok(Snapshot {
        frames: List::of(vec![in alloc; frame]?),
        shapes: List::of(Vec::new(alloc)),
        pending: List::of(Vec::new(alloc)),
    })
}

fn as_args(alloc: Global, boxes: &[BoxId]) -> Result<List<Arg>, AllocError>
    ensures { IfOk result (λ r. r ≡ map Of boxes.now) }
{
    let mut out = Vec::new(alloc);
    for b in boxes {
        out.push(Arg::Of(*b))?;
    }
    Ok(List::of(out))
}

/// The boxes of a snapshot, as arguments.
pub fn boxes_left(alloc: Global, snap: &Snapshot) -> Result<List<Arg>, AllocError>
    ensures { IfOk result (λ r. r ≡ resume_args snap.now) }
{
    let boxes = parts(alloc, snap)?;
    as_args(alloc, &boxes)
}

/// The entry of a bridge from a snapshot.
pub fn entry(alloc: Global, snap: &Snapshot) -> Result<Entry, AllocError>
    ensures { IfOk result (λ r. r ≡ entry_at snap.now) }
{
    let values = all_slots(alloc, snap.frames.items())?;
    let label = List::of(parts(alloc, snap)?);
    Ok(Entry {
        label,
        values,
        shapes: List::of(Vec::new(alloc)),
        pending: List::of(Vec::new(alloc)),
        facts: List::of(Vec::new(alloc)),
    })
}
