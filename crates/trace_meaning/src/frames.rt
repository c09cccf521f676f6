//! The frames of a guard that fails.

ghost use Rattle.std.specs.Prelude.{◌≡◌, ◌++◌, length, take, drop, IfOk};
ghost use Rattle.std.specs.Option.{option_copied};
ghost use Rattle.trace_meaning.specs.Recorded.{slots_of as slots_meant};
ghost use Rattle.trace_meaning.specs.Observed.{frames_with as frames_meant, guard_in as guard_meant};

use crate::{RecFrame, Value};
use std::alloc::{AllocError, Global};
use trace_ops::{Arg, Frame, List, Op, is_guard};

/// The slots of frames, one after another.
pub fn slots_of(alloc: Global, frames: &[Frame]) -> Result<Vec<Arg>, AllocError>
    ensures { IfOk result (λ r. r.items ≡ slots_meant frames.now) }
{
    let mut slots = Vec::new(alloc);
    for frame in frames {
        slots.extend_from_slice(frame.slots.items())?;
    }
    Ok(slots)
}

// The first n values, or all, and the rest.
#[tactic(auto, using(crate::proofs::Gathering::split_at_min))]
fn split(values: &[Value], n: usize) -> (&[Value], &[Value])
    ensures front { result.0.now ≡ take n values.now }
    ensures back { result.1.now ≡ drop n values.now }
{
    values.split_at(n.min(values.len()))
}

fn frame_with(alloc: Global, frame: &Frame, values: &[Value]) -> Result<RecFrame, AllocError>
    ensures { IfOk result (λ r. r ≡ record { name = frame.now.name; pc = frame.now.pc; slots = values.now }) }
{
    let slots = Vec::from_slice(alloc, values)?;
    Ok(RecFrame {
        name: frame.name,
        pc: frame.pc,
        slots: List::of(slots),
    })
}

/// The frames, each with as many of the values as it has slots.
pub fn frames_with(
    alloc: Global,
    frames: &[Frame],
    values: &[Value],
) -> Result<Vec<RecFrame>, AllocError>
    ensures { IfOk result (λ r. r.items ≡ frames_meant frames.now values.now) }
{
    let mut out = Vec::new(alloc);
    let mut rest = values;
    for frame in frames {
        let parts = split(rest, frame.slots.items().len());
        out.push(frame_with(alloc, frame, parts.0)?)?;
        rest = parts.1;
    }
    Ok(out)
}

/// The guard of this number, counted from 0.
pub fn guard_in(ops: &[Op], n: usize) -> Option<&Op>
    ensures { option_copied result ≡ guard_meant ops.now n }
{
    let mut left = n;
    for op in ops {
        if is_guard(op.code) {
            if left == 0 {
                return Some(op);
            }
            left -= 1;
        }
    }
    None
}
