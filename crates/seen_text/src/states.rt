//! Writes the state of an activation.
ghost use Rattle.std.specs.Prelude.{◌≡◌, ◌++◌, length, OnOk};
ghost use Rattle.seen_text.specs.States.{last_text, guard_text, frame_line, frame_lines, exit_text, finish_text, misfit_text, full_text, wrong_text, state_text};

use crate::listed::parted;
use crate::puts::{put_number, put_told};
use crate::seen::Seen;
use crate::values::{put_value, put_values};
use heap_shape::Ref;
use std::alloc::AllocError;
use trace_meaning::RecFrame;
use trace_ops::TraceSet;
use trace_text::trace_name;

fn put_last(out: &mut Vec<u8>, refs: &[Ref]) -> Result<(), AllocError>
    ensures { OnOk result (out.new.items ≡ out.old.items ++ last_text refs.now) }
{
    match refs {
        [] => out.extend_from_slice(b"none"),
        [value, ..] => put_value(out, *value),
    }
}

#[tactic(auto, unfolding(crate::specs::States::finish_text))]
fn put_finish(out: &mut Vec<u8>, refs: &[Ref]) -> Result<(), AllocError>
    ensures { OnOk result (out.new.items ≡ out.old.items ++ finish_text refs.now) }
{
    out.extend_from_slice(b" finished ")?;
    put_last(out, refs)?;
    out.push(b'\n')?;
    Ok(())
}

#[tactic(auto, unfolding(crate::specs::States::guard_text))]
fn put_guard(out: &mut Vec<u8>, name: &[u8], guard: u32) -> Result<(), AllocError>
    ensures { OnOk result (out.new.items ≡ out.old.items ++ guard_text name.now guard) }
{
    out.extend_from_slice(b" exited ")?;
    out.extend_from_slice(name)?;
    out.push(b'/')?;
    put_number(out, u64::from(guard))?;
    out.push(b'\n')?;
    Ok(())
}

#[tactic(auto, unfolding(crate::specs::States::frame_line))]
fn put_frame(out: &mut Vec<u8>, frame: &RecFrame, values: &[Ref]) -> Result<(), AllocError>
    ensures { OnOk result (out.new.items ≡ out.old.items ++ frame_line frame.now values.now) }
{
    out.extend_from_slice(b"frame ")?;
    out.extend_from_slice(frame.name.bytes())?;
    out.push(b':')?;
    put_number(out, u64::from(frame.pc))?;
    out.extend_from_slice(b" [")?;
    put_values(out, values)?;
    out.extend_from_slice(b"]\n")
}

fn put_frames(out: &mut Vec<u8>, frames: &[RecFrame], refs: &[Ref]) -> Result<(), AllocError>
    ensures { OnOk result (out.new.items ≡ out.old.items ++ frame_lines frames.now refs.now) }
{
    let mut rest = refs;
    for k in 0..frames.len() {
        let frame = &frames[k];
        let (values, behind) = parted(rest, frame.slots.items().len());
        put_frame(out, frame, values)?;
        rest = behind;
    }
    Ok(())
}

#[tactic(auto, unfolding(crate::specs::States::exit_text))]
fn put_exit(
    out: &mut Vec<u8>,
    name: &[u8],
    guard: u32,
    frames: &[RecFrame],
    refs: &[Ref],
) -> Result<(), AllocError>
    ensures { OnOk result (out.new.items ≡ out.old.items ++ exit_text name.now guard frames.now refs.now) }
{
    put_guard(out, name, guard)?;
    put_frames(out, frames, refs)
}

#[tactic(auto, unfolding(crate::specs::States::misfit_text))]
fn put_misfit(out: &mut Vec<u8>, call: u32) -> Result<(), AllocError>
    ensures { OnOk result (out.new.items ≡ out.old.items ++ misfit_text call) }
{
    out.extend_from_slice(b" misfit ")?;
    put_number(out, u64::from(call))?;
    out.push(b'\n')?;
    Ok(())
}

#[tactic(auto, unfolding(crate::specs::States::full_text))]
fn put_full(out: &mut Vec<u8>, asked: u64, left: u64) -> Result<(), AllocError>
    ensures { OnOk result (out.new.items ≡ out.old.items ++ full_text asked left) }
{
    put_told(out, b" full asked ", asked)?;
    put_told(out, b" left ", left)?;
    out.push(b'\n')?;
    Ok(())
}

#[tactic(auto, unfolding(crate::specs::States::wrong_text))]
fn put_wrong(out: &mut Vec<u8>, at: Option<u64>) -> Result<(), AllocError>
    ensures { OnOk result (out.new.items ≡ out.old.items ++ wrong_text at) }
{
    match at {
        None => out.extend_from_slice(b" wrong\n"),
        Some(at) => {
            out.extend_from_slice(b" wrong ")?;
            put_number(out, at)?;
            out.push(b'\n')?;
            Ok(())
        }
    }
}

/// Adds a state behind its activation's name, and the frames of an exit, outermost first. `refs` has the finish value, or
/// the slots of the frames, outermost first.
#[tactic(auto, unfolding(crate::specs::States::state_text))]
pub fn put_state(
    out: &mut Vec<u8>,
    set: &TraceSet,
    seen: Seen,
    frames: &[RecFrame],
    refs: &[Ref],
) -> Result<(), AllocError>
    ensures { OnOk result (out.new.items ≡ out.old.items ++ state_text set.now seen frames.now refs.now) }
{
    match seen {
        Seen::Going => out.extend_from_slice(b" going\n"),
        Seen::Finished(_value) => put_finish(out, refs),
        Seen::Exited { trace, guard } => {
            put_exit(out, trace_name(set, trace), guard, frames, refs)
        }
        Seen::Waits => out.extend_from_slice(b" waits\n"),
        Seen::Misfit { call } => put_misfit(out, call),
        Seen::Full { asked, left } => put_full(out, asked, left),
        Seen::Wrong(at) => put_wrong(out, at),
    }
}
