//! Writes what is seen of an activation.
ghost use Rattle.std.specs.Prelude.{◌≡◌, ◌++◌, OnOk, IfOk};
ghost use Rattle.std.specs.Option.{option_to_list};
ghost use Rattle.std.specs.List.{flat_map};
ghost use Rattle.seen_text.specs.States.{end_text, blocks_text, listed_text, shows_values, last_values, slots_in, seen_text};

use crate::calls::{behind_calls, put_calls};
use crate::cells::put_cells;
use crate::listed::{listed, parted};
use crate::puts::put_count;
use crate::seen::Seen;
use crate::states::put_state;
use heap_shape::{Cell, Ref, roots};
use std::alloc::{AllocError, Global};
use trace_meaning::{CallEvent, RecFrame, Store, Value};
use trace_ops::{Table, TraceSet};

#[tactic(auto, unfolding(crate::specs::States::end_text))]
fn put_end(
    out: &mut Vec<u8>,
    table: &Table,
    calls: &[CallEvent],
    cells: &[Cell],
    refs: &[Ref],
) -> Result<(), AllocError>
    ensures { OnOk result (out.new.items ≡ out.old.items ++ end_text table.now calls.now cells.now refs.now) }
{
    put_calls(out, table, calls, refs)?;
    put_cells(out, table, cells)
}

fn put_blocks(
    out: &mut Vec<u8>,
    table: &Table,
    seen: Seen,
    calls: &[CallEvent],
    cells: &[Cell],
    refs: &[Ref],
) -> Result<(), AllocError>
    ensures { OnOk result (out.new.items ≡ out.old.items ++ blocks_text table.now seen calls.now cells.now refs.now) }
{
    match seen {
        Seen::Going => put_count(out, b"calls ", calls.len()),
        Seen::Finished(_value) => put_end(out, table, calls, cells, refs),
        Seen::Exited { .. } => put_end(out, table, calls, cells, refs),
        Seen::Waits => put_calls(out, table, calls, refs),
        Seen::Misfit { .. } => put_calls(out, table, calls, refs),
        Seen::Full { .. } => Ok(()),
        Seen::Wrong(_at) => Ok(()),
    }
}

#[tactic(auto, unfolding(crate::specs::States::listed_text))]
fn put_listed(
    out: &mut Vec<u8>,
    name: &[u8],
    set: &TraceSet,
    seen: Seen,
    frames: &[RecFrame],
    calls: &[CallEvent],
    cells: &[Cell],
    refs: &[Ref],
) -> Result<(), AllocError>
    ensures { OnOk result (out.new.items ≡ out.old.items ++ listed_text name.now set.now seen frames.now calls.now cells.now refs.now) }
{
    out.extend_from_slice(name)?;
    put_state(out, set, seen, frames, behind_calls(calls, refs))?;
    put_blocks(out, &set.table, seen, calls, cells, refs)
}

fn given(alloc: Global, value: Option<Value>) -> Result<Vec<Value>, AllocError>
    ensures { IfOk result (λ v. v.items ≡ option_to_list value) }
{
    let mut values = Vec::new(alloc);
    if let Some(value) = value {
        values.push(value)?;
    }
    Ok(values)
}

fn slots_in(alloc: Global, frames: &[RecFrame]) -> Result<Vec<Value>, AllocError>
    ensures { IfOk result (λ v. v.items ≡ slots_in frames.now) }
{
    let mut slots = Vec::new(alloc);
    for frame in frames {
        slots.extend_from_slice(frame.slots.items())?;
    }
    Ok(slots)
}

fn last_values(alloc: Global, seen: Seen, frames: &[RecFrame]) -> Result<Vec<Value>, AllocError>
    ensures { IfOk result (λ v. v.items ≡ last_values seen frames.now) }
{
    match seen {
        Seen::Finished(value) => given(alloc, value),
        Seen::Exited { .. } => slots_in(alloc, frames),
        _ => Ok(Vec::new(alloc)),
    }
}

fn shows_values(seen: Seen) -> bool
    ensures { result ≡ shows_values seen }
{
    match seen {
        Seen::Finished(_value) => true,
        Seen::Exited { .. } => true,
        Seen::Waits => true,
        Seen::Misfit { .. } => true,
        _ => false,
    }
}

/// Adds what is seen of an activation of this set: the state line behind its name, the frames of an exit, outermost first,
/// the calls, and at a finish or an exit the cells. Objects have the numbers of their listing from the roots. An activation
/// that goes on shows how many calls there are; one that is full or went wrong has its state alone. `frames` counts at an
/// exit alone.
///
/// # Errors
/// Want of memory, or values to be shown that can't be listed: one of them names no object of the store, or there are 2^32
/// objects.
#[tactic(auto, unfolding(crate::specs::States::seen_text))]
pub fn put_seen(
    out: &mut Vec<u8>,
    name: &[u8],
    set: &TraceSet,
    seen: Seen,
    frames: &[RecFrame],
    calls: &[CallEvent],
    store: &Store,
) -> Result<(), AllocError>
    ensures { OnOk result (out.new.items ≡ out.old.items ++ seen_text name.now set.now seen frames.now calls.now store.now.objects) }
{
    if !shows_values(seen) {
        return put_listed(out, name, set, seen, frames, calls, &[], &[]);
    }
    let alloc = *out.allocator();
    let last = last_values(alloc, seen, frames)?;
    let prebuilts = set.table.prebuilts.items().len();
    let Ok(count) = u32::try_from(prebuilts) else {
        return Err(AllocError);
    };
    let roots = roots(alloc, count, calls, &last)?;
    let (cells, refs) = listed(alloc, store, &roots)?;
    let (_, behind) = parted(&refs, prebuilts);
    put_listed(out, name, set, seen, frames, calls, &cells, behind)
}
