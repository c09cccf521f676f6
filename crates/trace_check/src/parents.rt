//! Whether a trace stands rightly among the others: its name, its parent, its inputs.
ghost use Rattle.std.specs.Prelude.{◌≡◌, ◌≢◌, ◌↔◌, ◌≤◌, ◌<◌, IsTrue, IfOk, Some, None, Option, ℕ, length, map, slice_get, option_copied};
ghost use Rattle.std.specs.List.{flat_map};
ghost use Rattle.trace_ops.specs.declared.trace.BoxId.{BoxId};
ghost use Rattle.trace_ops.specs.declared.trace.Frame.{Frame};
ghost use Rattle.trace_ops.specs.declared.trace.Trace.{Trace};
ghost use Rattle.trace_ops.specs.Kinds.{kind_of_arg};
ghost use Rattle.trace_ops.specs.Rules.{guard_op, guard_named, HasItsParent, Receives, IsFirstFrom, ReceivesItsSlots, above, IsOrdered};
ghost use Rattle.trace_ops.specs.Weights.{parent_named, parent_at};

use crate::jumps::{fit_inputs, place_of};
use std::alloc::{AllocError, Global};
use trace_ops::{BoxId, Frame, Op, Origin, Text, Trace, TraceSet, is_guard};

// The guard of this number, from 0.
fn guard_op(trace: &Trace, number: u32) -> Option<&Op>
    ensures { option_copied result ≡ guard_op trace.now number }
{
    let mut left = number;
    for op in trace.ops.items() {
        if is_guard(op.code) {
            if left == 0 {
                return Some(op);
            }
            left -= 1;
        }
    }
    None
}

// The guard from which a bridge comes.
fn guard_named<'a>(set: &'a TraceSet, origin: &Origin) -> Option<&'a Op>
    ensures { option_copied result ≡ guard_named set.now origin.now }
{
    match origin {
        Origin::Loop => None,
        Origin::Bridge { parent, guard } => match place_of(parent, set.traces.items()) {
            None => None,
            Some(at) => match set.traces.items().get(at) {
                None => None,
                Some(trace) => guard_op(trace, *guard),
            },
        },
    }
}

/// Whether the parent of a bridge is in the set and has that guard.
pub(crate) fn has_its_parent(set: &TraceSet, trace: &Trace) -> bool
    ensures { IsTrue result ↔ HasItsParent set.now trace.now }
{
    match trace.origin {
        Origin::Loop => true,
        Origin::Bridge { .. } => guard_named(set, &trace.origin).is_some(),
    }
}

// Whether the slots of the frames have the kinds of these boxes, one after the other.
fn fit_frames(frames: &[Frame], inputs: &[BoxId]) -> bool
    ensures { IsTrue result ↔ (map kind_of_arg (flat_map (λ (f : Frame). f.slots) frames.now) ≡ map (λ (b : BoxId). Some b.kind) inputs.now) }
{
    match frames {
        [] => inputs.is_empty(),
        [frame, rest @ ..] => {
            let slots = frame.slots.items();
            if inputs.len() < slots.len() {
                return false;
            }
            let (front, back) = inputs.split_at(slots.len());
            fit_inputs(slots, front) && fit_frames(rest, back)
        }
    }
}

fn receives(set: &TraceSet, trace: &Trace) -> bool
    ensures { IsTrue result ↔ Receives trace.now.inputs (guard_named set.now trace.now.origin) }
{
    match guard_named(set, &trace.origin) {
        None => true,
        Some(op) => fit_frames(op.snapshot.items(), trace.inputs.items()),
    }
}

fn comes_from(trace: &Trace, origin: &Origin) -> bool
    ensures { IsTrue result ↔ (trace.now.origin ≡ origin.now) }
{
    trace.origin == *origin
}

// Whether no trace before this place comes from the same guard.
fn is_first_from(set: &TraceSet, i: usize, origin: &Origin) -> bool
    ensures { IsTrue result ↔ ((j : ℕ) (t : Trace) → j < i → slice_get set.now.traces j ≡ Some t → t.origin ≢ origin.now) }
{
    for j in 0..i {
        if let Some(other) = set.traces.items().get(j) {
            if comes_from(other, origin) {
                return false;
            }
        }
    }
    true
}

/// Whether a bridge takes the slots of its guard, and no earlier bridge names that guard.
pub(crate) fn receives_its_slots(set: &TraceSet, i: usize, trace: &Trace) -> bool
    ensures { IsTrue result ↔ ReceivesItsSlots set.now i trace.now }
{
    match trace.origin {
        Origin::Loop => true,
        Origin::Bridge { .. } => receives(set, trace) && is_first_from(set, i, &trace.origin),
    }
}

fn has_name(trace: &Trace, name: &Text) -> bool
    ensures { IsTrue result ↔ (trace.now.name ≡ name.now) }
{
    trace.name == *name
}

// Whether no trace before this place has the name.
pub(crate) fn is_new_name(set: &TraceSet, i: usize, name: &Text) -> bool
    ensures { IsTrue result ↔ ((j : ℕ) (t : Trace) → j < i → slice_get set.now.traces j ≡ Some t → t.name ≢ name.now) }
{
    for j in 0..i {
        if let Some(other) = set.traces.items().get(j) {
            if has_name(other, name) {
                return false;
            }
        }
    }
    true
}

fn parent_named(traces: &[Trace], origin: &Origin) -> Option<usize>
    ensures { result ≡ parent_named traces.now origin.now }
{
    match origin {
        Origin::Loop => None,
        Origin::Bridge { parent, .. } => place_of(parent, traces),
    }
}

/// The place of each trace's parent.
pub(crate) fn parents_of(alloc: Global, set: &TraceSet) -> Result<Vec<Option<usize>>, AllocError>
    ensures { IfOk result (λ ps. ps.items ≡ map (λ (t : Trace). parent_named set.now.traces t.origin) set.now.traces) }
{
    let traces = set.traces.items();
    let mut parents = Vec::new(alloc);
    for trace in traces {
        parents.push(parent_named(traces, &trace.origin))?;
    }
    Ok(parents)
}
