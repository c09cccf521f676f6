//! Which bridges of a set may be attached.
#![tactic(auto)]

ghost use Rattle.std.specs.Prelude.{◌≡◌, ◌↔◌, true, slice_get, IsTrue, IfOk, IfErr, Some};
ghost use Rattle.std.specs.List.{Contains};
ghost use Rattle.trace_ops.specs.Weights.{place_of};
ghost use Rattle.bridge_patch.specs.Bridged.{LacksParent, IsRefused, source_of, from_origin, is_bridging, comes_from};

use guard_exit::ExitRow;
use trace_ops::{Origin, Text, Trace, TraceSet};

/// Why a bridge isn't attached: it is attached already, or its parent is a bridge that isn't.
#[derive(Clone, Copy, Debug, PartialEq, Eq)]
pub enum Refusal {
    Already { bridge: u32 },
    NoParent { bridge: u32 },
}

// Where the first trace of this name is.
fn place_of(name: Text, traces: &[Trace]) -> Option<usize>
    ensures { result ≡ place_of name traces.now }
{
    traces.iter().position(|t| t.name.is(name.bytes()))
}

// The trace and the guard from which a trace of this origin comes.
fn from_origin(traces: &[Trace], origin: Origin) -> Option<(usize, u32)>
    ensures { result ≡ from_origin traces.now origin }
{
    match origin {
        Origin::Loop => None,
        Origin::Bridge { parent, guard } => match place_of(parent, traces) {
            Some(place) => Some((place, guard)),
            None => None,
        },
    }
}

// The trace and the guard from which a bridge comes.
pub(crate) fn source_of(set: &TraceSet, bridge: u32) -> Option<(usize, u32)>
    ensures { result ≡ source_of set.now.traces bridge }
{
    let traces = set.traces.items();
    match traces.get(bridge as usize) {
        Some(trace) => from_origin(traces, trace.origin),
        None => None,
    }
}

// Whether a row is that of a copy of this guard of a trace.
pub(crate) fn is_copy(source: Option<(usize, u32)>, row: &ExitRow) -> bool
    ensures { result ≡ comes_from source row.now.id.trace row.now.guard }
{
    match (source, row.guard) {
        (Some((trace, guard)), Some(n)) => guard == n && trace == row.id.trace as usize,
        _ => false,
    }
}

// Whether the trace at this place is a bridge.
fn is_bridge(set: &TraceSet, place: usize) -> bool
    ensures { result ≡ is_bridging (slice_get set.now.traces place) }
{
    match set.traces.items().get(place) {
        Some(trace) => match trace.origin {
            Origin::Loop => false,
            Origin::Bridge { .. } => true,
        },
        None => false,
    }
}

// Whether the trace at this place is one of these.
fn is_listed(bridges: &[u32], place: usize) -> bool
    ensures { IsTrue result ↔ Contains bridges.now place }
{
    bridges.iter().any(|b| *b as usize == place)
}

// Whether a bridge's parent is a bridge that isn't one of these.
fn lacks_parent(bridges: &[u32], set: &TraceSet, bridge: u32) -> bool
    ensures { IsTrue result ↔ LacksParent set.now bridges.now bridge }
{
    match source_of(set, bridge) {
        Some((parent, _)) => is_bridge(set, parent) && !is_listed(bridges, parent),
        None => false,
    }
}

// Whether a bridge may be attached behind these.
pub(crate) fn attachable(bridges: &[u32], set: &TraceSet, bridge: u32) -> Result<(), Refusal>
    ensures ok { IfOk result (λ u. (¬ Contains bridges.now bridge) × (¬ LacksParent set.now bridges.now bridge)) }
    ensures err { IfErr result (λ e. IsRefused set.now bridges.now bridge e) }
{
    if is_listed(bridges, bridge as usize) {
        return Err(Refusal::Already { bridge });
    }
    if lacks_parent(bridges, set, bridge) {
        return Err(Refusal::NoParent { bridge });
    }
    Ok(())
}
