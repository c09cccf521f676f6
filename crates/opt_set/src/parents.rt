//! Loops, bridges and their parents.
ghost use Rattle.std.specs.Prelude.{◌≡◌, ◌≤◌, ◌↔◌, IsTrue, length, slice_get};
ghost use Rattle.std.specs.Option.{IsSomeAnd};
ghost use Rattle.trace_ops.specs.declared.trace.Trace.{Trace};
ghost use Rattle.trace_ops.specs.Weights.{place_of, parent_named, parent_at};
ghost use Rattle.loop_peel.specs.Peeling.{IsLoop};

use trace_ops::{Origin, Text, Trace, TraceSet};

/// Whether the trace of this place is a loop.
pub fn is_loop(set: &TraceSet, trace: u32) -> bool
    ensures { IsTrue result ↔ IsSomeAnd (slice_get set.now.traces trace) (λ (t : Trace). IsLoop t.origin) }
{
    match set.traces.items().get(trace as usize) {
        None => false,
        Some(trace) => match trace.origin {
            Origin::Loop => true,
            Origin::Bridge { .. } => false,
        },
    }
}

// The first trace of this name.
fn trace_named(traces: &[Trace], name: Text) -> Option<usize>
    ensures { result ≡ place_of name traces.now }
{
    traces.iter().position(|t| t.name.is(name.bytes()))
}

fn named_by(traces: &[Trace], origin: Origin) -> Option<usize>
    ensures { result ≡ parent_named traces.now origin }
{
    match origin {
        Origin::Loop => None,
        Origin::Bridge { parent, .. } => trace_named(traces, parent),
    }
}

/// The trace of the guard from which a bridge comes.
pub fn parent_at(set: &TraceSet, trace: u32) -> Option<usize>
    ensures { result ≡ parent_at set.now trace }
{
    let traces = set.traces.items();
    match traces.get(trace as usize) {
        None => None,
        Some(bridge) => named_by(traces, bridge.origin),
    }
}
