//! What stands in the traces of a set, and where they jump to.
ghost use Rattle.std.specs.Prelude.{◌≡◌, ◌≤◌, length, slice_get};
ghost use Rattle.trace_ops.specs.Weights.{place_of};
ghost use Rattle.trace_ops.specs.Rules.{target_of as target_meant};
ghost use Rattle.trace_meaning.specs.Recorded.{ops_at, inputs_of, jump_target as target_at};

use trace_ops::{BoxId, Descr, Op, Text, Trace, TraceSet};

/// The operations of a trace.
pub fn ops_of_trace(set: &TraceSet, trace: u32) -> &[Op]
    ensures { result.now ≡ ops_at set.now trace }
{
    match set.traces.items().get(trace as usize) {
        None => &[],
        Some(trace) => trace.ops.items(),
    }
}

/// The inputs of a trace.
pub fn inputs_of_trace(set: &TraceSet, trace: u32) -> &[BoxId]
    ensures { result.now ≡ inputs_of (slice_get set.now.traces trace) }
{
    match set.traces.items().get(trace as usize) {
        None => &[],
        Some(trace) => trace.inputs.items(),
    }
}

// The first trace of this name.
fn trace_named(traces: &[Trace], name: Text) -> Option<usize>
    ensures { result ≡ place_of name traces.now }
{
    traces.iter().position(|t| t.name.is(name.bytes()))
}

fn trace_at(traces: &[Trace], name: Text) -> Option<u32>
    requires { length traces.now ≤ 256 }
    ensures { result ≡ place_of name traces.now }
{
    match trace_named(traces, name) {
        None => None,
        Some(k) => Some(k as u32),
    }
}

// Where a jump with this descr goes from a trace.
fn target_of(set: &TraceSet, trace: u32, descr: Descr) -> Option<u32>
    requires { length set.now.traces ≤ 256 }
    ensures { result ≡ target_meant set.now trace descr }
{
    match descr {
        Descr::Target(name) => trace_at(set.traces.items(), name),
        Descr::No => Some(trace),
        _ => None,
    }
}

/// Where a trace jumps to at its end; a trace that doesn't jump to a trace is its own target.
pub fn jump_target(set: &TraceSet, trace: u32) -> u32
    requires { length set.now.traces ≤ 256 }
    ensures { result ≡ target_at set.now trace }
{
    let ops = ops_of_trace(set, trace);
    match ops.last() {
        None => trace,
        Some(op) => target_of(set, trace, op.descr).unwrap_or(trace),
    }
}
