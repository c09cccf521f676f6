//! How much a set of traces weighs.
ghost use Rattle.std.specs.Prelude.{◌≡◌, ◌≤◌, ◌<◌, ℕ, None, List, length, slice_get, slice_index, slice_index_or, sum_by, Option};
ghost use Rattle.trace_ops.specs.Weights.{extra_of, fields_cited, known_length, slots_of, operation_weight, own_of, own_weight, place_of, parent_named, parent_at, along, weight_of, capped};

use crate::{Arg, Descr, Frame, Op, OpCode, Origin, SizeRow, Text, Trace, TraceSet};

// The most traces of a set in range.
const MOST_TRACES: usize = 256;

fn fields_cited(sizes: &[SizeRow], descr: Descr) -> u64
    ensures { result ≡ fields_cited sizes.now descr }
{
    match descr {
        Descr::Size(k) => match sizes.get(k as usize) {
            Some(row) => row.fields.items().len() as u64,
            None => 0,
        },
        Descr::No => 0,
        Descr::Field(_) => 0,
        Descr::Array(_) => 0,
        Descr::Call(_) => 0,
        Descr::Target(_) => 0,
    }
}

// A constant length from 0 to 64.
fn known_length(arg: Option<Arg>) -> u64
    ensures { result ≡ known_length arg }
{
    match arg {
        Some(Arg::Const(n)) => {
            if n < 0 {
                0
            } else if n < 65 {
                n as u64
            } else {
                0
            }
        }
        Some(Arg::Of(_)) => 0,
        Some(Arg::Null) => 0,
        Some(Arg::Class(_)) => 0,
        Some(Arg::Func(_)) => 0,
        Some(Arg::Ptr(_)) => 0,
        None => 0,
    }
}

fn extra_of(sizes: &[SizeRow], code: OpCode, descr: Descr, first: Option<Arg>) -> u64
    ensures { result ≡ extra_of sizes.now code descr first }
{
    match code {
        OpCode::New => fields_cited(sizes, descr),
        OpCode::NewWithVtable => fields_cited(sizes, descr),
        OpCode::NewArrayClear => known_length(first),
        OpCode::CallI => 32,
        OpCode::CallR => 32,
        OpCode::CallN => 32,
        _ => 0,
    }
}

#[tactic(auto, using(crate::proofs::Capped::capping))]
fn slots_in(frames: &[Frame]) -> u64
    ensures { result ≡ capped (sum_by slots_of frames.now) }
{
    let mut total = 0u64;
    for frame in frames {
        total = total.saturating_add(frame.slots.items().len() as u64);
    }
    total
}

#[tactic(auto, using(crate::proofs::Capped::capping))]
fn operation_weight(sizes: &[SizeRow], op: &Op) -> u64
    ensures { result ≡ capped (operation_weight sizes.now op.now) }
{
    let args = op.args.items();
    let extra = extra_of(sizes, op.code, op.descr, args.first().copied());
    slots_in(op.snapshot.items())
        .saturating_add(1)
        .saturating_add(args.len() as u64)
        .saturating_add(extra)
}

#[tactic(auto, using(crate::proofs::Capped::capping))]
fn own_of(sizes: &[SizeRow], ops: &[Op]) -> u64
    ensures { result ≡ capped (sum_by (operation_weight sizes.now) ops.now) }
{
    let mut total = 0u64;
    for op in ops {
        total = total.saturating_add(operation_weight(sizes, op));
    }
    total
}

fn own_weight(set: &TraceSet, k: usize) -> u64
    ensures { result ≡ capped (own_weight set.now k) }
{
    match set.traces.items().get(k) {
        Some(trace) => own_of(set.table.sizes.items(), trace.ops.items()),
        None => 0,
    }
}

fn place_of(name: Text, traces: &[Trace]) -> Option<usize>
    ensures { result ≡ place_of name traces.now }
{
    traces.iter().position(|t| t.name.is(name.bytes()))
}

fn parent_named(traces: &[Trace], origin: Origin) -> Option<usize>
    ensures { result ≡ parent_named traces.now origin }
{
    match origin {
        Origin::Loop => None,
        Origin::Bridge { parent, guard: _ } => place_of(parent, traces),
    }
}

fn parent_at(set: &TraceSet, k: usize) -> Option<usize>
    ensures { result ≡ parent_at set.now k }
{
    let traces = set.traces.items();
    match traces.get(k) {
        Some(trace) => parent_named(traces, trace.origin),
        None => None,
    }
}

// The weight of each trace alone, by its place.
fn own_weights(set: &TraceSet) -> [u64; MOST_TRACES]
    ensures { (k : ℕ) → k < 256 → slice_index result k ≡ capped (own_weight set.now k) }
{
    let mut own = [0u64; MOST_TRACES];
    for k in 0..MOST_TRACES {
        own[k] = own_weight(set, k);
    }
    own
}

// The parent of each trace, by its place.
fn parents_of(set: &TraceSet) -> [Option<usize>; MOST_TRACES]
    ensures { (k : ℕ) → k < 256 → slice_index_or result k None ≡ parent_at set.now k }
{
    let mut parents = [None; MOST_TRACES];
    for k in 0..MOST_TRACES {
        parents[k] = parent_at(set, k);
    }
    parents
}

fn own_at(own: &[u64], k: usize) -> u64
    ensures { result ≡ slice_index own.now k }
{
    match own.get(k) {
        Some(weight) => *weight,
        None => 0,
    }
}

fn up_from(parents: &[Option<usize>], k: usize) -> Option<usize>
    ensures { result ≡ slice_index_or parents.now k None }
{
    match parents.get(k) {
        Some(parent) => *parent,
        None => None,
    }
}

// The sum from a trace up to its loop.
fn along(own: &[u64], parents: &[Option<usize>], left: usize, at: Option<usize>) -> u64
    ensures { result ≡ capped (along (λ k. slice_index own.now k) (λ k. slice_index_or parents.now k None) left at) }
{
    if left == 0 {
        return 0;
    }
    match at {
        Some(k) => {
            own_at(own, k).saturating_add(along(own, parents, left - 1, up_from(parents, k)))
        }
        None => 0,
    }
}

/// The weight of a set: each of its traces counts its own weight and those of its parents. A sum that no `u64` holds is
/// told as the greatest one.
pub fn weight(set: &TraceSet) -> u64
    requires { length set.now.traces ≤ 256 }
    ensures { result ≡ capped (weight_of set.now) }
{
    let count = set.traces.items().len();
    let own = own_weights(set);
    let parents = parents_of(set);
    let mut total = 0u64;
    for k in 0..count {
        total = total.saturating_add(along(&own, &parents, count, Some(k)));
    }
    total
}
