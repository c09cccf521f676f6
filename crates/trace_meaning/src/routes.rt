//! Where the traces of a set lead under given cuts, noted once for all steps of a run.

ghost use Rattle.std.specs.Prelude.{◌≡◌, ◌≤◌, ◌++◌, ◌∷◌, [], length, slice_get, filter, IfOk, OnOk};
ghost use Rattle.std.specs.Option.{unwrap_or};
ghost use Rattle.trace_meaning.specs.declared.routes.GuardPlace.{GuardPlace};
ghost use Rattle.trace_ops.specs.declared.trace.TraceSet.{TraceSet};
ghost use Rattle.trace_meaning.specs.Cuts.{seen_bridge};
ghost use Rattle.trace_meaning.specs.Routes.{place_left as left_by, guard_left as left_of, leaves, cuts_at, first_due as due, AreTargets, AreRoutes};

use crate::links::{jump_target, trace_at};
use indexmap::IndexMap;
use std::alloc::{AllocError, Global};
use trace_ops::{List, Origin, Trace, TraceSet};

/// A guard, by its trace and its number in it.
#[derive(Clone, Copy, Debug, PartialEq, Eq, Hash)]
pub struct GuardPlace {
    pub trace: u32,
    pub guard: usize,
}

/// The cuts of a run, the target of each trace, and of each guard that has some its cuts, in order.
#[derive(Drop)]
pub struct Routes {
    pub cuts: Vec<(u32, u64)>,
    pub targets: Vec<u32>,
    pub bridges: IndexMap<GuardPlace, List<(u32, u64)>>,
}

// The target of each trace.
fn targets_of(alloc: Global, set: &TraceSet) -> Result<Vec<u32>, AllocError>
    requires { length set.now.traces ≤ 256 }
    ensures { IfOk result (λ r. AreTargets set.now (length set.now.traces) r.items) }
{
    let mut targets = Vec::new(alloc);
    for k in 0..set.traces.items().len() {
        targets.push(jump_target(set, k as u32))?;
    }
    Ok(targets)
}

fn place_left(traces: &[Trace], origin: Origin) -> Option<GuardPlace>
    requires { length traces.now ≤ 256 }
    ensures { result ≡ left_by traces.now origin }
{
    match origin {
        Origin::Loop => None,
        Origin::Bridge { parent, guard } => match trace_at(traces, parent) {
            None => None,
            Some(trace) => Some(GuardPlace {
                trace,
                guard: guard as usize,
            }),
        },
    }
}

// The guard that a trace leaves, where it is a bridge.
fn guard_left(traces: &[Trace], bridge: u32) -> Option<GuardPlace>
    requires { length traces.now ≤ 256 }
    ensures { result ≡ left_of traces.now (slice_get traces.now bridge) }
{
    match traces.get(bridge as usize) {
        None => None,
        Some(t) => place_left(traces, t.origin),
    }
}

// A copy of the cuts that are noted of a guard.
fn noted_cuts(
    alloc: Global,
    bridges: &IndexMap<GuardPlace, List<(u32, u64)>>,
    at: GuardPlace,
) -> Result<Vec<(u32, u64)>, AllocError>
    ensures { IfOk result (λ r. r.items ≡ cuts_at bridges.now.entries at) }
{
    match bridges.get(&at) {
        None => Ok(Vec::new(alloc)),
        Some(cuts) => Vec::from_slice(alloc, cuts.items()),
    }
}

// Notes one cut more.
fn note(
    alloc: Global,
    traces: &[Trace],
    bridges: &mut IndexMap<GuardPlace, List<(u32, u64)>>,
    cut: (u32, u64),
) -> Result<(), AllocError>
    requires { length traces.now ≤ 256 }
    ensures { OnOk result ((g : GuardPlace) → cuts_at bridges.new.entries g ≡ cuts_at bridges.old.entries g ++ filter (leaves traces.now g) (cut ∷ [])) }
{
    let Some(at) = guard_left(traces, cut.0) else {
        return Ok(());
    };
    let mut cuts = noted_cuts(alloc, bridges, at)?;
    cuts.push(cut)?;
    bridges.insert(at, List::of(cuts))?;
    Ok(())
}

// The cuts of each guard.
fn bridges_of(
    alloc: Global,
    traces: &[Trace],
    cuts: &[(u32, u64)],
) -> Result<IndexMap<GuardPlace, List<(u32, u64)>>, AllocError>
    requires { length traces.now ≤ 256 }
    ensures { IfOk result (λ r. (g : GuardPlace) → cuts_at r.entries g ≡ filter (leaves traces.now g) cuts.now) }
{
    let mut bridges = IndexMap::new(alloc);
    for cut in cuts {
        note(alloc, traces, &mut bridges, *cut)?;
    }
    Ok(bridges)
}

// The bridge of the first cut that a failure is late enough to see.
fn first_due(cuts: &[(u32, u64)], failure: u64) -> Option<u32>
    ensures { result ≡ due cuts.now failure }
{
    for cut in cuts {
        if cut.1 <= failure {
            return Some(cut.0);
        }
    }
    None
}

impl Routes {
    /// Those of a set under cuts.
    pub fn new(alloc: Global, set: &TraceSet, cuts: Vec<(u32, u64)>) -> Result<Routes, AllocError>
        requires { length set.now.traces ≤ 256 }
        ensures noted { IfOk result (λ r. AreRoutes set.now r) }
        ensures cuts { IfOk result (λ r. r.cuts ≡ cuts) }
    {
        let targets = targets_of(alloc, set)?;
        let bridges = bridges_of(alloc, set.traces.items(), &cuts)?;
        Ok(Routes {
            cuts,
            targets,
            bridges,
        })
    }

    /// Where a jump at the end of a trace goes.
    pub fn target(&self, trace: u32) -> u32
        ensures { result ≡ unwrap_or (slice_get self.now.targets.items trace) trace }
    {
        self.targets.get(trace as usize).copied().unwrap_or(trace)
    }

    // The bridge of the first cut noted of a guard that a failure is late enough to see.
    fn noted_bridge(&self, trace: u32, guard: usize, failure: u64) -> Option<u32>
        ensures { result ≡ due (cuts_at self.now.bridges.entries (record { trace = trace; guard = guard })) failure }
    {
        match self.bridges.get(&GuardPlace { trace, guard }) {
            None => None,
            Some(cuts) => first_due(cuts.items(), failure),
        }
    }

    /// The bridge of a guard that the failure of this number sees, where these are the routes of a set.
    pub fn bridge(&self, trace: u32, guard: usize, failure: u64) -> Option<u32>
        ensures { (set : TraceSet) → AreRoutes set self.now → result ≡ seen_bridge set.traces self.now.cuts.items trace guard failure }
    {
        self.noted_bridge(trace, guard, failure)
    }
}
