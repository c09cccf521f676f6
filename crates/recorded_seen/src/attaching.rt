//! Which attachments of a session are accepted, and what is written of them.
ghost use Rattle.std.specs.Prelude.{◌≡◌, ◌++◌, slice_get, OnOk};
ghost use Rattle.trace_ops.specs.Weights.{place_of};
ghost use Rattle.recorded_seen.specs.Sessions.{is_attached, is_there, place_is_there, parent_is_there, can_hang, judged, with_judged, attach_text};

use seen_text::{Judged, put_attach as put_judged};
use std::alloc::AllocError;
use trace_ops::{Origin, Text, Trace, TraceSet};
use trace_text::trace_name;

fn is_attached(cuts: &[(u32, u64)], bridge: usize) -> bool
    ensures { result ≡ is_attached cuts.now bridge }
{
    cuts.iter().any(|cut| cut.0 as usize == bridge)
}

fn place_of(traces: &[Trace], name: Text) -> Option<usize>
    ensures { result ≡ place_of name traces.now }
{
    traces.iter().position(|t| t.name.is(name.bytes()))
}

fn is_there(cuts: &[(u32, u64)], place: usize, origin: &Origin) -> bool
    ensures { result ≡ is_there cuts.now place origin.now }
{
    match origin {
        Origin::Loop => true,
        Origin::Bridge { .. } => is_attached(cuts, place),
    }
}

fn place_is_there(set: &TraceSet, cuts: &[(u32, u64)], place: Option<usize>) -> bool
    ensures { result ≡ place_is_there set.now cuts.now place }
{
    match place {
        None => true,
        Some(place) => match set.traces.items().get(place) {
            None => true,
            Some(trace) => is_there(cuts, place, &trace.origin),
        },
    }
}

fn parent_is_there(set: &TraceSet, cuts: &[(u32, u64)], origin: &Origin) -> bool
    ensures { result ≡ parent_is_there set.now cuts.now origin.now }
{
    match origin {
        Origin::Loop => true,
        Origin::Bridge { parent, guard: _ } => {
            place_is_there(set, cuts, place_of(set.traces.items(), *parent))
        }
    }
}

fn can_hang(set: &TraceSet, cuts: &[(u32, u64)], bridge: u32) -> bool
    ensures { result ≡ can_hang set.now cuts.now (slice_get set.now.traces bridge) }
{
    match set.traces.items().get(bridge as usize) {
        None => true,
        Some(trace) => parent_is_there(set, cuts, &trace.origin),
    }
}

fn judge(set: &TraceSet, cuts: &[(u32, u64)], bridge: u32) -> Judged
    ensures { result ≡ judged set.now cuts.now bridge }
{
    if is_attached(cuts, bridge as usize) {
        Judged::Already
    } else if can_hang(set, cuts, bridge) {
        Judged::Accepted
    } else {
        Judged::NoParent
    }
}

fn note(cuts: &mut Vec<(u32, u64)>, bridge: u32, judged: Judged) -> Result<(), AllocError>
    ensures { OnOk result (cuts.new.items ≡ with_judged cuts.old.items bridge judged) }
{
    match judged {
        Judged::Accepted => {
            cuts.push((bridge, 0))?;
            Ok(())
        }
        Judged::Already => Ok(()),
        Judged::NoParent => Ok(()),
    }
}

/// Adds whether the bridge can be attached, and if so counts it among the cuts.
pub fn put_attach(
    out: &mut Vec<u8>,
    set: &TraceSet,
    cuts: &mut Vec<(u32, u64)>,
    bridge: u32,
) -> Result<(), AllocError>
    ensures text { OnOk result (out.new.items ≡ out.old.items ++ attach_text set.now cuts.old.items bridge) }
    ensures cuts { OnOk result (cuts.new.items ≡ with_judged cuts.old.items bridge (judged set.now cuts.old.items bridge)) }
{
    let judged = judge(set, cuts, bridge);
    put_judged(out, trace_name(set, bridge), judged)?;
    note(cuts, bridge, judged)
}
