//! Writes what is observed of a run.
ghost use Rattle.std.specs.Prelude.{◌≡◌, ◌++◌, OnOk};
ghost use Rattle.recorded_seen.specs.States.{shown, frames_of, seen_text};

use seen_text::{Seen, put_seen};
use std::alloc::AllocError;
use trace_meaning::{RecFrame, RecRun, RecState};
use trace_ops::TraceSet;

// The state that is shown.
fn shown(state: &RecState) -> Seen
    ensures { result ≡ shown state.now }
{
    match state {
        RecState::Going => Seen::Going,
        RecState::Finished(value) => Seen::Finished(*value),
        RecState::Exited { trace, guard, .. } => Seen::Exited {
            trace: *trace,
            guard: *guard,
        },
        RecState::Waits => Seen::Waits,
        RecState::Misfit { call } => Seen::Misfit { call: *call },
        RecState::Wrong => Seen::Wrong(None),
    }
}

// The frames of an exit.
fn frames_of(state: &RecState) -> &[RecFrame]
    ensures { result.now ≡ frames_of state.now }
{
    match state {
        RecState::Exited { frames, .. } => frames.items(),
        _ => &[],
    }
}

/// Adds what is observed of a run of this set: the state line behind the activation's name, the frames, the calls, and at
/// an end the cells. Objects have the numbers of their listing from the roots. A run that went wrong has its state alone.
///
/// # Errors
/// Want of memory, or a run that can't be listed: one of its values names no object of its store, or there are 2^32
/// objects.
#[tactic(auto, unfolding(crate::specs::States::seen_text))]
pub fn put_observed(
    out: &mut Vec<u8>,
    name: &[u8],
    set: &TraceSet,
    run: &RecRun,
) -> Result<(), AllocError>
    ensures { OnOk result (out.new.items ≡ out.old.items ++ seen_text name.now set.now run.now.set run.now.now) }
{
    let seen = shown(run.state());
    let frames = frames_of(run.state());
    put_seen(out, name, set, seen, frames, run.calls(), run.store())
}
