//! Peeling a loop, and the pieces of a bridge.
ghost use Rattle.std.specs.Prelude.{◌≡◌, ℕ, ◌<◌, ◌^◌, [], ◌∷◌, ◌++◌, Some, OnOk, IfOk, length, slice_get};
ghost use Rattle.std.specs.Option.{IsSomeAnd};
ghost use Rattle.std.specs.List.{AllByRecursion};
ghost use Rattle.trace_ops.specs.declared.trace.Trace.{Trace};
ghost use Rattle.trace_ops.specs.declared.piece.Half.TheVariants as half_of;
ghost use Rattle.trace_ops.specs.Sound.{RepeatsInputs};
ghost use Rattle.opt_meaning.specs.Meeting.{Made};
ghost use Rattle.loop_peel.specs.Peeling.{IsLoop, IsBridge, IsPieceOf, ArePieces, in_half, loop_entry, kept_at, guard_of};
ghost use Rattle.loop_peel.specs.Making.{with_left, with_piece, Adds};
ghost use Rattle.loop_peel.specs.Serving.{CanEnter};

use crate::entries::plain;
use crate::goal::goal_at;
use crate::links::inputs_of_trace;
use opt_pass::{Optimised, optimise};
use std::alloc::{AllocError, Global};
use trace_check::Checked;
use trace_ops::{Entry, Half, List, OptTrace, Origin, Piece, PieceId, TraceSet};

/// The pieces of one trace, and what is known where their guards fail.
#[derive(Drop)]
pub struct Peeled {
    pub opt: OptTrace,
    /// Each with the half of its piece and the guard's number among those of the trace.
    pub at_guards: List<(Half, u32, Entry)>,
}

// A piece of a trace from an entry.
fn piece_from(
    alloc: Global,
    checked: &Checked,
    trace: u32,
    half: Half,
    entry: &Entry,
) -> Result<Optimised, AllocError>
    requires enters { CanEnter checked.now trace entry.now }
    requires repeats { IsSomeAnd (slice_get checked.now.traces trace) (RepeatsInputs (record { trace = trace; half = half }) entry.now.label) }
    ensures { IfOk result (λ o. IsPieceOf checked.now trace half entry.now (record { piece = o.piece; entry = entry.now; guards = o.at_guards; at_end = o.at_end })) }
{
    let set = checked.set();
    let to = goal_at(set, trace);
    let made = optimise(alloc, checked, PieceId { trace, half }, entry, to)?;
    Ok(made)
}

fn add_left(
    at_guards: &mut List<(Half, u32, Entry)>,
    half: Half,
    entries: &[(u32, Entry)],
) -> Result<(), AllocError>
    ensures { OnOk result (at_guards.new ≡ at_guards.old ++ in_half half entries.now) }
{
    for left in entries {
        let entry = left.1.copy()?;
        at_guards.push((half, left.0, entry))?;
    }
    Ok(())
}

fn put_left(made: &mut Peeled, half: Half, entries: &[(u32, Entry)]) -> Result<(), AllocError>
    ensures { OnOk result (made.new ≡ with_left made.old half entries.now) }
{
    add_left(&mut made.at_guards, half, entries)
}

fn put_piece(made: &mut Peeled, piece: Piece) -> Result<(), AllocError>
    ensures { OnOk result (made.new ≡ with_piece made.old piece) }
{
    made.opt.pieces.push(piece)
}

// Adds the piece that a trace has from this entry.
fn add_piece(
    made: &mut Peeled,
    alloc: Global,
    checked: &Checked,
    trace: u32,
    half: Half,
    entry: &Entry,
) -> Result<(), AllocError>
    requires enters { CanEnter checked.now trace entry.now }
    requires repeats { IsSomeAnd (slice_get checked.now.traces trace) (RepeatsInputs (record { trace = trace; half = half }) entry.now.label) }
    ensures { OnOk result (Adds checked.now trace half entry.now made.old made.new) }
{
    let Optimised {
        piece,
        at_guards,
        ..
    } = piece_from(alloc, checked, trace, half, entry)?;
    put_left(made, half, at_guards.items())?;
    put_piece(made, piece)?;
    Ok(())
}

fn nothing(alloc: Global) -> Peeled
    ensures pieces { result.opt.pieces ≡ [] }
    ensures guards { result.at_guards ≡ [] }
{
    Peeled {
        opt: OptTrace {
            pieces: List::of(Vec::new(alloc)),
        },
        at_guards: List::of(Vec::new(alloc)),
    }
}

/// The piece of a loop, from an entry at which nothing is known. Its jump goes to the preamble of the loop to which the
/// trace jumps.
pub fn peel(alloc: Global, checked: &Checked, trace: u32) -> Result<Peeled, AllocError>
    requires trace { IsSomeAnd (slice_get checked.now.traces trace) (λ (t : Trace). IsLoop t.origin) }
    ensures { IfOk result (λ o. ArePieces checked.now trace ((half_of.Pre, loop_entry checked.now trace) ∷ []) o.opt.pieces o.at_guards) }
{
    let set = checked.set();
    let inputs = inputs_of_trace(set, trace);
    let entry = plain(alloc, inputs)?;
    let mut made = nothing(alloc);
    add_piece(&mut made, alloc, checked, trace, Half::Pre, &entry)?;
    Ok(made)
}

// The number of the guard from which a bridge comes.
fn guard_of(set: &TraceSet, trace: u32) -> u32
    ensures { result ≡ guard_of (slice_get set.now.traces trace) }
{
    match set.traces.items().get(trace as usize) {
        None => 0,
        Some(bridge) => match bridge.origin {
            Origin::Loop => 0,
            Origin::Bridge { guard, .. } => guard,
        },
    }
}

/// The pieces of a bridge: one for each entry that `parent` has for the guard from which the bridge comes, of that entry's
/// half. A guard that isn't kept has no entry, and its bridge no piece.
pub fn bridge(
    alloc: Global,
    checked: &Checked,
    trace: u32,
    parent: &[(Half, u32, Entry)],
) -> Result<Peeled, AllocError>
    requires trace { IsBridge checked.now trace }
    requires parent { AllByRecursion (λ x. CanEnter checked.now trace x.1) (kept_at (guard_of (slice_get checked.now.traces trace)) parent.now) }
    ensures { IfOk result (λ o. ArePieces checked.now trace (kept_at (guard_of (slice_get checked.now.traces trace)) parent.now) o.opt.pieces o.at_guards) }
{
    let set = checked.set();
    let from = guard_of(set, trace);
    let mut made = nothing(alloc);
    for left in parent {
        if left.1 == from {
            add_piece(&mut made, alloc, checked, trace, left.0, &left.2)?;
        }
    }
    Ok(made)
}
