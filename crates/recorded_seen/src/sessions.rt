//! Runs the activations of a session, and writes what is seen of them.
ghost use Rattle.std.specs.Prelude.{◌≡◌, ◌++◌, [], OnOk, IfOk};
ghost use Rattle.std.specs.List.{All};
ghost use Rattle.trace_ops.specs.InRange.{IsInRange};
ghost use Rattle.trace_ops.specs.WellFormed.{IsWellFormed};
ghost use Rattle.trace_meaning.specs.Starting.{Starts, begun};
ghost use Rattle.trace_meaning.specs.Standing.{stepped};
ghost use Rattle.session_text.specs.Fits.{FitsSet};
ghost use Rattle.recorded_seen.specs.Sessions.{activation_name, start_text, cuts_behind, line_text, lines_text, session_seen, LineStarts, after, is_going};

use crate::attaching::put_attach;
use crate::observed::put_observed;
use seen_text::put_started;
use session_text::{Line, SessionText};
use std::alloc::{AllocError, Global};
use trace_meaning::{Answer, RecRun, RecState, Value, recorded_runs};
use trace_ops::{List, Text, TraceSet};

/// A run makes at most so many objects, and at most so many calls.
const MOST: usize = 2147483647;

fn is_going(state: &RecState) -> bool
    ensures { result ≡ is_going state.now }
{
    match state {
        RecState::Going => true,
        _ => false,
    }
}

// One operation, while there is room for what it makes.
fn step_within(run: &mut RecRun) -> Result<(), AllocError>
    ensures { OnOk result (run.new ≡ stepped run.old) }
{
    if run.store().objects.items().len() > MOST || run.calls().len() > MOST {
        return Err(AllocError);
    }
    run.step()
}

/// At most so many operations.
///
/// # Errors
/// Want of memory, or 2^31 objects or calls.
pub fn run_for(run: &mut RecRun, operations: u64) -> Result<(), AllocError>
    ensures { OnOk result (run.new ≡ after operations run.old) }
{
    recorded_runs();
    let mut left = operations;
    while 0 < left && is_going(run.state()) {
        step_within(run)?;
        left -= 1;
    }
    Ok(())
}

fn activation_name(names: &[Text], activation: u32) -> &[u8]
    ensures { result.now ≡ activation_name names.now activation }
{
    match names.get(activation as usize) {
        None => &[],
        Some(name) => name.bytes(),
    }
}

fn run_of(
    alloc: Global,
    set: &TraceSet,
    trace: u32,
    inputs: &List<Value>,
    answers: &List<Answer>,
    cuts: &[(u32, u64)],
) -> Result<RecRun, AllocError>
    requires in_range { IsInRange set.now }
    requires well_formed { IsWellFormed set.now }
    requires starts { Starts set.now trace inputs.now }
    ensures { IfOk result (λ r. r ≡ begun set.now trace inputs.now answers.now cuts.now) }
{
    let inputs = inputs.copy()?.into_items();
    let answers = answers.copy_each()?.into_items();
    let cuts = Vec::from_slice(alloc, cuts)?;
    RecRun::new(alloc, set, trace, inputs, answers, cuts)
}

// Adds that an activation is started, and what is seen of it after so many operations.
#[tactic(auto, unfolding(crate::specs::Sessions::start_text))]
fn put_start(
    out: &mut Vec<u8>,
    set: &TraceSet,
    name: &[u8],
    run: RecRun,
    operations: u64,
) -> Result<(), AllocError>
    ensures { OnOk result (out.new.items ≡ out.old.items ++ start_text name.now set.now (after operations run)) }
{
    let mut run = run;
    put_started(out, name)?;
    run_for(&mut run, operations)?;
    put_observed(out, name, set, &run)
}

// Adds what a line shows, and counts what it attaches among the cuts.
fn put_line(
    alloc: Global,
    out: &mut Vec<u8>,
    set: &TraceSet,
    names: &[Text],
    cuts: &mut Vec<(u32, u64)>,
    line: &Line,
    operations: u64,
) -> Result<(), AllocError>
    requires in_range { IsInRange set.now }
    requires well_formed { IsWellFormed set.now }
    requires starts { LineStarts set.now line.now }
    ensures text { OnOk result (out.new.items ≡ out.old.items ++ line_text set.now names.now operations cuts.old.items line.now) }
    ensures cuts { OnOk result (cuts.new.items ≡ cuts_behind set.now cuts.old.items line.now) }
{
    match line {
        Line::Start {
            activation,
            trace,
            inputs,
            answers,
        } => {
            let run = run_of(alloc, set, *trace, inputs, answers, cuts)?;
            put_start(
                out,
                set,
                activation_name(names, *activation),
                run,
                operations,
            )
        }
        Line::Step { .. } => Ok(()),
        Line::Run { .. } => Ok(()),
        Line::Attach { bridge } => put_attach(out, set, cuts, *bridge),
    }
}

fn put_lines(
    alloc: Global,
    out: &mut Vec<u8>,
    set: &TraceSet,
    names: &[Text],
    lines: &[Line],
    operations: u64,
) -> Result<(), AllocError>
    requires in_range { IsInRange set.now }
    requires well_formed { IsWellFormed set.now }
    requires starts { All (LineStarts set.now) lines.now }
    ensures { OnOk result (out.new.items ≡ out.old.items ++ lines_text set.now names.now operations [] lines.now) }
{
    let mut cuts = Vec::new(alloc);
    for line in lines {
        put_line(alloc, out, set, names, &mut cuts, line, operations)?;
    }
    Ok(())
}

/// What is seen of a session whose activations run recorded traces, line by line. An `attach` line tells whether the
/// bridge is attached. A `start` line tells that the activation is started and what is observed of it after at most so
/// many operations, where the bridges are attached whose lines stand in front of it. `step` and `run` lines count
/// instructions, and show nothing.
///
/// # Errors
/// Want of memory, or a run that passes 2^31 objects or calls or can't be listed.
#[tactic(auto, using(crate::proofs::Lawful::lines_start))]
pub fn observe(
    alloc: Global,
    set: &TraceSet,
    session: &SessionText,
    operations: u64,
) -> Result<Vec<u8>, AllocError>
    requires in_range { IsInRange set.now }
    requires well_formed { IsWellFormed set.now }
    requires fits { FitsSet set.now session.now }
    ensures { IfOk result (λ text. text.items ≡ session_seen set.now session.now operations) }
{
    let mut out = Vec::new(alloc);
    put_lines(
        alloc,
        &mut out,
        set,
        session.names.items(),
        session.lines.items(),
        operations,
    )?;
    Ok(out)
}
