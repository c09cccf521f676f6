//! The session that lines stand for.

ghost use Rattle.std.specs.Prelude.{◌≡◌, ◌<◌, ◌≤◌, ◌+◌, ◌^◌, length, Ok, IfOk, IfSome};
ghost use Rattle.text_lines.specs.Lines.{lines};
ghost use Rattle.text_lines.specs.Names.{number_of, has_name};
ghost use Rattle.session_text.specs.Faults.{Gives};
ghost use Rattle.session_text.specs.Fits.{FitsSet};
ghost use Rattle.session_text.specs.Names.{names_of};
ghost use Rattle.session_text.specs.Reading.{is_of, fits_inputs, inputs_of, over, with_start, add_line, add_start, start_in, read_start, step_in, run_in, attach_in, read_form, read_line, nothing, lines_at, session_at, only_lines, Leaves};

use crate::fault::{Reason, SessionFault, bad};
use crate::form::{Activation, Form, said};
use crate::lexicon::Lexicon;
use crate::session::{Line, SessionText};
use std::alloc::Global;
use text_lines::{lines_are_spelled, next_line};
use trace_meaning::Value;
use trace_ops::{BoxId, Kind, List, Text, TraceSet, What};

fn is_of(value: &Value, kind: Kind) -> bool
    ensures { result ≡ is_of value.now kind }
{
    match (value, kind) {
        (Value::Int(_), Kind::Int) => true,
        (Value::Int(_), Kind::Ref) => false,
        (Value::Null, Kind::Int) => false,
        (Value::Null, Kind::Ref) => true,
        (Value::Obj(_), Kind::Int) => false,
        (Value::Obj(_), Kind::Ref) => true,
    }
}

// Whether there are as many values as boxes, each of its kind.
#[tactic(auto, unfolding(crate::specs::Reading::fits_inputs))]
fn fits_inputs(values: &[Value], boxes: &[BoxId]) -> bool
    ensures { result ≡ fits_inputs values.now boxes.now }
{
    let mut rest = boxes;
    for value in values {
        let Some((of, after)) = rest.split_first() else {
            return false;
        };
        if !is_of(value, of.kind) {
            return false;
        }
        rest = after;
    }
    rest.is_empty()
}

fn inputs_of(set: &TraceSet, k: u32) -> &[BoxId]
    ensures { result.now ≡ inputs_of set.now k }
{
    match set.traces.items().get(k as usize) {
        None => &[],
        Some(trace) => trace.inputs.items(),
    }
}

fn is_started(session: &SessionText, name: &Text) -> bool
    ensures { result ≡ has_name name.now session.now.names }
{
    session.names.items().iter().any(|x| name.is(x.bytes()))
}

fn place_named(session: &SessionText, name: &Text) -> Option<usize>
    ensures value { result ≡ number_of name.now session.now.names }
    ensures within { IfSome result (λ p. p < length session.now.names) }
{
    session
        .names
        .items()
        .iter()
        .position(|x| name.is(x.bytes()))
}

// The number of an activation, of which there are few.
fn activation_named(session: &SessionText, name: &Text) -> Option<u32>
    requires { length session.now.names ≤ 16 }
    ensures { result ≡ number_of name.now session.now.names }
{
    match place_named(session, name) {
        None => None,
        Some(place) => Some(place as u32),
    }
}

fn over(what: What, limit: u32) -> SessionFault
    ensures { result ≡ over what limit }
{
    SessionFault::Limit {
        what,
        count: limit as u64 + 1,
    }
}

fn add_line(line: Line, session: &mut SessionText) -> Result<(), SessionFault>
    ensures { Leaves result session.new (add_line session.old line) }
{
    if !(session.lines.items().len() < 4096) {
        return Err(over(What::Session, 4096));
    }
    match session.lines.push(line) {
        Ok(()) => Ok(()),
        Err(_) => Err(SessionFault::OutOfMemory),
    }
}

fn put_start(trace: u32, asked: Activation, session: &mut SessionText) -> Result<(), SessionFault>
    requires { length session.old.names < 16 }
    ensures { Leaves result session.new (Ok (with_start session.old trace asked)) }
{
    let activation = session.names.items().len() as u32;
    let line = Line::Start {
        activation,
        trace,
        inputs: asked.inputs,
        answers: asked.answers,
    };
    if session.lines.push(line).is_err() {
        return Err(SessionFault::OutOfMemory);
    }
    match session.names.push(asked.name) {
        Ok(()) => Ok(()),
        Err(_) => Err(SessionFault::OutOfMemory),
    }
}

fn add_start(trace: u32, asked: Activation, session: &mut SessionText) -> Result<(), SessionFault>
    ensures { Leaves result session.new (add_start session.old trace asked) }
{
    if !(session.lines.items().len() < 4096) {
        return Err(over(What::Session, 4096));
    }
    if !(session.names.items().len() < 16) {
        return Err(over(What::Activations, 16));
    }
    if !(asked.answers.items().len() <= 4096) {
        return Err(over(What::Answers, 4096));
    }
    put_start(trace, asked, session)
}

fn start_in(
    set: &TraceSet,
    number: u32,
    trace: Option<u32>,
    asked: Activation,
    session: &mut SessionText,
) -> Result<(), SessionFault>
    ensures { Leaves result session.new (start_in set.now number session.old asked trace) }
{
    let Some(k) = trace else {
        return Err(bad(number, Reason::Name));
    };
    if !fits_inputs(asked.inputs.items(), inputs_of(set, k)) {
        return Err(bad(number, Reason::Inputs));
    }
    add_start(k, asked, session)
}

fn read_start(
    names: &Lexicon,
    set: &TraceSet,
    number: u32,
    asked: Activation,
    session: &mut SessionText,
) -> Result<(), SessionFault>
    ensures { Leaves result session.new (read_start names.now set.now number session.old asked) }
{
    if is_started(session, &asked.name) {
        return Err(bad(number, Reason::Twice));
    }
    if asked.lacks {
        return Err(bad(number, Reason::Name));
    }
    let trace = names.loop_named(&asked.of);
    start_in(set, number, trace, asked, session)
}

fn step_in(
    number: u32,
    count: u32,
    activation: Option<u32>,
    session: &mut SessionText,
) -> Result<(), SessionFault>
    ensures { Leaves result session.new (step_in number session.old count activation) }
{
    match activation {
        None => Err(bad(number, Reason::Name)),
        Some(activation) => add_line(Line::Step { activation, count }, session),
    }
}

fn run_in(
    number: u32,
    n: u32,
    activation: Option<u32>,
    session: &mut SessionText,
) -> Result<(), SessionFault>
    ensures { Leaves result session.new (run_in number session.old n activation) }
{
    match activation {
        None => Err(bad(number, Reason::Name)),
        Some(activation) => add_line(Line::Run { activation, n }, session),
    }
}

fn attach_in(
    number: u32,
    bridge: Option<u32>,
    session: &mut SessionText,
) -> Result<(), SessionFault>
    ensures { Leaves result session.new (attach_in number session.old bridge) }
{
    match bridge {
        None => Err(bad(number, Reason::Name)),
        Some(bridge) => add_line(Line::Attach { bridge }, session),
    }
}

// Adds what a form says, unless it is refused.
fn read_form(
    names: &Lexicon,
    set: &TraceSet,
    number: u32,
    form: Form,
    session: &mut SessionText,
) -> Result<(), SessionFault>
    requires { length session.old.names ≤ 16 }
    ensures { Leaves result session.new (read_form names.now set.now number session.old form) }
{
    match form {
        Form::Start(asked) => read_start(names, set, number, asked, session),
        Form::Step { name, count } => {
            let activation = activation_named(session, &name);
            step_in(number, count, activation, session)
        }
        Form::Run { name, n } => {
            let activation = activation_named(session, &name);
            run_in(number, n, activation, session)
        }
        Form::Attach { name } => attach_in(number, names.bridge_named(&name), session),
    }
}

// Reads one line over the earlier ones.
#[tactic(auto, unfolding(crate::specs::Reading::read_line))]
fn read_line(
    alloc: Global,
    names: &Lexicon,
    set: &TraceSet,
    number: u32,
    line: &[u8],
    session: &mut SessionText,
) -> Result<(), SessionFault>
    requires { length session.old.names ≤ 16 }
    ensures { Leaves result session.new (read_line names.now set.now number line.now session.old) }
{
    match said(alloc, names, line) {
        Err(_) => Err(SessionFault::OutOfMemory),
        Ok(None) => Err(bad(number, Reason::Shape)),
        Ok(Some(None)) => Ok(()),
        Ok(Some(Some(form))) => read_form(names, set, number, form, session),
    }
}

fn nothing(alloc: Global) -> SessionText
    ensures { result ≡ nothing }
{
    SessionText {
        lines: List::of(Vec::new(alloc)),
        names: List::of(Vec::new(alloc)),
    }
}

fn read_all(
    alloc: Global,
    names: &Lexicon,
    set: &TraceSet,
    text: &[u8],
    first_line: u32,
) -> Result<SessionText, SessionFault>
    requires room { first_line + length (lines text.now) < 2 ^ 32 }
    requires names { names.now ≡ names_of set.now }
    ensures read { Gives result (session_at set.now first_line text.now) }
    ensures fits { IfOk result (λ s. FitsSet set.now s) }
{
    lines_are_spelled();
    let mut session = nothing(alloc);
    let mut number = first_line;
    let mut rest = text;
    while !rest.is_empty() {
        let (line, after) = next_line(rest);
        read_line(alloc, names, set, number, line, &mut session)?;
        rest = after;
        number += 1;
    }
    Ok(session)
}

/// The session that the lines stand for, with the names of its activations, or the first refusal. The lines are
/// those behind `%session`, and are numbered from `first_line`. On one line the refusals are tried in this order:
/// shape, twice, name, inputs, a limit. A session that is read fits the set: each start is of a loop with its inputs,
/// each attachment of a bridge, each step and run of an activation that stands above it, and no limit is passed.
pub fn session_of(
    alloc: Global,
    bytes: &[u8],
    first_line: u32,
    set: &TraceSet,
) -> Result<SessionText, SessionFault>
    requires { first_line + length (lines bytes.now) < 2 ^ 32 }
    ensures read { Gives result (session_at set.now first_line bytes.now) }
    ensures fits { IfOk result (λ s. FitsSet set.now s) }
{
    match Lexicon::of(alloc, set) {
        Err(_) => Err(SessionFault::OutOfMemory),
        Ok(names) => read_all(alloc, &names, set, bytes, first_line),
    }
}

/// The lines of that session, or the same refusal.
pub fn read_session(
    alloc: Global,
    bytes: &[u8],
    first_line: u32,
    set: &TraceSet,
) -> Result<List<Line>, SessionFault>
    requires { first_line + length (lines bytes.now) < 2 ^ 32 }
    ensures { Gives result (only_lines (session_at set.now first_line bytes.now)) }
{
    match session_of(alloc, bytes, first_line, set) {
        Err(fault) => Err(fault),
        Ok(session) => Ok(session.lines),
    }
}
