//! The traces as far as they are read.

ghost use Rattle.std.specs.Prelude.{◌≡◌, ◌+◌, OnOk, length, [], map, IfOk};
ghost use Rattle.trace_text.specs.Draft.{nothing, counted, with_op, put_line, labelled, closed, closed_if, is_open, lacks_inputs, trace_count, begun, put_inputs, finished};
ghost use Rattle.trace_text.specs.Faults.{Gives};

use crate::boxes::Boxes;
use crate::fault::TextFault;
use crate::heading::Heading;
use crate::lexicon::Lexicon;
use crate::line::Line;
use crate::meaning::op_of;
use std::alloc::{AllocError, Global};
use trace_ops::{BoxId, List, Op, OpCode, Origin, Text, Trace, code_of, is_guard};

/// What may come next: a section, inputs, a label or an operation, an operation.
#[derive(Clone, Copy, Debug)]
pub enum Phase {
    Before,
    Inputs,
    Label,
    Ops,
}

/// The traces that are done, and the one that is open with its boxes and the number of its guards.
#[derive(Drop)]
pub struct Draft {
    pub phase: Phase,
    pub name: Text,
    pub origin: Origin,
    pub label: bool,
    pub inputs: List<BoxId>,
    pub ops: List<Op>,
    pub seen: Boxes,
    pub guards: u32,
    pub done: List<Trace>,
}

fn counted(guards: u32, code: OpCode) -> u32
    ensures { result ≡ counted guards code }
{
    if is_guard(code) {
        return guards.saturating_add(1);
    }
    guards
}

fn is_open(phase: Phase) -> bool
    ensures { result ≡ is_open phase }
{
    match phase {
        Phase::Before => false,
        Phase::Inputs => false,
        Phase::Label => true,
        Phase::Ops => true,
    }
}

/// Whether a heading is open that has no inputs yet.
pub fn lacks_inputs(phase: Phase) -> bool
    ensures { result ≡ lacks_inputs phase }
{
    match phase {
        Phase::Inputs => true,
        Phase::Before => false,
        Phase::Label => false,
        Phase::Ops => false,
    }
}

fn add_op(draft: &mut Draft, code: OpCode, op: Op) -> Result<(), AllocError>
    ensures { OnOk result (draft.new ≡ with_op code op draft.old) }
{
    draft.seen.note(&op.result)?;
    draft.ops.push(op)?;
    draft.guards = counted(draft.guards, code);
    draft.phase = Phase::Ops;
    Ok(())
}

/// Adds the operation of a line that is not refused.
pub fn put_line(
    alloc: Global,
    names: &Lexicon,
    line: &Line,
    draft: &mut Draft,
) -> Result<(), AllocError>
    ensures { OnOk result (draft.new ≡ put_line names.now line.now draft.old) }
{
    let Some(code) = code_of(line.name.bytes()) else {
        return Ok(());
    };
    let name = draft.name;
    let op = op_of(alloc, names, &name, draft.guards, code, line)?;
    add_op(draft, code, op)
}

/// Notes the label of the open trace.
pub fn put_label(draft: &mut Draft)
    ensures { draft.new ≡ labelled draft.old }
{
    draft.phase = Phase::Ops;
    draft.label = true;
}

/// Gives the open trace its inputs.
pub fn put_inputs(inputs: List<BoxId>, draft: &mut Draft) -> Result<(), AllocError>
    ensures { OnOk result (draft.new ≡ put_inputs inputs draft.old) }
{
    draft.seen.note_all(inputs.items())?;
    draft.inputs = inputs;
    draft.phase = Phase::Label;
    Ok(())
}

fn close(alloc: Global, draft: &mut Draft) -> Result<(), AllocError>
    ensures { OnOk result (draft.new ≡ record (closed draft.old) { inputs = []; ops = [] }) }
{
    let inputs = std::mem::replace(&mut draft.inputs, List::of(Vec::new(alloc)));
    let ops = std::mem::replace(&mut draft.ops, List::of(Vec::new(alloc)));
    draft.done.push(Trace {
        name: draft.name,
        origin: draft.origin,
        label: draft.label,
        inputs,
        ops,
    })?;
    Ok(())
}

fn begin(alloc: Global, heading: &Heading, draft: &mut Draft)
    ensures { draft.new ≡ begun heading.now draft.old }
{
    draft.phase = Phase::Inputs;
    draft.name = heading.name;
    draft.origin = heading.origin;
    draft.label = false;
    draft.inputs = List::of(Vec::new(alloc));
    draft.ops = List::of(Vec::new(alloc));
    draft.seen = Boxes::new(alloc);
    draft.guards = 0;
}

/// Closes the open trace, if there is one, and opens the next.
pub fn change(alloc: Global, heading: &Heading, draft: &mut Draft) -> Result<(), AllocError>
    ensures { OnOk result (draft.new ≡ begun heading.now (closed_if draft.old)) }
{
    if is_open(draft.phase) {
        close(alloc, draft)?;
    }
    begin(alloc, heading, draft);
    Ok(())
}

/// No trace, and no heading.
pub fn nothing(alloc: Global) -> Draft
    ensures { result ≡ nothing }
{
    Draft {
        phase: Phase::Before,
        name: Text::new(b""),
        origin: Origin::Loop,
        label: false,
        inputs: List::of(Vec::new(alloc)),
        ops: List::of(Vec::new(alloc)),
        seen: Boxes::new(alloc),
        guards: 0,
        done: List::of(Vec::new(alloc)),
    }
}

/// How many traces there are, the open one among them.
pub fn trace_count(draft: &Draft) -> usize
    ensures { result ≡ trace_count draft.now }
{
    if is_open(draft.phase) {
        return draft.done.items().len() + 1;
    }
    draft.done.items().len()
}

/// The traces, where the last one has its inputs. The line behind them has the number `end`.
pub fn finish(alloc: Global, end: u32, mut draft: Draft) -> Result<List<Trace>, TextFault>
    ensures { Gives result (finished end draft) }
{
    if lacks_inputs(draft.phase) {
        return Err(TextFault::Syntax { line: end });
    }
    if is_open(draft.phase) {
        match close(alloc, &mut draft) {
            Ok(()) => {}
            Err(_) => return Err(TextFault::OutOfMemory),
        }
    }
    Ok(std::mem::replace(&mut draft.done, List::of(Vec::new(alloc))))
}
