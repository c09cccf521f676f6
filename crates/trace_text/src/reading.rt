//! One line of a trace after the other.

ghost use Rattle.std.specs.Prelude.{◌≡◌, ◌<◌, ◌+◌, ◌^◌, ◌&&◌, ◌==◌, not, IfOk, length, map};
ghost use Rattle.std.specs.List.{list_any};
ghost use Rattle.text_lines.specs.Lines.{lines};
ghost use Rattle.text_lines.specs.Words.{words};
ghost use Rattle.trace_ops.specs.InRange.{most_inputs};
ghost use Rattle.trace_text.specs.Line.{op_at, inputs_at};
ghost use Rattle.trace_text.specs.Heading.{heading_at};
ghost use Rattle.trace_text.specs.Faults.{Gives};
ghost use Rattle.trace_text.specs.Draft.{is_kind, is_input, repeats, is_behind_inputs, makes_none, is_label, read_label, read_op, heading_refusal, read_heading, is_box, input_of, slots_of, inputs_refusal, read_values, is_ended, read_inputs, has_key, is_section, read_body, read_in, read_line, lines_at, Leaves};

use crate::draft::{
    Draft, Phase, change, lacks_inputs, nothing, put_inputs, put_label, put_line, trace_count,
};
use crate::fault::{Refusal, TextFault, fault_at};
use crate::heading::{heading_at, is_merge};
use crate::lexicon::Lexicon;
use crate::line::{Line, Place, Slots, inputs_at, op_at};
use crate::meaning::box_id;
use crate::refusal::{first_refusal, floats};
use crate::value::Value;
use std::alloc::{AllocError, Global};
use text_lines::{Letter, is_plain, is_skipped, next_line, next_word};
use trace_ops::{BoxId, Kind, List, Origin, What};

fn is_kind(letter: Letter, kind: Kind) -> bool
    ensures { result ≡ is_kind letter kind }
{
    match (letter, kind) {
        (Letter::Int, Kind::Int) => true,
        (Letter::Int, Kind::Ref) => false,
        (Letter::Ref, Kind::Int) => false,
        (Letter::Ref, Kind::Ref) => true,
        (Letter::Float, _) => false,
    }
}

fn is_input(value: &Value, input: &BoxId) -> bool
    ensures { result ≡ is_input value.now input.now }
{
    match value {
        Value::Of(letter, number) => is_kind(*letter, input.kind) && *number == input.number,
        _ => false,
    }
}

#[tactic(auto, unfolding(crate::specs::Draft::repeats))]
fn repeats(values: &[Value], inputs: &[BoxId]) -> bool
    ensures { result ≡ repeats values.now inputs.now }
{
    let mut rest = inputs;
    for value in values {
        let Some((input, after)) = rest.split_first() else {
            return false;
        };
        if !is_input(value, input) {
            return false;
        }
        rest = after;
    }
    rest.is_empty()
}

fn is_behind_inputs(phase: Phase) -> bool
    ensures { result ≡ is_behind_inputs phase }
{
    match phase {
        Phase::Label => true,
        Phase::Before => false,
        Phase::Inputs => false,
        Phase::Ops => false,
    }
}

fn is_label(draft: &Draft, line: &Line) -> bool
    ensures { result ≡ is_label draft.now line.now }
{
    (is_behind_inputs(draft.phase) && line.made.is_none())
        && (line.frames.items().len() == 0 && repeats(line.args.items(), draft.inputs.items()))
}

fn read_label(number: u32, line: &Line, draft: &mut Draft) -> Result<(), TextFault>
    ensures { Leaves result draft.new (read_label number draft.old line.now) }
{
    if !is_label(draft, line) {
        return Err(TextFault::Syntax { line: number });
    }
    put_label(draft);
    Ok(())
}

fn read_known(
    alloc: Global,
    names: &Lexicon,
    number: u32,
    line: &Line,
    draft: &mut Draft,
) -> Result<(), TextFault>
    ensures { Leaves result draft.new (read_op names.now number draft.old (Some line.now)) }
{
    if line.name.is(b"label") {
        return read_label(number, line, draft);
    }
    if let Some(why) = first_refusal(names, &draft.seen, draft.ops.items().len(), line) {
        return Err(fault_at(number, why));
    }
    match put_line(alloc, names, line, draft) {
        Ok(()) => Ok(()),
        Err(_) => Err(TextFault::OutOfMemory),
    }
}

fn read_op(
    alloc: Global,
    names: &Lexicon,
    number: u32,
    text: &[u8],
    draft: &mut Draft,
) -> Result<(), TextFault>
    ensures { Leaves result draft.new (read_op names.now number draft.old (op_at names.now (words text.now))) }
{
    match op_at(alloc, names, text) {
        Err(_) => Err(TextFault::OutOfMemory),
        Ok(None) => Err(TextFault::Syntax { line: number }),
        Ok(Some(line)) => read_known(alloc, names, number, &line, draft),
    }
}

fn heading_refusal(draft: &Draft) -> Option<Refusal>
    ensures { result ≡ heading_refusal draft.now }
{
    if lacks_inputs(draft.phase) {
        return Some(Refusal::Syntax);
    }
    if !(trace_count(draft) < 256) {
        return Some(Refusal::Limit {
            what: What::Traces,
            count: 257,
        });
    }
    None
}

fn read_heading(alloc: Global, number: u32, text: &[u8], draft: &mut Draft) -> Result<(), TextFault>
    ensures { Leaves result draft.new (read_heading number draft.old (heading_at (words text.now))) }
{
    let Some(heading) = heading_at(text) else {
        return Err(TextFault::Syntax { line: number });
    };
    if let Some(why) = heading_refusal(draft) {
        return Err(fault_at(number, why));
    }
    match change(alloc, &heading, draft) {
        Ok(()) => Ok(()),
        Err(_) => Err(TextFault::OutOfMemory),
    }
}

fn is_box(value: &Value) -> bool
    ensures { result ≡ is_box value.now }
{
    match value {
        Value::Of(_, _) => true,
        _ => false,
    }
}

fn input_of(value: &Value) -> BoxId
    ensures { result ≡ input_of value.now }
{
    match value {
        Value::Of(letter, number) => box_id(*letter, *number),
        _ => box_id(Letter::Int, 0),
    }
}

fn inputs_of(alloc: Global, values: &[Value]) -> Result<List<BoxId>, AllocError>
    ensures { IfOk result (λ l. l ≡ map input_of values.now) }
{
    let mut inputs = Vec::with_capacity(alloc, values.len())?;
    for value in values {
        inputs.push(input_of(value))?;
    }
    Ok(List::of(inputs))
}

fn has_other(values: &[Value]) -> bool
    ensures { result ≡ list_any (λ v. not (is_box v)) values.now }
{
    values.iter().any(|v| !is_box(v))
}

fn most_inputs(origin: &Origin) -> u32
    ensures { result ≡ most_inputs origin.now }
{
    match origin {
        Origin::Loop => 64,
        Origin::Bridge { .. } => 8192,
    }
}

fn inputs_refusal(origin: &Origin, values: &[Value]) -> Option<Refusal>
    ensures { result ≡ inputs_refusal origin.now values.now }
{
    if has_other(values) {
        return Some(Refusal::Syntax);
    }
    if floats(values) {
        return Some(Refusal::Float);
    }
    let most = most_inputs(origin);
    if !(values.len() <= most as usize) {
        return Some(Refusal::Limit {
            what: What::Inputs,
            count: most as u64 + 1,
        });
    }
    None
}

fn read_values(
    alloc: Global,
    number: u32,
    values: &[Value],
    draft: &mut Draft,
) -> Result<(), TextFault>
    ensures { Leaves result draft.new (read_values number draft.old values.now) }
{
    if let Some(why) = inputs_refusal(&draft.origin, values) {
        return Err(fault_at(number, why));
    }
    let inputs = match inputs_of(alloc, values) {
        Ok(inputs) => inputs,
        Err(_) => return Err(TextFault::OutOfMemory),
    };
    match put_inputs(inputs, draft) {
        Ok(()) => Ok(()),
        Err(_) => Err(TextFault::OutOfMemory),
    }
}

fn slots_of(frames: &[Slots]) -> &[Value]
    ensures { result.now ≡ slots_of frames.now }
{
    match frames {
        [] => &[],
        [frame, ..] => frame.slots.items(),
    }
}

fn is_ended(place: Place) -> bool
    ensures { result ≡ is_ended place }
{
    match place {
        Place::Ended => true,
        _ => false,
    }
}

fn read_inputs(
    alloc: Global,
    names: &Lexicon,
    number: u32,
    text: &[u8],
    draft: &mut Draft,
) -> Result<(), TextFault>
    ensures { Leaves result draft.new (read_inputs number draft.old (inputs_at names.now (words text.now))) }
{
    let line = match inputs_at(alloc, names, text) {
        Err(_) => return Err(TextFault::OutOfMemory),
        Ok(None) => return Err(TextFault::Syntax { line: number }),
        Ok(Some(line)) => line,
    };
    if !is_ended(line.place) {
        return Err(TextFault::Syntax { line: number });
    }
    read_values(alloc, number, slots_of(line.frames.items()), draft)
}

fn has_key(key: &[u8], text: &[u8]) -> bool
    ensures { result ≡ has_key key.now (words text.now) }
{
    match next_word(text) {
        None => false,
        Some((word, _)) => word == key,
    }
}

/// Whether a line begins with `%`.
pub fn is_section(text: &[u8]) -> bool
    ensures { result ≡ is_section (words text.now) }
{
    match next_word(text) {
        None => false,
        Some((word, _)) => word.first() == Some(&b'%'),
    }
}

fn read_body(
    alloc: Global,
    names: &Lexicon,
    number: u32,
    text: &[u8],
    draft: &mut Draft,
) -> Result<(), TextFault>
    ensures { Leaves result draft.new (read_body names.now number draft.old (words text.now)) }
{
    if has_key(b"debug_merge_point", text) {
        if is_merge(text) {
            return Ok(());
        }
        return Err(TextFault::Syntax { line: number });
    }
    read_op(alloc, names, number, text, draft)
}

fn read_in(
    alloc: Global,
    names: &Lexicon,
    number: u32,
    text: &[u8],
    draft: &mut Draft,
) -> Result<(), TextFault>
    ensures { Leaves result draft.new (read_in names.now number draft.old.phase draft.old (words text.now)) }
{
    match draft.phase {
        Phase::Before => Err(TextFault::Syntax { line: number }),
        Phase::Inputs => read_inputs(alloc, names, number, text, draft),
        Phase::Label => read_body(alloc, names, number, text, draft),
        Phase::Ops => read_body(alloc, names, number, text, draft),
    }
}

// Reads one line over the earlier ones.
#[tactic(auto, unfolding(crate::specs::Draft::read_line))]
fn read_line(
    alloc: Global,
    names: &Lexicon,
    number: u32,
    text: &[u8],
    draft: &mut Draft,
) -> Result<(), TextFault>
    ensures { Leaves result draft.new (read_line names.now number text.now draft.old) }
{
    if !is_plain(text) {
        return Err(TextFault::Syntax { line: number });
    }
    if is_skipped(text) {
        return Ok(());
    }
    if is_section(text) {
        return read_heading(alloc, number, text, draft);
    }
    read_in(alloc, names, number, text, draft)
}

/// What the lines make, or the first refusal. The lines are numbered from `first_line`.
pub fn read_all(
    alloc: Global,
    names: &Lexicon,
    text: &[u8],
    first_line: u32,
) -> Result<Draft, TextFault>
    requires { first_line + length (lines text.now) < 2 ^ 32 }
    ensures { Gives result (lines_at names.now first_line text.now) }
{
    let mut draft = nothing(alloc);
    let mut number = first_line;
    let mut rest = text;
    while !rest.is_empty() {
        let (line, after) = next_line(rest);
        read_line(alloc, names, number, line, &mut draft)?;
        rest = after;
        number += 1;
    }
    Ok(draft)
}
