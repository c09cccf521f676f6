//! What the line of an operation means.

ghost use Rattle.std.specs.Prelude.{◌≡◌, ◌<◌, IfOk, map, Some};
ghost use Rattle.trace_text.specs.Meaning.{box_id, descr_for, descr_found, arg_of, frame_of, framed, made_of, descr_of, op_of};

use crate::lexicon::Lexicon;
use crate::line::{Line, Slots};
use crate::value::{Head, Value};
use std::alloc::{AllocError, Global};
use text_lines::Letter;
use trace_ops::{Arg, BoxId, Descr, Frame, Kind, List, Op, OpCode, Part, Text, part_of};

/// The box of a letter and a number.
pub fn box_id(letter: Letter, number: u32) -> BoxId
    ensures { result ≡ box_id letter number }
{
    match letter {
        Letter::Int => BoxId {
            kind: Kind::Int,
            number,
        },
        Letter::Ref => BoxId {
            kind: Kind::Ref,
            number,
        },
        Letter::Float => BoxId {
            kind: Kind::Int,
            number,
        },
    }
}

fn descr_for(names: &Lexicon, part: Part, name: &Text) -> Option<Descr>
    ensures { result ≡ descr_for names.now part name.now }
{
    match part {
        Part::Plain => names.descr_named(name),
        Part::Overflowing => names.descr_named(name),
        Part::Jump => Some(Descr::Target(*name)),
        Part::Guard => Some(Descr::No),
        Part::OverflowGuard => Some(Descr::No),
        Part::Finish => Some(Descr::No),
    }
}

/// What the descr of an operation stands for, if it is known.
pub fn descr_found(names: &Lexicon, code: Option<OpCode>, name: &Option<Text>) -> Option<Descr>
    ensures { result ≡ descr_found names.now code name.now }
{
    match code {
        None => Some(Descr::No),
        Some(code) => match name {
            None => Some(Descr::No),
            Some(name) => descr_for(names, part_of(code), name),
        },
    }
}

fn arg_of(value: &Value) -> Arg
    ensures { result ≡ arg_of value.now }
{
    match value {
        Value::Of(letter, number) => Arg::Of(box_id(*letter, *number)),
        Value::Const(z) => Arg::Const(*z),
        Value::Null => Arg::Null,
        Value::Named(arg) => *arg,
        Value::Unknown => Arg::Null,
    }
}

fn args_of(alloc: Global, values: &[Value]) -> Result<List<Arg>, AllocError>
    ensures { IfOk result (λ l. l ≡ map arg_of values.now) }
{
    let mut args = Vec::with_capacity(alloc, values.len())?;
    for value in values {
        args.push(arg_of(value))?;
    }
    Ok(List::of(args))
}

fn framed(slots: List<Arg>, own: &Text, guard: u32, head: &Head) -> Frame
    ensures { result ≡ framed slots own.now guard head.now }
{
    match head {
        Head::Plain => Frame {
            name: *own,
            pc: guard,
            slots,
        },
        Head::Named(name, pc) => Frame {
            name: *name,
            pc: *pc,
            slots,
        },
    }
}

fn frames_of(
    alloc: Global,
    own: &Text,
    guard: u32,
    frames: &[Slots],
) -> Result<List<Frame>, AllocError>
    ensures { IfOk result (λ l. l ≡ map (frame_of own.now guard) frames.now) }
{
    let mut made = Vec::new(alloc);
    for frame in frames {
        let slots = args_of(alloc, frame.slots.items())?;
        made.push(framed(slots, own, guard, &frame.head))?;
    }
    Ok(List::of(made))
}

fn made_of(made: &Option<(Letter, u32)>) -> Option<BoxId>
    ensures { result ≡ made_of made.now }
{
    match made {
        None => None,
        Some(b) => Some(box_id(b.0, b.1)),
    }
}

fn descr_of(names: &Lexicon, code: OpCode, name: &Option<Text>) -> Descr
    ensures { result ≡ descr_of names.now code name.now }
{
    descr_found(names, Some(code), name).unwrap_or(Descr::No)
}

/// The operation of a line that is not refused, in the trace `own` behind so many guards.
pub fn op_of(
    alloc: Global,
    names: &Lexicon,
    own: &Text,
    guard: u32,
    code: OpCode,
    line: &Line,
) -> Result<Op, AllocError>
    ensures { IfOk result (λ o. o ≡ op_of names.now own.now guard code line.now) }
{
    let args = args_of(alloc, line.args.items())?;
    let snapshot = frames_of(alloc, own, guard, line.frames.items())?;
    Ok(Op {
        code,
        result: made_of(&line.made),
        args,
        descr: descr_of(names, code, &line.descr),
        snapshot,
    })
}
