//! The lines that write a set.

ghost use Rattle.std.specs.Prelude.{◌≡◌, ◌++◌, ◌∷◌, [], ℕ, pos, List, Ok, OnOk, IfOk, nat_lt, length};
ghost use Rattle.std.specs.List.{flat_map};
ghost use Rattle.std.specs.Fmt.{signed_decimal};
ghost use Rattle.descr_table.specs.Names.{size_name, field_name, array_name, prebuilt_name, vtable_name, call_name, function_name};
ghost use Rattle.trace_text.specs.Sections.{set_at};
ghost use Rattle.trace_text.specs.Writing.{letter, box_text, class_text, object_text, arg_text, more_args, args_text, more_boxes, boxes_text, comma_if, cited_text, descr_text, frame_text, snapshot_text, made_text, guard_text, origin_text, call_text, op_line, inputs_line, label_line, heading_line, trace_lines, set_text};

use descr_table::{
    array_name, call_name, field_name, function_name, prebuilt_name, size_name, table_laws,
    tables_are_read_back, vtable_name, write_table,
};
use std::alloc::{AllocError, Global};
use text_lines::{lines_are_spelled, put_integer};
use trace_ops::{
    Arg, BoxId, Descr, Frame, Kind, Op, OpCode, Origin, Table, Text, Trace, TraceSet, name_of,
};

fn letter(kind: Kind) -> u8
    ensures { result ≡ letter kind }
{
    match kind {
        Kind::Int => b'i',
        Kind::Ref => b'p',
    }
}

#[tactic(auto, unfolding(crate::specs::Writing::box_text))]
fn put_box(out: &mut Vec<u8>, of: &BoxId) -> Result<(), AllocError>
    ensures { OnOk result (out.new.items ≡ out.old.items ++ box_text of.now) }
{
    out.push(letter(of.kind))?;
    put_integer(out, of.number as i64)
}

#[tactic(auto, unfolding(crate::specs::Writing::class_text))]
fn put_class(out: &mut Vec<u8>, name: &[u8]) -> Result<(), AllocError>
    ensures { OnOk result (out.new.items ≡ out.old.items ++ class_text name.now) }
{
    out.extend_from_slice(b"ConstClass(")?;
    out.extend_from_slice(name)?;
    out.push(b')')?;
    Ok(())
}

#[tactic(auto, unfolding(crate::specs::Writing::object_text))]
fn put_object(out: &mut Vec<u8>, name: &[u8]) -> Result<(), AllocError>
    ensures { OnOk result (out.new.items ≡ out.old.items ++ object_text name.now) }
{
    out.extend_from_slice(b"ConstPtr(")?;
    out.extend_from_slice(name)?;
    out.push(b')')?;
    Ok(())
}

#[tactic(auto, unfolding(crate::specs::Writing::arg_text))]
pub(crate) fn put_arg(out: &mut Vec<u8>, table: &Table, arg: &Arg) -> Result<(), AllocError>
    ensures { OnOk result (out.new.items ≡ out.old.items ++ arg_text table.now arg.now) }
{
    match arg {
        Arg::Of(of) => put_box(out, of),
        Arg::Const(z) => put_integer(out, *z),
        Arg::Null => out.extend_from_slice(b"NULL"),
        Arg::Class(k) => put_class(out, vtable_name(table, *k)),
        Arg::Func(k) => put_class(out, function_name(table, *k)),
        Arg::Ptr(k) => put_object(out, prebuilt_name(table, *k)),
    }
}

fn put_more_args(out: &mut Vec<u8>, table: &Table, args: &[Arg]) -> Result<(), AllocError>
    ensures { OnOk result (out.new.items ≡ out.old.items ++ more_args table.now args.now) }
{
    for arg in args {
        out.extend_from_slice(b", ")?;
        put_arg(out, table, arg)?;
    }
    Ok(())
}

#[tactic(auto, unfolding(crate::specs::Writing::args_text))]
pub(crate) fn put_args(out: &mut Vec<u8>, table: &Table, args: &[Arg]) -> Result<(), AllocError>
    ensures { OnOk result (out.new.items ≡ out.old.items ++ args_text table.now args.now) }
{
    match args {
        [] => Ok(()),
        [first, more @ ..] => {
            put_arg(out, table, first)?;
            put_more_args(out, table, more)
        }
    }
}

fn put_more_boxes(out: &mut Vec<u8>, boxes: &[BoxId]) -> Result<(), AllocError>
    ensures { OnOk result (out.new.items ≡ out.old.items ++ more_boxes boxes.now) }
{
    for of in boxes {
        out.extend_from_slice(b", ")?;
        put_box(out, of)?;
    }
    Ok(())
}

#[tactic(auto, unfolding(crate::specs::Writing::boxes_text))]
pub(crate) fn put_boxes(out: &mut Vec<u8>, boxes: &[BoxId]) -> Result<(), AllocError>
    ensures { OnOk result (out.new.items ≡ out.old.items ++ boxes_text boxes.now) }
{
    match boxes {
        [] => Ok(()),
        [first, more @ ..] => {
            put_box(out, first)?;
            put_more_boxes(out, more)
        }
    }
}

fn put_comma_if(out: &mut Vec<u8>, behind: bool) -> Result<(), AllocError>
    ensures { OnOk result (out.new.items ≡ out.old.items ++ comma_if behind) }
{
    if behind {
        return out.extend_from_slice(b", ");
    }
    Ok(())
}

#[tactic(auto, unfolding(crate::specs::Writing::cited_text))]
fn put_cited(out: &mut Vec<u8>, behind: bool, name: &[u8]) -> Result<(), AllocError>
    ensures { OnOk result (out.new.items ≡ out.old.items ++ cited_text behind name.now) }
{
    put_comma_if(out, behind)?;
    out.extend_from_slice(b"descr=")?;
    out.extend_from_slice(name)
}

#[tactic(auto, unfolding(crate::specs::Writing::descr_text))]
fn put_descr(
    out: &mut Vec<u8>,
    table: &Table,
    behind: bool,
    descr: &Descr,
) -> Result<(), AllocError>
    ensures { OnOk result (out.new.items ≡ out.old.items ++ descr_text table.now behind descr.now) }
{
    match descr {
        Descr::No => Ok(()),
        Descr::Size(k) => put_cited(out, behind, size_name(table, *k)),
        Descr::Field(k) => put_cited(out, behind, field_name(table, *k)),
        Descr::Array(k) => put_cited(out, behind, array_name(table, *k)),
        Descr::Call(k) => put_cited(out, behind, call_name(table, *k)),
        Descr::Target(name) => put_cited(out, behind, name.bytes()),
    }
}

#[tactic(auto, unfolding(crate::specs::Writing::frame_text))]
fn put_frame(out: &mut Vec<u8>, table: &Table, frame: &Frame) -> Result<(), AllocError>
    ensures { OnOk result (out.new.items ≡ out.old.items ++ frame_text table.now frame.now) }
{
    out.push(b'@')?;
    out.extend_from_slice(frame.name.bytes())?;
    out.push(b':')?;
    put_integer(out, frame.pc as i64)?;
    out.push(b'[')?;
    put_args(out, table, frame.slots.items())?;
    out.push(b']')?;
    Ok(())
}

fn put_frames(out: &mut Vec<u8>, table: &Table, frames: &[Frame]) -> Result<(), AllocError>
    ensures { OnOk result (out.new.items ≡ out.old.items ++ flat_map (λ g. frame_text table.now g) frames.now) }
{
    for frame in frames {
        put_frame(out, table, frame)?;
    }
    Ok(())
}

#[tactic(auto, unfolding(crate::specs::Writing::snapshot_text))]
fn put_snapshot(out: &mut Vec<u8>, table: &Table, frames: &[Frame]) -> Result<(), AllocError>
    ensures { OnOk result (out.new.items ≡ out.old.items ++ snapshot_text table.now frames.now) }
{
    match frames {
        [] => Ok(()),
        _ => {
            out.push(b' ')?;
            put_frames(out, table, frames)
        }
    }
}

#[tactic(auto, unfolding(crate::specs::Writing::made_text))]
pub(crate) fn put_made(out: &mut Vec<u8>, made: &Option<BoxId>) -> Result<(), AllocError>
    ensures { OnOk result (out.new.items ≡ out.old.items ++ made_text made.now) }
{
    match made {
        None => Ok(()),
        Some(of) => {
            put_box(out, of)?;
            out.extend_from_slice(b" = ")
        }
    }
}

#[tactic(auto, unfolding(crate::specs::Writing::call_text))]
pub(crate) fn put_call(
    out: &mut Vec<u8>,
    table: &Table,
    code: OpCode,
    args: &[Arg],
    descr: &Descr,
) -> Result<(), AllocError>
    ensures { OnOk result (out.new.items ≡ out.old.items ++ call_text table.now code args.now descr.now) }
{
    out.extend_from_slice(name_of(code))?;
    out.push(b'(')?;
    put_args(out, table, args)?;
    put_descr(out, table, 0 < args.len(), descr)?;
    out.push(b')')?;
    Ok(())
}

pub(crate) fn end_line(out: &mut Vec<u8>) -> Result<(), AllocError>
    ensures { OnOk result (out.new.items ≡ out.old.items ++ 10 ∷ []) }
{
    out.push(b'\n')?;
    Ok(())
}

#[tactic(auto, unfolding(crate::specs::Writing::op_line))]
fn put_op(out: &mut Vec<u8>, table: &Table, op: &Op) -> Result<(), AllocError>
    ensures { OnOk result (out.new.items ≡ out.old.items ++ op_line table.now op.now) }
{
    put_made(out, &op.result)?;
    put_call(out, table, op.code, op.args.items(), &op.descr)?;
    put_snapshot(out, table, op.snapshot.items())?;
    end_line(out)
}

fn put_ops(out: &mut Vec<u8>, table: &Table, ops: &[Op]) -> Result<(), AllocError>
    ensures { OnOk result (out.new.items ≡ out.old.items ++ flat_map (λ op. op_line table.now op) ops.now) }
{
    for op in ops {
        put_op(out, table, op)?;
    }
    Ok(())
}

#[tactic(auto, unfolding(crate::specs::Writing::inputs_line))]
fn put_inputs(out: &mut Vec<u8>, inputs: &[BoxId]) -> Result<(), AllocError>
    ensures { OnOk result (out.new.items ≡ out.old.items ++ inputs_line inputs.now) }
{
    out.push(b'[')?;
    put_boxes(out, inputs)?;
    out.extend_from_slice(b"]\n")
}

#[tactic(auto, unfolding(crate::specs::Writing::label_line))]
fn put_label(out: &mut Vec<u8>, label: bool, inputs: &[BoxId]) -> Result<(), AllocError>
    ensures { OnOk result (out.new.items ≡ out.old.items ++ label_line label inputs.now) }
{
    if !label {
        return Ok(());
    }
    out.extend_from_slice(b"label(")?;
    put_boxes(out, inputs)?;
    out.extend_from_slice(b")\n")
}

pub(crate) fn put_guard(out: &mut Vec<u8>, parent: &[u8], guard: u32) -> Result<(), AllocError>
    ensures { OnOk result (out.new.items ≡ out.old.items ++ guard_text parent.now guard) }
{
    out.extend_from_slice(parent)?;
    out.push(b'/')?;
    put_integer(out, guard as i64)
}

#[tactic(auto, unfolding(crate::specs::Writing::origin_text))]
fn put_origin(out: &mut Vec<u8>, origin: &Origin, name: &Text) -> Result<(), AllocError>
    ensures { OnOk result (out.new.items ≡ out.old.items ++ origin_text origin.now name.now) }
{
    match origin {
        Origin::Loop => {
            out.extend_from_slice(b"%loop ")?;
            out.extend_from_slice(name.bytes())
        }
        Origin::Bridge { parent, guard } => {
            out.extend_from_slice(b"%bridge ")?;
            out.extend_from_slice(name.bytes())?;
            out.extend_from_slice(b" from ")?;
            put_guard(out, parent.bytes(), *guard)
        }
    }
}

#[tactic(auto, unfolding(crate::specs::Writing::heading_line))]
fn put_heading(out: &mut Vec<u8>, trace: &Trace) -> Result<(), AllocError>
    ensures { OnOk result (out.new.items ≡ out.old.items ++ heading_line trace.now) }
{
    put_origin(out, &trace.origin, &trace.name)?;
    end_line(out)
}

#[tactic(auto, unfolding(crate::specs::Writing::trace_lines))]
fn put_trace(out: &mut Vec<u8>, table: &Table, trace: &Trace) -> Result<(), AllocError>
    ensures { OnOk result (out.new.items ≡ out.old.items ++ trace_lines table.now trace.now) }
{
    put_heading(out, trace)?;
    put_inputs(out, trace.inputs.items())?;
    put_label(out, trace.label, trace.inputs.items())?;
    put_ops(out, table, trace.ops.items())
}

fn put_traces(out: &mut Vec<u8>, table: &Table, traces: &[Trace]) -> Result<(), AllocError>
    ensures { OnOk result (out.new.items ≡ out.old.items ++ flat_map (λ tr. trace_lines table.now tr) traces.now) }
{
    for trace in traces {
        put_trace(out, table, trace)?;
    }
    Ok(())
}

/// The text of a set: the table behind `%table`, then each trace behind its heading. Each frame is written with its name
/// and its pc. A set that some text stands for is what its own text stands for, without a session.
pub fn write_set(alloc: Global, set: &TraceSet) -> Result<Vec<u8>, AllocError>
    ensures text { IfOk result (λ v. v.items ≡ set_text set.now) }
    ensures read_back { IfOk result (λ v. (text : List ℕ) (place : ℕ) → set_at text ≡ Ok (set.now, place) → set_at v.items ≡ Ok (set.now, length v.items)) }
{
    lines_are_spelled();
    table_laws();
    tables_are_read_back();
    let mut out = Vec::new(alloc);
    out.extend_from_slice(b"%table\n")?;
    let rows = write_table(alloc, &set.table)?;
    out.extend_from_slice(rows.as_slice())?;
    put_traces(&mut out, &set.table, set.traces.items())?;
    Ok(out)
}
