//! The lines that write the pieces of optimised traces.

ghost use Rattle.std.specs.Prelude.{◌≡◌, ◌++◌, ◌∷◌, [], OnOk, IfOk, pos};
ghost use Rattle.std.specs.List.{flat_map};
ghost use Rattle.trace_text.specs.PieceWriting.{virtual_text, name_in, trace_name, half_text, piece_name, value_text, more_values, values_text, opt_frame_text, shape_text, numbered_text, more_shapes, shapes_text, spot_text, store_text, more_stores, stores_text, left_text, listed_text, finished_text, piece_op_text, piece_op_line, piece_heading, piece_lines, opt_lines, opt_text};

use crate::writing::{end_line, put_arg, put_args, put_boxes, put_call, put_guard, put_made};
use descr_table::{array_name, field_name, size_name};
use std::alloc::{AllocError, Global};
use text_lines::put_integer;
use trace_ops::{
    Arg, Half, OptFrame, OptOp, OptTrace, Pending, Piece, PieceId, Shape, ShapeOf, Snapshot, Spot,
    Table, TraceSet, Val, name_of,
};

#[tactic(auto, unfolding(crate::specs::PieceWriting::virtual_text))]
fn put_virtual(out: &mut Vec<u8>, number: usize) -> Result<(), AllocError>
    ensures { OnOk result (out.new.items ≡ out.old.items ++ virtual_text number) }
{
    let digits = number.to_string(*out.allocator())?;
    out.push(b'v')?;
    out.extend_from_slice(digits.as_bytes())
}

/// The name of a trace by its place; nothing for what isn't there.
pub fn trace_name(set: &TraceSet, k: u32) -> &[u8]
    ensures { result.now ≡ trace_name set.now k }
{
    match set.traces.items().get(k as usize) {
        None => &[],
        Some(trace) => trace.name.bytes(),
    }
}

fn put_half(out: &mut Vec<u8>, half: Half) -> Result<(), AllocError>
    ensures { OnOk result (out.new.items ≡ out.old.items ++ half_text half) }
{
    match half {
        Half::Pre => out.extend_from_slice(b".a"),
        Half::Body => out.extend_from_slice(b".b"),
    }
}

#[tactic(auto, unfolding(crate::specs::PieceWriting::piece_name))]
fn put_piece_name(out: &mut Vec<u8>, set: &TraceSet, id: PieceId) -> Result<(), AllocError>
    ensures { OnOk result (out.new.items ≡ out.old.items ++ piece_name set.now id) }
{
    out.extend_from_slice(trace_name(set, id.trace))?;
    put_half(out, id.half)
}

#[tactic(auto, unfolding(crate::specs::PieceWriting::value_text))]
fn put_value(out: &mut Vec<u8>, table: &Table, value: &Val) -> Result<(), AllocError>
    ensures { OnOk result (out.new.items ≡ out.old.items ++ value_text table.now value.now) }
{
    match value {
        Val::Known(arg) => put_arg(out, table, arg),
        Val::Virtual(k) => put_virtual(out, *k as usize),
    }
}

fn put_more_values(out: &mut Vec<u8>, table: &Table, values: &[Val]) -> Result<(), AllocError>
    ensures { OnOk result (out.new.items ≡ out.old.items ++ more_values table.now values.now) }
{
    for value in values {
        out.extend_from_slice(b", ")?;
        put_value(out, table, value)?;
    }
    Ok(())
}

#[tactic(auto, unfolding(crate::specs::PieceWriting::values_text))]
fn put_values(out: &mut Vec<u8>, table: &Table, values: &[Val]) -> Result<(), AllocError>
    ensures { OnOk result (out.new.items ≡ out.old.items ++ values_text table.now values.now) }
{
    match values {
        [] => Ok(()),
        [first, more @ ..] => {
            put_value(out, table, first)?;
            put_more_values(out, table, more)
        }
    }
}

#[tactic(auto, unfolding(crate::specs::PieceWriting::opt_frame_text))]
fn put_frame(out: &mut Vec<u8>, table: &Table, frame: &OptFrame) -> Result<(), AllocError>
    ensures { OnOk result (out.new.items ≡ out.old.items ++ opt_frame_text table.now frame.now) }
{
    out.push(b'@')?;
    out.extend_from_slice(frame.name.bytes())?;
    out.push(b':')?;
    put_integer(out, frame.pc as i64)?;
    out.push(b'[')?;
    put_values(out, table, frame.slots.items())?;
    out.push(b']')?;
    Ok(())
}

fn put_frames(out: &mut Vec<u8>, table: &Table, frames: &[OptFrame]) -> Result<(), AllocError>
    ensures { OnOk result (out.new.items ≡ out.old.items ++ flat_map (λ f. opt_frame_text table.now f) frames.now) }
{
    for frame in frames {
        put_frame(out, table, frame)?;
    }
    Ok(())
}

#[tactic(auto, unfolding(crate::specs::PieceWriting::shape_text))]
fn put_shape(out: &mut Vec<u8>, table: &Table, shape: &Shape) -> Result<(), AllocError>
    ensures { OnOk result (out.new.items ≡ out.old.items ++ shape_text table.now shape.now) }
{
    match shape.of {
        ShapeOf::Size(k) => {
            out.extend_from_slice(size_name(table, k))?;
            out.push(b'(')?;
            put_values(out, table, shape.parts.items())?;
            out.push(b')')?;
            Ok(())
        }
        ShapeOf::Array(k) => {
            out.extend_from_slice(array_name(table, k))?;
            out.push(b'[')?;
            put_values(out, table, shape.parts.items())?;
            out.push(b']')?;
            Ok(())
        }
    }
}

#[tactic(auto, unfolding(crate::specs::PieceWriting::numbered_text))]
fn put_numbered(
    out: &mut Vec<u8>,
    table: &Table,
    number: usize,
    shape: &Shape,
) -> Result<(), AllocError>
    ensures { OnOk result (out.new.items ≡ out.old.items ++ numbered_text table.now number shape.now) }
{
    put_virtual(out, number)?;
    out.push(b'=')?;
    put_shape(out, table, shape)
}

// Shapes, numbered on, from the second.
fn put_more_shapes(out: &mut Vec<u8>, table: &Table, shapes: &[Shape]) -> Result<(), AllocError>
    ensures { OnOk result (out.new.items ≡ out.old.items ++ more_shapes table.now 1 shapes.now) }
{
    for k in 0..shapes.len() {
        out.extend_from_slice(b", ")?;
        put_numbered(out, table, k + 1, &shapes[k])?;
    }
    Ok(())
}

#[tactic(auto, unfolding(crate::specs::PieceWriting::shapes_text))]
fn put_shapes(out: &mut Vec<u8>, table: &Table, shapes: &[Shape]) -> Result<(), AllocError>
    ensures { OnOk result (out.new.items ≡ out.old.items ++ shapes_text table.now shapes.now) }
{
    match shapes {
        [] => Ok(()),
        [first, more @ ..] => {
            out.extend_from_slice(b" where ")?;
            put_numbered(out, table, 0, first)?;
            put_more_shapes(out, table, more)
        }
    }
}

#[tactic(auto, unfolding(crate::specs::PieceWriting::spot_text))]
fn put_spot(out: &mut Vec<u8>, table: &Table, spot: Spot) -> Result<(), AllocError>
    ensures { OnOk result (out.new.items ≡ out.old.items ++ spot_text table.now spot) }
{
    match spot {
        Spot::Field(k) => out.extend_from_slice(field_name(table, k)),
        Spot::Item(array, index) => {
            out.extend_from_slice(array_name(table, array))?;
            out.push(b'[')?;
            put_integer(out, index)?;
            out.push(b']')?;
            Ok(())
        }
    }
}

#[tactic(auto, unfolding(crate::specs::PieceWriting::store_text))]
fn put_store(out: &mut Vec<u8>, table: &Table, store: &Pending) -> Result<(), AllocError>
    ensures { OnOk result (out.new.items ≡ out.old.items ++ store_text table.now store.now) }
{
    put_arg(out, table, &store.base)?;
    out.push(b'.')?;
    put_spot(out, table, store.spot)?;
    out.push(b'=')?;
    put_value(out, table, &store.value)
}

fn put_more_stores(out: &mut Vec<u8>, table: &Table, stores: &[Pending]) -> Result<(), AllocError>
    ensures { OnOk result (out.new.items ≡ out.old.items ++ more_stores table.now stores.now) }
{
    for store in stores {
        out.extend_from_slice(b", ")?;
        put_store(out, table, store)?;
    }
    Ok(())
}

#[tactic(auto, unfolding(crate::specs::PieceWriting::stores_text))]
fn put_stores(out: &mut Vec<u8>, table: &Table, stores: &[Pending]) -> Result<(), AllocError>
    ensures { OnOk result (out.new.items ≡ out.old.items ++ stores_text table.now stores.now) }
{
    match stores {
        [] => Ok(()),
        [first, more @ ..] => {
            out.extend_from_slice(b" pending ")?;
            put_store(out, table, first)?;
            put_more_stores(out, table, more)
        }
    }
}

#[tactic(auto, unfolding(crate::specs::PieceWriting::left_text))]
fn put_left(
    out: &mut Vec<u8>,
    set: &TraceSet,
    trace: u32,
    guard: u32,
    snap: &Snapshot,
) -> Result<(), AllocError>
    ensures { OnOk result (out.new.items ≡ out.old.items ++ left_text set.now trace guard snap.now) }
{
    put_guard(out, trace_name(set, trace), guard)?;
    out.push(b' ')?;
    put_frames(out, &set.table, snap.frames.items())?;
    put_shapes(out, &set.table, snap.shapes.items())?;
    put_stores(out, &set.table, snap.pending.items())
}

#[tactic(auto, unfolding(crate::specs::PieceWriting::listed_text))]
fn put_listed(out: &mut Vec<u8>, table: &Table, args: &[Arg]) -> Result<(), AllocError>
    ensures { OnOk result (out.new.items ≡ out.old.items ++ listed_text table.now args.now) }
{
    out.push(b'(')?;
    put_args(out, table, args)?;
    out.push(b')')?;
    Ok(())
}

fn put_finished(out: &mut Vec<u8>, table: &Table, value: &Option<Arg>) -> Result<(), AllocError>
    ensures { OnOk result (out.new.items ≡ out.old.items ++ finished_text table.now value.now) }
{
    match value {
        None => Ok(()),
        Some(arg) => put_arg(out, table, arg),
    }
}

#[tactic(auto, unfolding(crate::specs::PieceWriting::piece_op_text))]
fn put_op(out: &mut Vec<u8>, set: &TraceSet, trace: u32, op: &OptOp) -> Result<(), AllocError>
    ensures { OnOk result (out.new.items ≡ out.old.items ++ piece_op_text set.now trace op.now) }
{
    match op {
        OptOp::Plain {
            code,
            result,
            args,
            descr,
        } => {
            put_made(out, result)?;
            put_call(out, &set.table, *code, args.items(), descr)
        }
        OptOp::Guard {
            code,
            args,
            guard,
            snap,
        } => {
            out.extend_from_slice(name_of(*code))?;
            put_listed(out, &set.table, args.items())?;
            out.push(b' ')?;
            put_left(out, set, trace, *guard, snap)
        }
        OptOp::Exit { guard, snap } => {
            out.extend_from_slice(b"exit ")?;
            put_left(out, set, trace, *guard, snap)
        }
        OptOp::Jump { to, args } => {
            out.extend_from_slice(b"jump ")?;
            put_piece_name(out, set, *to)?;
            put_listed(out, &set.table, args.items())
        }
        OptOp::Finish { value } => {
            out.extend_from_slice(b"finish(")?;
            put_finished(out, &set.table, value)?;
            out.push(b')')?;
            Ok(())
        }
    }
}

fn put_op_line(out: &mut Vec<u8>, set: &TraceSet, trace: u32, op: &OptOp) -> Result<(), AllocError>
    ensures { OnOk result (out.new.items ≡ out.old.items ++ piece_op_line set.now trace op.now) }
{
    put_op(out, set, trace, op)?;
    end_line(out)
}

fn put_ops(out: &mut Vec<u8>, set: &TraceSet, trace: u32, ops: &[OptOp]) -> Result<(), AllocError>
    ensures { OnOk result (out.new.items ≡ out.old.items ++ flat_map (λ o. piece_op_line set.now trace o) ops.now) }
{
    for op in ops {
        put_op_line(out, set, trace, op)?;
    }
    Ok(())
}

#[tactic(auto, unfolding(crate::specs::PieceWriting::piece_heading))]
fn put_heading(out: &mut Vec<u8>, set: &TraceSet, piece: &Piece) -> Result<(), AllocError>
    ensures { OnOk result (out.new.items ≡ out.old.items ++ piece_heading set.now piece.now) }
{
    out.extend_from_slice(b"piece ")?;
    put_piece_name(out, set, piece.id)?;
    out.extend_from_slice(b" [")?;
    put_boxes(out, piece.label.items())?;
    out.extend_from_slice(b"]\n")
}

#[tactic(auto, unfolding(crate::specs::PieceWriting::piece_lines))]
fn put_piece(out: &mut Vec<u8>, set: &TraceSet, piece: &Piece) -> Result<(), AllocError>
    ensures { OnOk result (out.new.items ≡ out.old.items ++ piece_lines set.now piece.now) }
{
    put_heading(out, set, piece)?;
    put_ops(out, set, piece.id.trace, piece.ops.items())
}

fn put_pieces(out: &mut Vec<u8>, set: &TraceSet, pieces: &[Piece]) -> Result<(), AllocError>
    ensures { OnOk result (out.new.items ≡ out.old.items ++ flat_map (λ p. piece_lines set.now p) pieces.now) }
{
    for piece in pieces {
        put_piece(out, set, piece)?;
    }
    Ok(())
}

fn put_opt(out: &mut Vec<u8>, set: &TraceSet, opt: &[OptTrace]) -> Result<(), AllocError>
    ensures { OnOk result (out.new.items ≡ out.old.items ++ flat_map (λ o. opt_lines set.now o) opt.now) }
{
    for one in opt {
        put_pieces(out, set, one.pieces.items())?;
    }
    Ok(())
}

/// The text of optimised traces behind `%opt`: the pieces of each, in order, an operation a line. A guard names its
/// recorded trace and its place among the guards there, and then its frames, its virtual objects behind `where` and its
/// pending stores behind `pending`, where there are some.
pub fn write_opt(alloc: Global, set: &TraceSet, opt: &[OptTrace]) -> Result<Vec<u8>, AllocError>
    ensures text { IfOk result (λ v. v.items ≡ opt_text set.now opt.now) }
{
    let mut out = Vec::new(alloc);
    out.extend_from_slice(b"%opt\n")?;
    put_opt(&mut out, set, opt)?;
    Ok(out)
}
