//! The pieces of the interpreter's loop and its bridges: numbers and the counting cell stay unmade from round to round.

use crate::interpreter::*;
use crate::making::{i, integer, p, pending, plain, reference, shape, tested};
use std::alloc::{AllocError, Global};
use trace_ops::{
    Arg, BoxId, Descr, Half, List, OpCode, OptFrame, OptOp, Pending, Piece, PieceId, Shape,
    Snapshot, Text, Val,
};

fn frame(alloc: Global, name: Text, pc: u32, slots: &[Val]) -> Result<OptFrame, AllocError> {
    let slots = Vec::from_slice(alloc, slots)?;
    Ok(OptFrame {
        name,
        pc,
        slots: List::of(slots),
    })
}

fn main_frame(alloc: Global, pc: u32, slots: &[Val]) -> Result<Vec<OptFrame>, AllocError> {
    let frame = frame(alloc, Text::new(b"main"), pc, slots)?;
    Ok(vec![in alloc; frame]?)
}

fn in_callee(
    alloc: Global,
    frames: &mut Vec<OptFrame>,
    name: Text,
    pc: u32,
    slots: &[Val],
) -> Result<(), AllocError> {
    let callee = frame(alloc, name, pc, slots)?;
    frames.push(callee)?;
    Ok(())
}

// Boxes of numbers that aren't made, each with its number.
fn unmade(alloc: Global, numbers: &[Arg]) -> Result<Vec<Shape>, AllocError> {
    let mut shapes = Vec::new(alloc);
    for number in numbers {
        let shape = shape(alloc, W_INT, &[Val::Known(*number)])?;
        shapes.push(shape)?;
    }
    Ok(shapes)
}

// The cell's count is still to be stored.
fn counting(alloc: Global, base: Arg, count: Arg) -> Result<Vec<Pending>, AllocError> {
    let store = pending(base, COUNT, Val::Known(count));
    Ok(vec![in alloc; store]?)
}

fn known(alloc: Global, frames: Vec<OptFrame>) -> Snapshot {
    Snapshot {
        frames: List::of(frames),
        shapes: List::of(Vec::new(alloc)),
        pending: List::of(Vec::new(alloc)),
    }
}

fn late(frames: Vec<OptFrame>, shapes: Vec<Shape>, pending: Vec<Pending>) -> Snapshot {
    Snapshot {
        frames: List::of(frames),
        shapes: List::of(shapes),
        pending: List::of(pending),
    }
}

fn add(
    alloc: Global,
    ops: &mut Vec<OptOp>,
    code: OpCode,
    made: u32,
    args: &[Arg],
) -> Result<(), AllocError> {
    ops.push(plain(alloc, code, Some(integer(made)), args, Descr::No)?)?;
    Ok(())
}

fn get(
    alloc: Global,
    ops: &mut Vec<OptOp>,
    made: u32,
    base: Arg,
    at: u32,
) -> Result<(), AllocError> {
    let made = Some(integer(made));
    ops.push(plain(alloc, OpCode::GetfieldGcI, made, &[base], Descr::Field(at))?)?;
    Ok(())
}

fn put(
    alloc: Global,
    ops: &mut Vec<OptOp>,
    base: Arg,
    value: Arg,
    at: u32,
) -> Result<(), AllocError> {
    ops.push(plain(
        alloc,
        OpCode::SetfieldGc,
        None,
        &[base, value],
        Descr::Field(at),
    )?)?;
    Ok(())
}

fn wrap(alloc: Global, ops: &mut Vec<OptOp>, made: u32, value: Arg) -> Result<(), AllocError> {
    let result = Some(reference(made));
    ops.push(plain(
        alloc,
        OpCode::NewWithVtable,
        result,
        &[],
        Descr::Size(W_INT),
    )?)?;
    put(alloc, ops, p(made), value, VALUE)
}

fn check(
    alloc: Global,
    ops: &mut Vec<OptOp>,
    code: OpCode,
    args: &[Arg],
    guard: u32,
    snap: Snapshot,
) -> Result<(), AllocError> {
    ops.push(tested(alloc, code, args, guard, snap)?)?;
    Ok(())
}

fn go_on(alloc: Global, ops: &mut Vec<OptOp>, half: Half, args: &[Arg]) -> Result<(), AllocError> {
    let args = Vec::from_slice(alloc, args)?;
    ops.push(OptOp::Jump {
        to: PieceId { trace: 0, half },
        args: List::of(args),
    })?;
    Ok(())
}

fn call_tick(alloc: Global, ops: &mut Vec<OptOp>, made: u32, with: Arg) -> Result<(), AllocError> {
    let made = Some(integer(made));
    ops.push(plain(
        alloc,
        OpCode::CallI,
        made,
        &[Arg::Func(0), with],
        Descr::Call(0),
    )?)?;
    Ok(())
}

// Where the loop is entered, all that it works on is made.
fn as_entered(alloc: Global, pc: u32) -> Result<Vec<OptFrame>, AllocError> {
    let on = [
        Val::Known(p(0)),
        Val::Known(p(1)),
        Val::Known(p(2)),
        Val::Known(p(3)),
    ];
    main_frame(alloc, pc, &on)
}

fn first_compare(alloc: Global, ops: &mut Vec<OptOp>) -> Result<(), AllocError> {
    let class = Arg::Class(W_INT);
    let snap = known(alloc, as_entered(alloc, 12)?);
    check(
        alloc,
        ops,
        OpCode::GuardNonnullClass,
        &[p(1), class],
        0,
        snap,
    )?;
    let snap = known(alloc, as_entered(alloc, 12)?);
    check(
        alloc,
        ops,
        OpCode::GuardNonnullClass,
        &[p(2), class],
        1,
        snap,
    )?;
    get(alloc, ops, 4, p(1), VALUE)?;
    get(alloc, ops, 5, p(2), VALUE)?;
    add(alloc, ops, OpCode::IntLt, 6, &[i(4), i(5)])?;
    let snap = known(alloc, as_entered(alloc, 15)?);
    check(alloc, ops, OpCode::GuardTrue, &[i(6)], 2, snap)
}

fn first_help(alloc: Global, ops: &mut Vec<OptOp>) -> Result<(), AllocError> {
    add(alloc, ops, OpCode::IntAnd, 7, &[i(4), Arg::Const(1)])?;
    add(alloc, ops, OpCode::IntIsZero, 8, &[i(7)])?;
    let mut frames = as_entered(alloc, 20)?;
    let helped = [Val::Virtual(0), Val::Known(p(1))];
    in_callee(alloc, &mut frames, Text::new(b"helper"), 3, &helped)?;
    let inner = [Val::Known(i(7))];
    in_callee(alloc, &mut frames, Text::new(b"inner"), 0, &inner)?;
    let snap = late(frames, unmade(alloc, &[i(7)])?, Vec::new(alloc));
    check(alloc, ops, OpCode::GuardTrue, &[i(8)], 3, snap)
}

fn first_sum(alloc: Global, ops: &mut Vec<OptOp>) -> Result<(), AllocError> {
    let class = Arg::Class(W_INT);
    let snap = known(alloc, as_entered(alloc, 24)?);
    check(alloc, ops, OpCode::GuardClass, &[p(0), class], 4, snap)?;
    get(alloc, ops, 9, p(0), VALUE)?;
    add(alloc, ops, OpCode::IntAddOvf, 10, &[i(9), i(4)])?;
    let mut frames = as_entered(alloc, 24)?;
    let sides = [Val::Known(i(9)), Val::Known(i(4))];
    in_callee(alloc, &mut frames, Text::new(b"add"), 5, &sides)?;
    let snap = known(alloc, frames);
    check(alloc, ops, OpCode::GuardNoOverflow, &[], 5, snap)
}

fn first_tick(alloc: Global, ops: &mut Vec<OptOp>) -> Result<(), AllocError> {
    get(alloc, ops, 11, p(3), COUNT)?;
    add(alloc, ops, OpCode::IntAdd, 12, &[i(11), Arg::Const(1)])?;
    call_tick(alloc, ops, 13, i(4))?;
    add(alloc, ops, OpCode::IntGe, 14, &[i(13), Arg::Const(0)])?;
    let on = [
        Val::Virtual(0),
        Val::Known(p(1)),
        Val::Known(p(2)),
        Val::Known(p(3)),
    ];
    let frames = main_frame(alloc, 30, &on)?;
    let snap = late(
        frames,
        unmade(alloc, &[i(10)])?,
        counting(alloc, p(3), i(12))?,
    );
    check(alloc, ops, OpCode::GuardTrue, &[i(14)], 7, snap)
}

// The sum and the counter aren't made.
fn advanced(alloc: Global, pc: u32) -> Result<Snapshot, AllocError> {
    let on = [
        Val::Virtual(0),
        Val::Virtual(1),
        Val::Known(p(2)),
        Val::Known(p(3)),
    ];
    let frames = main_frame(alloc, pc, &on)?;
    let shapes = unmade(alloc, &[i(10), i(15)])?;
    Ok(late(frames, shapes, counting(alloc, p(3), i(12))?))
}

fn first_end(alloc: Global, ops: &mut Vec<OptOp>) -> Result<(), AllocError> {
    add(alloc, ops, OpCode::IntAdd, 15, &[i(4), Arg::Const(1)])?;
    add(alloc, ops, OpCode::IntGt, 16, &[i(12), Arg::Const(100)])?;
    let snap = advanced(alloc, 41)?;
    check(alloc, ops, OpCode::GuardFalse, &[i(16)], 10, snap)?;
    let snap = advanced(alloc, 42)?;
    let ten = [p(2), Arg::Ptr(TEN)];
    check(alloc, ops, OpCode::GuardValue, &ten, 11, snap)?;
    let to = [i(10), i(15), p(3), i(5), i(12)];
    go_on(alloc, ops, Half::Body, &to)
}

fn first_ops(alloc: Global) -> Result<Vec<OptOp>, AllocError> {
    let mut ops = Vec::new(alloc);
    first_compare(alloc, &mut ops)?;
    first_help(alloc, &mut ops)?;
    first_sum(alloc, &mut ops)?;
    first_tick(alloc, &mut ops)?;
    first_end(alloc, &mut ops)?;
    Ok(ops)
}

// Later rounds: nothing but the cell is made.
fn as_carried(alloc: Global, pc: u32) -> Result<Vec<OptFrame>, AllocError> {
    let on = [
        Val::Virtual(0),
        Val::Virtual(1),
        Val::Known(Arg::Ptr(TEN)),
        Val::Known(p(2)),
    ];
    main_frame(alloc, pc, &on)
}

fn carried(
    alloc: Global,
    pc: u32,
    sum: Arg,
    counter: Arg,
    count: Arg,
) -> Result<Snapshot, AllocError> {
    let frames = as_carried(alloc, pc)?;
    let shapes = unmade(alloc, &[sum, counter])?;
    Ok(late(frames, shapes, counting(alloc, p(2), count)?))
}

fn later_help(alloc: Global, ops: &mut Vec<OptOp>) -> Result<(), AllocError> {
    add(alloc, ops, OpCode::IntAnd, 6, &[i(1), Arg::Const(1)])?;
    add(alloc, ops, OpCode::IntIsZero, 7, &[i(6)])?;
    let mut frames = as_carried(alloc, 20)?;
    let helped = [Val::Virtual(2), Val::Virtual(1)];
    in_callee(alloc, &mut frames, Text::new(b"helper"), 3, &helped)?;
    let inner = [Val::Known(i(6))];
    in_callee(alloc, &mut frames, Text::new(b"inner"), 0, &inner)?;
    let shapes = unmade(alloc, &[i(0), i(1), i(6)])?;
    let snap = late(frames, shapes, counting(alloc, p(2), i(4))?);
    check(alloc, ops, OpCode::GuardTrue, &[i(7)], 3, snap)
}

fn later_sum(alloc: Global, ops: &mut Vec<OptOp>) -> Result<(), AllocError> {
    add(alloc, ops, OpCode::IntAddOvf, 8, &[i(0), i(1)])?;
    let mut frames = as_carried(alloc, 24)?;
    let sides = [Val::Known(i(0)), Val::Known(i(1))];
    in_callee(alloc, &mut frames, Text::new(b"add"), 5, &sides)?;
    let shapes = unmade(alloc, &[i(0), i(1)])?;
    let snap = late(frames, shapes, counting(alloc, p(2), i(4))?);
    check(alloc, ops, OpCode::GuardNoOverflow, &[], 5, snap)
}

fn later_end(alloc: Global, ops: &mut Vec<OptOp>) -> Result<(), AllocError> {
    add(alloc, ops, OpCode::IntAdd, 9, &[i(4), Arg::Const(1)])?;
    call_tick(alloc, ops, 10, i(1))?;
    add(alloc, ops, OpCode::IntGe, 11, &[i(10), Arg::Const(0)])?;
    let snap = carried(alloc, 30, i(8), i(1), i(9))?;
    check(alloc, ops, OpCode::GuardTrue, &[i(11)], 7, snap)?;
    add(alloc, ops, OpCode::IntAdd, 12, &[i(1), Arg::Const(1)])?;
    add(alloc, ops, OpCode::IntGt, 13, &[i(9), Arg::Const(100)])?;
    let snap = carried(alloc, 41, i(8), i(12), i(9))?;
    check(alloc, ops, OpCode::GuardFalse, &[i(13)], 10, snap)?;
    let to = [i(8), i(12), p(2), i(3), i(9)];
    go_on(alloc, ops, Half::Body, &to)
}

fn later_ops(alloc: Global) -> Result<Vec<OptOp>, AllocError> {
    let mut ops = Vec::new(alloc);
    add(alloc, &mut ops, OpCode::IntLt, 5, &[i(1), i(3)])?;
    let snap = carried(alloc, 15, i(0), i(1), i(4))?;
    check(alloc, &mut ops, OpCode::GuardTrue, &[i(5)], 2, snap)?;
    later_help(alloc, &mut ops)?;
    later_sum(alloc, &mut ops)?;
    later_end(alloc, &mut ops)?;
    Ok(ops)
}

fn odd_of_first(alloc: Global) -> Result<Vec<OptOp>, AllocError> {
    let mut ops = Vec::new(alloc);
    get(alloc, &mut ops, 5, p(1), VALUE)?;
    add(alloc, &mut ops, OpCode::IntAdd, 6, &[i(5), Arg::Const(1)])?;
    wrap(alloc, &mut ops, 7, i(6))?;
    let to = [p(0), p(7), p(2), p(3)];
    go_on(alloc, &mut ops, Half::Pre, &to)?;
    Ok(ops)
}

fn odd_of_later(alloc: Global) -> Result<Vec<OptOp>, AllocError> {
    let mut ops = Vec::new(alloc);
    add(alloc, &mut ops, OpCode::IntAdd, 5, &[i(3), Arg::Const(1)])?;
    wrap(alloc, &mut ops, 6, i(2))?;
    wrap(alloc, &mut ops, 7, i(5))?;
    put(alloc, &mut ops, p(0), i(4), COUNT)?;
    let to = [p(6), p(7), Arg::Ptr(TEN), p(0)];
    go_on(alloc, &mut ops, Half::Pre, &to)?;
    Ok(ops)
}

fn done_of_first(alloc: Global) -> Result<Vec<OptOp>, AllocError> {
    let mut ops = Vec::new(alloc);
    get(alloc, &mut ops, 4, p(0), VALUE)?;
    ops.push(OptOp::Finish { value: Some(i(4)) })?;
    Ok(ops)
}

fn done_of_later(alloc: Global) -> Result<Vec<OptOp>, AllocError> {
    let mut ops = Vec::new(alloc);
    put(alloc, &mut ops, p(0), i(3), COUNT)?;
    ops.push(OptOp::Finish { value: Some(i(1)) })?;
    Ok(ops)
}

fn piece(
    alloc: Global,
    trace: u32,
    half: Half,
    label: &[BoxId],
    ops: Vec<OptOp>,
) -> Result<Piece, AllocError> {
    let label = Vec::from_slice(alloc, label)?;
    Ok(Piece {
        id: PieceId { trace, half },
        label: List::of(label),
        ops: List::of(ops),
    })
}

fn main_pieces(alloc: Global, pieces: &mut Vec<Piece>) -> Result<(), AllocError> {
    let label = [reference(0), reference(1), reference(2), reference(3)];
    let ops = first_ops(alloc)?;
    pieces.push(piece(alloc, 0, Half::Pre, &label, ops)?)?;
    let label = [integer(0), integer(1), reference(2), integer(3), integer(4)];
    let ops = later_ops(alloc)?;
    pieces.push(piece(alloc, 0, Half::Body, &label, ops)?)?;
    Ok(())
}

fn odd_pieces(alloc: Global, pieces: &mut Vec<Piece>) -> Result<(), AllocError> {
    let label = [
        reference(0),
        reference(1),
        reference(2),
        reference(3),
        integer(4),
    ];
    let ops = odd_of_first(alloc)?;
    pieces.push(piece(alloc, 1, Half::Pre, &label, ops)?)?;
    let label = [reference(0), integer(1), integer(2), integer(3), integer(4)];
    let ops = odd_of_later(alloc)?;
    pieces.push(piece(alloc, 1, Half::Body, &label, ops)?)?;
    Ok(())
}

fn done_pieces(alloc: Global, pieces: &mut Vec<Piece>) -> Result<(), AllocError> {
    let label = [reference(0), reference(1), reference(2), reference(3)];
    let ops = done_of_first(alloc)?;
    pieces.push(piece(alloc, 2, Half::Pre, &label, ops)?)?;
    let label = [reference(0), integer(1), integer(2), integer(3)];
    let ops = done_of_later(alloc)?;
    pieces.push(piece(alloc, 2, Half::Body, &label, ops)?)?;
    Ok(())
}

/// The loop's two pieces, and two of each bridge.
pub fn pieces(alloc: Global) -> Result<Vec<Piece>, AllocError> {
    let mut pieces = Vec::new(alloc);
    main_pieces(alloc, &mut pieces)?;
    odd_pieces(alloc, &mut pieces)?;
    done_pieces(alloc, &mut pieces)?;
    Ok(pieces)
}
