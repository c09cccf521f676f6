//! A counter in a cell of its own: each round of the trace makes a new cell, and the pieces make none.

use crate::making::*;
use crate::running::*;
use opt_meaning::OptRun;
use std::alloc::{AllocError, Global};
use std::test::*;
use trace_meaning::Value;
use trace_ops::{Arg, BoxId, Descr, Half, OpCode, OptOp, Piece, Snapshot, TraceSet, Val};

fn set(alloc: Global) -> Result<TraceSet, AllocError> {
    let table = table(alloc, root_and_zero(alloc)?)?;
    loop_alone(alloc, table)
}

// The frame has the cell as it came in.
fn entered(alloc: Global) -> Result<Snapshot, AllocError> {
    let slots = [Val::Known(p(0)), Val::Known(i(1))];
    snapshot(alloc, &slots, Vec::new(alloc), Vec::new(alloc))
}

// The frame has a virtual cell that holds a number.
fn counted(alloc: Global, number: u32) -> Result<Snapshot, AllocError> {
    let shape = shape(alloc, CELL, &[Val::Known(i(number))])?;
    let shapes = vec![in alloc; shape]?;
    let slots = [Val::Virtual(0), Val::Known(i(1))];
    snapshot(alloc, &slots, shapes, Vec::new(alloc))
}

fn result(
    alloc: Global,
    code: OpCode,
    made: u32,
    args: &[Arg],
    descr: Descr,
) -> Result<OptOp, AllocError> {
    plain(alloc, code, Some(integer(made)), args, descr)
}

// Adds one to a box, and goes on where the sum is less than the limit.
fn next(
    alloc: Global,
    ops: &mut Vec<OptOp>,
    from: u32,
    sum: u32,
    less: u32,
) -> Result<(), AllocError> {
    let added = [i(from), Arg::Const(1)];
    ops.push(result(alloc, OpCode::IntAdd, sum, &added, Descr::No)?)?;
    ops.push(result(alloc, OpCode::IntLt, less, &[i(sum), i(1)], Descr::No)?)?;
    ops.push(tested(
        alloc,
        OpCode::GuardTrue,
        &[i(less)],
        1,
        counted(alloc, sum)?,
    )?)?;
    ops.push(jump(alloc, Half::Body, &[i(sum), i(1)])?)?;
    Ok(())
}

fn first(alloc: Global) -> Result<Piece, AllocError> {
    let mut ops = Vec::new(alloc);
    ops.push(tested(
        alloc,
        OpCode::GuardClass,
        &[p(0), Arg::Class(CELL)],
        0,
        entered(alloc)?,
    )?)?;
    ops.push(result(alloc, OpCode::GetfieldGcI, 2, &[p(0)], Descr::Field(NUMBER))?)?;
    next(alloc, &mut ops, 2, 3, 4)?;
    let label: [BoxId; 2] = [reference(0), integer(1)];
    piece(alloc, Half::Pre, &label, ops)
}

fn later(alloc: Global) -> Result<Piece, AllocError> {
    let mut ops = Vec::new(alloc);
    next(alloc, &mut ops, 0, 2, 3)?;
    let label: [BoxId; 2] = [integer(0), integer(1)];
    piece(alloc, Half::Body, &label, ops)
}

fn pieces(alloc: Global) -> Result<Vec<Piece>, AllocError> {
    let first = first(alloc)?;
    let later = later(alloc)?;
    Ok(vec![in alloc; first, later]?)
}

fn run_of(alloc: Global, operations: usize) -> Result<OptRun, AllocError> {
    let set = set(alloc)?;
    let pieces = pieces(alloc)?;
    let inputs = [Value::Obj(1), Value::Int(100)];
    ended(
        alloc,
        set,
        pieces,
        &inputs,
        Vec::new(alloc),
        &[],
        operations,
    )
}

// One operation before the last guard fails.
fn counts(run: &OptRun) -> bool {
    let going = is_going(run.state());
    let cost = has_cost(run, (400, 0, 2, 0));
    going && cost
}

fn has_its_cell(run: &OptRun) -> bool {
    let exited = exited_with(run.state(), 1, Value::Obj(2));
    let few = run.store().objects.items().len() == 3;
    let cell = holds(run.store(), 2, 0, Value::Int(100));
    exited && few && cell
}

fn counts_all_rounds(alloc: Global) -> Result<bool, AllocError> {
    let run = run_of(alloc, 400)?;
    Ok(counts(&run))
}

fn makes_its_cell(alloc: Global) -> Result<bool, AllocError> {
    let run = run_of(alloc, 401)?;
    Ok(has_its_cell(&run))
}

#[test]
fn a_counter_makes_no_cell_while_it_counts(rt: HostRuntime) -> Result<(), AllocError> {
    let right = counts_all_rounds(rt.alloc())?;
    assert!(rt; right);
    Ok(())
}

#[test]
fn a_counter_makes_its_last_cell_alone(rt: HostRuntime) -> Result<(), AllocError> {
    let right = makes_its_cell(rt.alloc())?;
    assert!(rt; right);
    Ok(())
}
