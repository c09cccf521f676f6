//! A new node is stored into another one, late: a guard that fails rebuilds both.

use crate::making::*;
use crate::running::*;
use opt_meaning::OptRun;
use std::alloc::{AllocError, Global};
use std::test::*;
use trace_meaning::{Store, Value};
use trace_ops::{Arg, Descr, Half, OpCode, OptOp, Piece, Snapshot, TraceSet, Val};

fn set(alloc: Global) -> Result<TraceSet, AllocError> {
    let table = table(alloc, root_and_zero(alloc)?)?;
    loop_alone(alloc, table)
}

// The new node is virtual, and its store is pending.
fn unmade(alloc: Global) -> Result<Snapshot, AllocError> {
    let parts = [
        Val::Known(i(1)),
        Val::Known(Arg::Const(0)),
        Val::Known(Arg::Null),
    ];
    let shape = shape(alloc, NODE, &parts)?;
    let late = pending(p(0), NEXT, Val::Virtual(0));
    let shapes = vec![in alloc; shape]?;
    let stores = vec![in alloc; late]?;
    snapshot(alloc, &[Val::Known(p(0))], shapes, stores)
}

fn stored(alloc: Global, base: Arg, value: Arg, field: u32) -> Result<OptOp, AllocError> {
    plain(
        alloc,
        OpCode::SetfieldGc,
        None,
        &[base, value],
        Descr::Field(field),
    )
}

fn pieces(alloc: Global) -> Result<Vec<Piece>, AllocError> {
    let mut ops = Vec::new(alloc);
    let made = Some(reference(2));
    ops.push(tested(alloc, OpCode::GuardTrue, &[i(1)], 0, unmade(alloc)?)?)?;
    ops.push(plain(alloc, OpCode::New, made, &[], Descr::Size(NODE))?)?;
    ops.push(stored(alloc, p(2), i(1), X)?)?;
    ops.push(stored(alloc, p(0), p(2), NEXT)?)?;
    ops.push(OptOp::Finish { value: Some(i(1)) })?;
    let piece = piece(alloc, Half::Pre, &[reference(0), integer(1)], ops)?;
    Ok(vec![in alloc; piece]?)
}

// The root names a node that holds this.
fn is_linked(store: &Store, x: i64) -> bool {
    store.objects.items().len() == 3
        && holds(store, 0, 0, Value::Int(1))
        && holds(store, 0, 2, Value::Obj(2))
        && holds(store, 2, 0, Value::Int(x))
        && holds(store, 2, 2, Value::Null)
}

fn run_of(alloc: Global, x: i64) -> Result<OptRun, AllocError> {
    let set = set(alloc)?;
    let pieces = pieces(alloc)?;
    let inputs = [Value::Obj(0), Value::Int(x)];
    ended(alloc, set, pieces, &inputs, Vec::new(alloc), &[], 10)
}

fn rebuilds(alloc: Global) -> Result<bool, AllocError> {
    let run = run_of(alloc, 0)?;
    let exited = exited_with(run.state(), 0, Value::Obj(0));
    let linked = is_linked(run.store(), 0);
    Ok(exited && linked)
}

fn stores(alloc: Global) -> Result<bool, AllocError> {
    let run = run_of(alloc, 5)?;
    let finished = finished_with(run.state(), Value::Int(5));
    let linked = is_linked(run.store(), 5);
    let cost = has_cost(&run, (5, 32, 0, 2));
    Ok(finished && linked && cost)
}

#[test]
fn a_failing_guard_rebuilds_the_node_and_its_store(rt: HostRuntime) -> Result<(), AllocError> {
    let right = rebuilds(rt.alloc())?;
    assert!(rt; right);
    Ok(())
}

#[test]
fn a_passing_guard_goes_on_to_the_store(rt: HostRuntime) -> Result<(), AllocError> {
    let right = stores(rt.alloc())?;
    assert!(rt; right);
    Ok(())
}
