//! A node that names itself is handed to a call.

use crate::making::*;
use crate::running::*;
use opt_meaning::OptRun;
use std::alloc::{AllocError, Global};
use std::test::*;
use trace_meaning::{Answer, CallEvent, Give, Store, Value};
use trace_ops::{Arg, BoxId, Descr, Half, List, OpCode, OptOp, Piece, TraceSet};

fn set(alloc: Global) -> Result<TraceSet, AllocError> {
    let table = table(alloc, Vec::new(alloc))?;
    loop_alone(alloc, table)
}

fn stored(alloc: Global, value: Arg, field: u32) -> Result<OptOp, AllocError> {
    plain(
        alloc,
        OpCode::SetfieldGc,
        None,
        &[p(1), value],
        Descr::Field(field),
    )
}

fn called(alloc: Global) -> Result<OptOp, AllocError> {
    plain(
        alloc,
        OpCode::CallN,
        None,
        &[Arg::Func(0), p(1)],
        Descr::Call(0),
    )
}

// The node is made, and its parts are stored, before the call.
fn pieces(alloc: Global) -> Result<Vec<Piece>, AllocError> {
    let mut ops = Vec::new(alloc);
    let made: BoxId = reference(1);
    ops.push(plain(alloc, OpCode::New, Some(made), &[], Descr::Size(NODE))?)?;
    ops.push(stored(alloc, i(0), X)?)?;
    ops.push(stored(alloc, p(1), NEXT)?)?;
    ops.push(called(alloc)?)?;
    ops.push(OptOp::Finish { value: Some(p(1)) })?;
    let piece = piece(alloc, Half::Pre, &[integer(0)], ops)?;
    Ok(vec![in alloc; piece]?)
}

fn nothing(alloc: Global) -> Result<Vec<Answer>, AllocError> {
    let answer = Answer {
        gives: Give::Nothing,
        stores: List::of(Vec::new(alloc)),
    };
    Ok(vec![in alloc; answer]?)
}

// The one call has seen 7 and the node itself.
fn sees_the_node(calls: &[CallEvent]) -> bool {
    let Some(call) = calls.first() else {
        return false;
    };
    let seen = call.seen.items();
    calls.len() == 1
        && seen.len() == 2
        && same(seen[0], Value::Int(7))
        && same(seen[1], Value::Obj(0))
}

// The node is the only object, holds 7 and names itself.
fn names_itself(store: &Store) -> bool {
    store.objects.items().len() == 1
        && holds(store, 0, 0, Value::Int(7))
        && holds(store, 0, 2, Value::Obj(0))
}

fn run_from(alloc: Global, set: TraceSet, pieces: Vec<Piece>) -> Result<OptRun, AllocError> {
    let answers = nothing(alloc)?;
    ended(alloc, set, pieces, &[Value::Int(7)], answers, &[], 10)
}

fn run_of(alloc: Global) -> Result<OptRun, AllocError> {
    let set = set(alloc)?;
    let pieces = pieces(alloc)?;
    run_from(alloc, set, pieces)
}

fn is_right(run: &OptRun) -> bool {
    let finished = finished_with(run.state(), Value::Obj(0));
    let seen = sees_the_node(run.calls());
    let made = names_itself(run.store());
    let cost = has_cost(run, (5, 32, 0, 2));
    finished && seen && made && cost
}

fn goes_right(alloc: Global) -> Result<bool, AllocError> {
    let run = run_of(alloc)?;
    Ok(is_right(&run))
}

#[test]
fn a_cyclic_node_is_made_for_a_call(rt: HostRuntime) -> Result<(), AllocError> {
    let right = goes_right(rt.alloc())?;
    assert!(rt; right);
    Ok(())
}
