//! The interpreter's loop with both bridges, and alone.

use crate::interpreter::{CELL, TEN, ZERO, set};
use crate::interpreter_pieces::pieces;
use crate::running::*;
use opt_meaning::OptRun;
use std::alloc::{AllocError, Global};
use std::test::*;
use trace_meaning::{Answer, CallEvent, Give, Store, Value};
use trace_ops::{List, Piece, TraceSet};

// The host answers five calls with 0.
fn zeros(alloc: Global) -> Result<Vec<Answer>, AllocError> {
    let mut answers = Vec::new(alloc);
    for _ in 0..5usize {
        answers.push(Answer {
            gives: Give::Int(0),
            stores: List::of(Vec::new(alloc)),
        })?;
    }
    Ok(answers)
}

fn inputs() -> [Value; 4] {
    [
        Value::Obj(ZERO),
        Value::Obj(ZERO),
        Value::Obj(TEN),
        Value::Obj(CELL),
    ]
}

fn run_of(alloc: Global, cuts: &[(u32, u64)], operations: usize) -> Result<OptRun, AllocError> {
    let set = set(alloc)?;
    let pieces = pieces(alloc)?;
    run_from(alloc, set, pieces, cuts, operations)
}

fn run_from(
    alloc: Global,
    set: TraceSet,
    pieces: Vec<Piece>,
    cuts: &[(u32, u64)],
    operations: usize,
) -> Result<OptRun, AllocError> {
    let answers = zeros(alloc)?;
    ended(alloc, set, pieces, &inputs(), answers, cuts, operations)
}

// Call k was of this number.
fn called_with(calls: &[CallEvent], k: usize, number: i64) -> bool {
    let Some(call) = calls.get(k) else {
        return false;
    };
    match call.args.items().first() {
        Some(value) => same(*value, Value::Int(number)),
        None => false,
    }
}

fn ticks(calls: &[CallEvent]) -> bool {
    calls.len() == 5
        && called_with(calls, 0, 0)
        && called_with(calls, 1, 2)
        && called_with(calls, 2, 4)
        && called_with(calls, 3, 6)
        && called_with(calls, 4, 8)
}

// What the prebuilt objects hold at the end.
fn counted(store: &Store, count: i64) -> bool {
    holds(store, 0, 0, Value::Int(0))
        && holds(store, 1, 0, Value::Int(10))
        && holds(store, 2, 0, Value::Int(count))
}

fn sums(run: &OptRun) -> bool {
    let finished = finished_with(run.state(), Value::Int(20));
    let ticked = ticks(run.calls());
    let counted = counted(run.store(), 5);
    let cost = has_cost(run, (183, 160, 40, 15));
    finished && ticked && counted && cost
}

// Both bridges are there from the first.
fn with_bridges(alloc: Global) -> Result<bool, AllocError> {
    let run = run_of(alloc, &[(1, 0), (2, 0)], 200)?;
    Ok(sums(&run))
}

#[test]
fn a_loop_with_two_bridges_sums_even_numbers(rt: HostRuntime) -> Result<(), AllocError> {
    let right = with_bridges(rt.alloc())?;
    assert!(rt; right);
    Ok(())
}

// What is rebuilt, of the sum, the counter and the low bit of the counter.
fn rebuilt(store: &Store, from: u32) -> bool {
    let Some(counter) = from.checked_add(1) else {
        return false;
    };
    let Some(bit) = from.checked_add(2) else {
        return false;
    };
    holds(store, from as usize, 0, Value::Int(0))
        && holds(store, counter as usize, 0, Value::Int(1))
        && holds(store, bit as usize, 0, Value::Int(1))
}

// One operation before the guard fails.
fn counts(run: &OptRun) -> bool {
    let going = is_going(run.state());
    let cost = has_cost(run, (27, 0, 7, 0));
    going && cost
}

fn rebuilds(run: &OptRun) -> bool {
    let exited = exited_with(run.state(), 3, Value::Obj(3));
    let counted = counted(run.store(), 1);
    let few = run.store().objects.items().len() == 6;
    let made = rebuilt(run.store(), 3);
    exited && counted && few && made
}

fn counts_one_round(alloc: Global) -> Result<bool, AllocError> {
    let run = run_of(alloc, &[], 27)?;
    Ok(counts(&run))
}

fn without_bridges(alloc: Global) -> Result<bool, AllocError> {
    let run = run_of(alloc, &[], 28)?;
    Ok(rebuilds(&run))
}

#[test]
fn its_first_round_makes_nothing(rt: HostRuntime) -> Result<(), AllocError> {
    let right = counts_one_round(rt.alloc())?;
    assert!(rt; right);
    Ok(())
}

#[test]
fn without_them_an_odd_number_is_rebuilt(rt: HostRuntime) -> Result<(), AllocError> {
    let right = without_bridges(rt.alloc())?;
    assert!(rt; right);
    Ok(())
}
