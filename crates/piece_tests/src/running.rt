//! Runs of pieces, and what is looked at.
ghost use Rattle.std.specs.Prelude.{◌≡◌, ◌<◌, ◌≤◌, ◌^◌, length, IsTrue, IfSome};
ghost use Rattle.std.specs.List.{All};
ghost use Rattle.trace_meaning.specs.declared.value.Object.{Object};
ghost use Rattle.trace_meaning.specs.Starting.{IsSmall};
ghost use Rattle.opt_meaning.specs.Observed.{pieces_world, pieces_bytes};
ghost use Rattle.piece_tests.specs.Rooms.{has_exited};

use opt_meaning::OptRun;
use std::alloc::{AllocError, Global};
use trace_meaning::{Answer, Object, RecFrame, RecState, Store, Value};
use trace_ops::{Piece, TraceSet};

// The set, if it keeps within the limits.
fn small(set: TraceSet) -> Option<TraceSet>
    ensures { IfSome result IsSmall }
{
    let few = set.traces.items().len() <= 256;
    let short = set
        .traces
        .items()
        .iter()
        .all(|t| t.ops.items().len() <= 8192);
    if few && short { Some(set) } else { None }
}

// A run of the pieces of a set from its first trace; too large a set counts as want of memory.
fn optimised(
    alloc: Global,
    set: TraceSet,
    pieces: Vec<Piece>,
    inputs: &[Value],
    answers: Vec<Answer>,
    cuts: &[(u32, u64)],
) -> Result<OptRun, AllocError> {
    let Some(set) = small(set) else {
        return Err(AllocError);
    };
    let inputs = Vec::from_slice(alloc, inputs)?;
    let cuts = Vec::from_slice(alloc, cuts)?;
    OptRun::new(alloc, &set, pieces, 0, inputs, answers, cuts)
}

pub fn has_rebuilt(state: &RecState) -> bool
    ensures { result ≡ has_exited state.now }
{
    match state {
        RecState::Exited { .. } => true,
        _ => false,
    }
}

fn are_short(objects: &[Object]) -> bool
    ensures { IsTrue result → All (λ (o : Object). length o.parts ≤ 1000) objects.now }
{
    objects.iter().all(|o| o.parts.items().len() <= 1000)
}

// Nothing is rebuilt, and all that there is can be counted.
fn is_small(run: &OptRun) -> bool
    ensures objects { IsTrue result → length (pieces_world run.now.now).objects < 2 ^ 31 }
    ensures calls { IsTrue result → length (pieces_world run.now.now).log < 2 ^ 31 }
    ensures bytes { IsTrue result → pieces_bytes run.now.set run.now.now < 2 ^ 64 }
{
    if has_rebuilt(run.state()) {
        return false;
    }
    let objects = run.store().objects.items();
    if objects.len() >= 1000 || run.calls().len() >= 1000 {
        return false;
    }
    are_short(objects)
}

// One operation; numbers that go past their limits count as want of memory.
fn step_optimised(run: &mut OptRun) -> Result<(), AllocError> {
    if is_small(run) {
        return run.step();
    }
    if has_rebuilt(run.state()) {
        Ok(())
    } else {
        Err(AllocError)
    }
}

// At most n operations.
fn run_optimised(run: &mut OptRun, n: usize) -> Result<(), AllocError> {
    for _ in 0..n {
        step_optimised(run)?;
    }
    Ok(())
}

/// A run of the pieces of a set from its first trace, after at most so many operations; too large a set counts as want of memory.
pub fn ended(
    alloc: Global,
    set: TraceSet,
    pieces: Vec<Piece>,
    inputs: &[Value],
    answers: Vec<Answer>,
    cuts: &[(u32, u64)],
    operations: usize,
) -> Result<OptRun, AllocError> {
    let mut run = optimised(alloc, set, pieces, inputs, answers, cuts)?;
    run_optimised(&mut run, operations)?;
    Ok(run)
}

// Instructions, bytes, loads and stores, of a run that has rebuilt nothing.
pub fn has_cost(run: &OptRun, wanted: (u64, u64, u64, u64)) -> bool {
    if !is_small(run) {
        return false;
    }
    let counts = run.counts();
    let (instructions, bytes, loads, stores) = wanted;
    counts.instructions == instructions
        && counts.bytes == bytes
        && counts.loads == loads
        && counts.stores == stores
}

// A part of an object holds this.
pub fn holds(store: &Store, object: usize, part: usize, wanted: Value) -> bool {
    let Some(object) = store.objects.items().get(object) else {
        return false;
    };
    match object.parts.items().get(part) {
        Some(value) => same(*value, wanted),
        None => false,
    }
}

pub fn same(a: Value, b: Value) -> bool {
    match (a, b) {
        (Value::Int(x), Value::Int(y)) => x == y,
        (Value::Null, Value::Null) => true,
        (Value::Obj(m), Value::Obj(n)) => m == n,
        _ => false,
    }
}

pub fn finished_with(state: &RecState, wanted: Value) -> bool {
    match state {
        RecState::Finished(Some(value)) => same(*value, wanted),
        _ => false,
    }
}

// A guard of the first trace has failed, and the first slot of its first frame holds this.
pub fn exited_with(state: &RecState, wanted: u32, first: Value) -> bool {
    match state {
        RecState::Exited {
            trace: 0,
            guard,
            frames,
        } => *guard == wanted && first_slot(frames.items(), first),
        _ => false,
    }
}

fn first_slot(frames: &[RecFrame], wanted: Value) -> bool {
    let Some(frame) = frames.first() else {
        return false;
    };
    match frame.slots.items().first() {
        Some(value) => same(*value, wanted),
        None => false,
    }
}

pub fn is_going(state: &RecState) -> bool {
    match state {
        RecState::Going => true,
        _ => false,
    }
}
