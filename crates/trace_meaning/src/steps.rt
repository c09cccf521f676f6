//! How one operation moves a run.

ghost use Rattle.std.specs.Prelude.{◌≡◌, ◌+◌, ◌<◌, ◌-◌, ◌^◌, Some, None, length, slice_get, drop, IfOk, OnOk, OnErr};
ghost use Rattle.std.specs.HashMap.{spare};
ghost use Rattle.std.specs.Option.{option_copied};
ghost use Rattle.trace_ops.specs.Facts.{part_of as part_meant};
ghost use Rattle.trace_meaning.specs.declared.performing.Done.TheVariants as Done;
ghost use Rattle.trace_meaning.specs.declared.state.RecState.TheVariants as RecState;
ghost use Rattle.trace_meaning.specs.Legs.{Over, In, Wrong as LeftWrong, Waits as LeftWaiting, Misfits as LeftMisfit, Finishes, Fails, settle, enter, next, On, Off};
ghost use Rattle.trace_meaning.specs.Recorded.{recorded, recorded_part, recorded_step as step_meant, recorded_plain, recorded_result, recorded_failure, recorded_guard, values_of as values_meant, slots_of as slots_meant, begin_at, ops_at, jump_target as target_at};
ghost use Rattle.trace_meaning.specs.World.{failed};
ghost use Rattle.trace_meaning.specs.Passing.{passes as passes_meant};
ghost use Rattle.trace_meaning.specs.Performing.{perform as performed, Gave, Done as Meant};
ghost use Rattle.trace_meaning.specs.Steps.{IsNumbered};
ghost use Rattle.trace_meaning.specs.Routes.{AreRoutes};
ghost use Rattle.trace_meaning.specs.Standing.{IsStanding, turned, now_of, rec_of, settled};

use crate::boxes::Boxes;
use crate::cursor::Cursor;
use crate::frames::{frames_with, guard_in, slots_of};
use crate::links::{inputs_of_trace, op_at, ops_of_trace};
use crate::passing::passes;
use crate::performing::{Done, perform};
use crate::routes::Routes;
use crate::{RecState, Value};
use std::alloc::{AllocError, Global};
use trace_ops::{BoxId, List, Op, Part, TraceSet, part_of};

// The run goes wrong.
fn go_wrong(set: &TraceSet, c: &mut Cursor)
    requires { IsStanding set.now c.old }
    ensures kept { IsStanding set.now c.new }
    ensures now { now_of set.now c.new ≡ Over c.old.trace (LeftWrong c.old.world.world) }
{
    c.state = RecState::Wrong;
}

// The run finishes.
fn finish(set: &TraceSet, c: &mut Cursor, values: Vec<Value>)
    requires { IsStanding set.now c.old }
    ensures kept { IsStanding set.now c.new }
    ensures now { now_of set.now c.new ≡ Over c.old.trace (Finishes values.items c.old.world.world) }
{
    c.state = RecState::Finished(values.as_slice().first().copied());
    c.left = values;
}

// The run goes on behind a plain operation.
fn go_on(set: &TraceSet, c: &mut Cursor)
    requires standing { IsStanding set.now c.old }
    requires going { c.old.state ≡ RecState.Going }
    requires within { c.old.at < length (ops_at set.now c.old.trace) }
    ensures kept { IsStanding set.now c.new }
    ensures now { now_of set.now c.new ≡ In c.old.trace (drop (c.old.at + 1) (ops_at set.now c.old.trace)) (rec_of c.old) }
{
    let count = ops_of_trace(set, c.trace).len();
    let at = c.at;
    if at < count {
        c.at = at + 1;
    }
}

// The result of a plain operation gets its value, where there is room for it.
fn bind_result(set: &TraceSet, c: &mut Cursor, result_box: Option<BoxId>, value: Option<Value>)
    requires standing { IsStanding set.now c.old }
    requires going { c.old.state ≡ RecState.Going }
    requires within { c.old.at < length (ops_at set.now c.old.trace) }
    requires room { 0 < spare c.old.boxes.values }
    ensures kept { IsStanding set.now c.new }
    ensures now { now_of set.now c.new ≡ turned c.old.trace (drop (c.old.at + 1) (ops_at set.now c.old.trace)) (recorded_result result_box (rec_of c.old) value c.old.world.world) }
{
    match result_box {
        None => go_on(set, c),
        Some(of) => match value {
            None => go_wrong(set, c),
            Some(value) => {
                c.boxes.bind_in_room(of, value);
                go_on(set, c)
            }
        },
    }
}

// The run waits at its last call.
fn wait(set: &TraceSet, c: &mut Cursor)
    requires { IsStanding set.now c.old }
    ensures kept { IsStanding set.now c.new }
    ensures now { now_of set.now c.new ≡ Over c.old.trace (LeftWaiting c.old.world.world) }
{
    c.state = RecState::Waits;
}

// The answer to the last call doesn't fit.
fn misfit(set: &TraceSet, c: &mut Cursor, call: u32)
    requires standing { IsStanding set.now c.old }
    requires last { call ≡ length c.old.world.world.log - 1 }
    ensures kept { IsStanding set.now c.new }
    ensures now { now_of set.now c.new ≡ Over c.old.trace (LeftMisfit c.old.world.world) }
{
    c.state = RecState::Misfit { call };
}

// What came of a plain operation, where there is room for its result.
fn settle_plain(set: &TraceSet, c: &mut Cursor, to: Option<BoxId>, done: Done)
    requires standing { IsStanding set.now c.old }
    requires going { c.old.state ≡ RecState.Going }
    requires within { c.old.at < length (ops_at set.now c.old.trace) }
    requires room { 0 < spare c.old.boxes.values }
    requires last { IsNumbered done c.old.world }
    ensures kept { IsStanding set.now c.new }
    ensures now { now_of set.now c.new ≡ settled set.now c.old.trace c.old.at (rec_of c.old) to done }
{
    match done {
        Done::Gave(value) => bind_result(set, c, to, value),
        Done::Bad => go_wrong(set, c),
        Done::Waited => wait(set, c),
        Done::Misfitted(call) => misfit(set, c, call),
    }
}

// The operation is a plain one.
fn make_plain(
    alloc: Global,
    set: &TraceSet,
    c: &mut Cursor,
    op: &Op,
    values: &[Value],
) -> Result<(), AllocError>
    requires standing { IsStanding set.now c.old }
    requires going { c.old.state ≡ RecState.Going }
    requires within { c.old.at < length (ops_at set.now c.old.trace) }
    requires objects { length c.old.world.world.objects < 2 ^ 31 }
    requires calls { length c.old.world.world.log < 2 ^ 31 }
    ensures kept { IsStanding set.now c.new }
    ensures ok { OnOk result (now_of set.now c.new ≡ turned c.old.trace (drop (c.old.at + 1) (ops_at set.now c.old.trace)) (recorded_plain op.now.result (rec_of c.old) (performed set.now.table op.now.code op.now.descr op.now.args values.now c.old.world.world))) }
    ensures err { OnErr result (now_of set.now c.new ≡ now_of set.now c.old) }
{
    c.boxes.reserve()?;
    let done = perform(
        alloc,
        &set.table,
        op.code,
        op.descr,
        op.args.items(),
        values,
        &mut c.world,
    )?;
    settle_plain(set, c, op.result, done);
    Ok(())
}

// The run begins a trace with these inputs.
fn begin(
    alloc: Global,
    set: &TraceSet,
    c: &mut Cursor,
    trace: u32,
    values: &[Value],
) -> Result<(), AllocError>
    requires standing { IsStanding set.now c.old }
    requires going { c.old.state ≡ RecState.Going }
    ensures kept { IsStanding set.now c.new }
    ensures ok { OnOk result (now_of set.now c.new ≡ In trace (ops_at set.now trace) (begin_at set.now trace values.now c.old.world.world)) }
    ensures going { OnOk result (c.new.state ≡ RecState.Going) }
    ensures same { c.new.world ≡ c.old.world }
    ensures err { OnErr result (now_of set.now c.new ≡ now_of set.now c.old) }
{
    let boxes = Boxes::bound_to(alloc, inputs_of_trace(set, trace), values)?;
    c.boxes = boxes;
    c.trace = trace;
    c.at = 0;
    c.guards = 0;
    Ok(())
}

// The run jumps at the end of its trace.
fn jump(
    alloc: Global,
    set: &TraceSet,
    routes: &Routes,
    c: &mut Cursor,
    values: &[Value],
) -> Result<(), AllocError>
    requires standing { IsStanding set.now c.old }
    requires routed { AreRoutes set.now routes.now }
    requires going { c.old.state ≡ RecState.Going }
    ensures kept { IsStanding set.now c.new }
    ensures ok { OnOk result (now_of set.now c.new ≡ In (target_at set.now c.old.trace) (ops_at set.now (target_at set.now c.old.trace)) (begin_at set.now (target_at set.now c.old.trace) values.now c.old.world.world)) }
    ensures err { OnErr result (now_of set.now c.new ≡ now_of set.now c.old) }
{
    let target = routes.target(c.trace);
    begin(alloc, set, c, target, values)
}

// The run ends at a failing guard, with its frames.
fn exit(alloc: Global, set: &TraceSet, c: &mut Cursor, values: Vec<Value>) -> Result<(), AllocError>
    requires standing { IsStanding set.now c.old }
    requires going { c.old.state ≡ RecState.Going }
    ensures kept { IsStanding set.now c.new }
    ensures ok { OnOk result (now_of set.now c.new ≡ Over c.old.trace (Fails c.old.guards values.items (failed c.old.world.world))) }
    ensures err { OnErr result (now_of set.now c.new ≡ now_of set.now c.old) }
{
    let frames = match guard_in(ops_of_trace(set, c.trace), c.guards) {
        None => Vec::new(alloc),
        Some(op) => frames_with(alloc, op.snapshot.items(), &values)?,
    };
    c.world.fail()?;
    c.state = RecState::Exited {
        trace: c.trace,
        guard: c.guards as u32,
        frames: List::of(frames),
    };
    c.left = values;
    Ok(())
}

// The run goes from a failing guard into a bridge.
fn enter_bridge(
    alloc: Global,
    set: &TraceSet,
    c: &mut Cursor,
    bridge: u32,
    values: &[Value],
) -> Result<(), AllocError>
    requires standing { IsStanding set.now c.old }
    requires going { c.old.state ≡ RecState.Going }
    ensures kept { IsStanding set.now c.new }
    ensures ok { OnOk result (now_of set.now c.new ≡ In bridge (ops_at set.now bridge) (begin_at set.now bridge values.now (failed c.old.world.world))) }
    ensures err { OnErr result (now_of set.now c.new ≡ now_of set.now c.old) }
{
    let boxes = Boxes::bound_to(alloc, inputs_of_trace(set, bridge), values)?;
    c.world.fail()?;
    c.boxes = boxes;
    c.trace = bridge;
    c.at = 0;
    c.guards = 0;
    Ok(())
}

// A guard fails: it counts a failure, and the run goes into the bridge that this failure sees, or ends.
fn leave_by_guard(
    alloc: Global,
    set: &TraceSet,
    routes: &Routes,
    c: &mut Cursor,
    values: Vec<Value>,
) -> Result<(), AllocError>
    requires standing { IsStanding set.now c.old }
    requires routed { AreRoutes set.now routes.now }
    requires going { c.old.state ≡ RecState.Going }
    ensures kept { IsStanding set.now c.new }
    ensures ok { OnOk result (now_of set.now c.new ≡ enter (recorded set.now routes.now.cuts.items) c.old.trace (Fails c.old.guards values.items c.old.world.world)) }
    ensures err { OnErr result (now_of set.now c.new ≡ now_of set.now c.old) }
{
    let failure = c.world.failures();
    match routes.bridge(c.trace, c.guards, failure) {
        None => exit(alloc, set, c, values),
        Some(bridge) => enter_bridge(alloc, set, c, bridge, &values),
    }
}

// A guard fails, where its slots have values.
fn fail_guard(
    alloc: Global,
    set: &TraceSet,
    routes: &Routes,
    c: &mut Cursor,
    op: &Op,
) -> Result<(), AllocError>
    requires standing { IsStanding set.now c.old }
    requires routed { AreRoutes set.now routes.now }
    requires going { c.old.state ≡ RecState.Going }
    ensures kept { IsStanding set.now c.new }
    ensures ok { OnOk result (now_of set.now c.new ≡ settle (recorded set.now routes.now.cuts.items) c.old.trace (drop (c.old.at + 1) (ops_at set.now c.old.trace)) (recorded_failure (rec_of c.old) (values_meant (rec_of c.old) (slots_meant op.now.snapshot)))) }
    ensures err { OnErr result (now_of set.now c.new ≡ now_of set.now c.old) }
{
    let slots = slots_of(alloc, op.snapshot.items())?;
    match c.boxes.values_of(&slots)? {
        None => {
            go_wrong(set, c);
            Ok(())
        }
        Some(values) => leave_by_guard(alloc, set, routes, c, values),
    }
}

// A guard passes.
fn pass_guard(set: &TraceSet, c: &mut Cursor)
    requires standing { IsStanding set.now c.old }
    requires going { c.old.state ≡ RecState.Going }
    requires within { c.old.at < length (ops_at set.now c.old.trace) }
    ensures kept { IsStanding set.now c.new }
    ensures now { now_of set.now c.new ≡ In c.old.trace (drop (c.old.at + 1) (ops_at set.now c.old.trace)) (record (rec_of c.old) { guards = c.old.guards + 1 }) }
{
    let count = ops_of_trace(set, c.trace).len();
    let at = c.at;
    if at < count {
        c.at = at + 1;
        c.guards += 1;
    }
}

// The operation is a guard.
fn make_guard(
    alloc: Global,
    set: &TraceSet,
    routes: &Routes,
    c: &mut Cursor,
    op: &Op,
    values: &[Value],
) -> Result<(), AllocError>
    requires standing { IsStanding set.now c.old }
    requires routed { AreRoutes set.now routes.now }
    requires going { c.old.state ≡ RecState.Going }
    requires within { c.old.at < length (ops_at set.now c.old.trace) }
    ensures kept { IsStanding set.now c.new }
    ensures ok { OnOk result (now_of set.now c.new ≡ settle (recorded set.now routes.now.cuts.items) c.old.trace (drop (c.old.at + 1) (ops_at set.now c.old.trace)) (recorded_guard op.now (rec_of c.old) (passes_meant op.now.code op.now.args values.now c.old.world.world))) }
    ensures err { OnErr result (now_of set.now c.new ≡ now_of set.now c.old) }
{
    let overflow = c.world.overflow();
    match passes(
        op.code,
        op.args.items(),
        values,
        c.world.objects(),
        overflow,
    ) {
        None => {
            go_wrong(set, c);
            Ok(())
        }
        Some(true) => {
            pass_guard(set, c);
            Ok(())
        }
        Some(false) => fail_guard(alloc, set, routes, c, op),
    }
}

// The run finishes with these values.
fn end(set: &TraceSet, c: &mut Cursor, values: Vec<Value>) -> Result<(), AllocError>
    requires { IsStanding set.now c.old }
    ensures kept { IsStanding set.now c.new }
    ensures ok { OnOk result (now_of set.now c.new ≡ Over c.old.trace (Finishes values.items c.old.world.world)) }
    ensures err { OnErr result (now_of set.now c.new ≡ now_of set.now c.old) }
{
    finish(set, c, values);
    Ok(())
}

// An operation, from the values of those arguments that have one.
#[tactic(auto, using(crate::proofs::Settling::turned_settles))]
fn make_op(
    alloc: Global,
    set: &TraceSet,
    routes: &Routes,
    c: &mut Cursor,
    op: &Op,
    values: Vec<Value>,
) -> Result<(), AllocError>
    requires standing { IsStanding set.now c.old }
    requires routed { AreRoutes set.now routes.now }
    requires going { c.old.state ≡ RecState.Going }
    requires within { c.old.at < length (ops_at set.now c.old.trace) }
    requires objects { length c.old.world.world.objects < 2 ^ 31 }
    requires calls { length c.old.world.world.log < 2 ^ 31 }
    ensures kept { IsStanding set.now c.new }
    ensures ok { OnOk result (now_of set.now c.new ≡ settle (recorded set.now routes.now.cuts.items) c.old.trace (drop (c.old.at + 1) (ops_at set.now c.old.trace)) (recorded_part (part_meant op.now.code) set.now.table op.now (rec_of c.old) values.items)) }
    ensures err { OnErr result (now_of set.now c.new ≡ now_of set.now c.old) }
{
    match part_of(op.code) {
        Part::Jump => jump(alloc, set, routes, c, &values),
        Part::Finish => end(set, c, values),
        Part::Guard => make_guard(alloc, set, routes, c, op, &values),
        Part::OverflowGuard => make_guard(alloc, set, routes, c, op, &values),
        Part::Plain => make_plain(alloc, set, c, op, &values),
        Part::Overflowing => make_plain(alloc, set, c, op, &values),
    }
}

// An operation.
fn make_step(
    alloc: Global,
    set: &TraceSet,
    routes: &Routes,
    c: &mut Cursor,
    op: &Op,
) -> Result<(), AllocError>
    requires standing { IsStanding set.now c.old }
    requires routed { AreRoutes set.now routes.now }
    requires going { c.old.state ≡ RecState.Going }
    requires within { c.old.at < length (ops_at set.now c.old.trace) }
    requires objects { length c.old.world.world.objects < 2 ^ 31 }
    requires calls { length c.old.world.world.log < 2 ^ 31 }
    ensures kept { IsStanding set.now c.new }
    ensures ok { OnOk result (now_of set.now c.new ≡ settle (recorded set.now routes.now.cuts.items) c.old.trace (drop (c.old.at + 1) (ops_at set.now c.old.trace)) (step_meant set.now.table op.now (rec_of c.old))) }
    ensures err { OnErr result (now_of set.now c.new ≡ now_of set.now c.old) }
{
    match c.boxes.values_of(op.args.items())? {
        None => {
            go_wrong(set, c);
            Ok(())
        }
        Some(values) => make_op(alloc, set, routes, c, op, values),
    }
}

// One operation of a run that goes on.
fn step_inside(
    alloc: Global,
    set: &TraceSet,
    routes: &Routes,
    c: &mut Cursor,
) -> Result<(), AllocError>
    requires standing { IsStanding set.now c.old }
    requires routed { AreRoutes set.now routes.now }
    requires going { c.old.state ≡ RecState.Going }
    requires objects { length c.old.world.world.objects < 2 ^ 31 }
    requires calls { length c.old.world.world.log < 2 ^ 31 }
    ensures kept { IsStanding set.now c.new }
    ensures ok { OnOk result (now_of set.now c.new ≡ next (recorded set.now routes.now.cuts.items) (In c.old.trace (drop c.old.at (ops_at set.now c.old.trace)) (rec_of c.old))) }
    ensures err { OnErr result (now_of set.now c.new ≡ now_of set.now c.old) }
{
    match op_at(set, c.trace, c.at) {
        None => {
            go_wrong(set, c);
            Ok(())
        }
        Some(op) => {
            make_step(alloc, set, routes, c, op)?;
            Ok(())
        }
    }
}

/// One operation; a run that has ended stays.
pub fn step(
    alloc: Global,
    set: &TraceSet,
    routes: &Routes,
    c: &mut Cursor,
) -> Result<(), AllocError>
    requires standing { IsStanding set.now c.old }
    requires routed { AreRoutes set.now routes.now }
    requires objects { length c.old.world.world.objects < 2 ^ 31 }
    requires calls { length c.old.world.world.log < 2 ^ 31 }
    ensures kept { IsStanding set.now c.new }
    ensures ok { OnOk result (now_of set.now c.new ≡ next (recorded set.now routes.now.cuts.items) (now_of set.now c.old)) }
    ensures err { OnErr result (now_of set.now c.new ≡ now_of set.now c.old) }
{
    match c.state {
        RecState::Going => step_inside(alloc, set, routes, c),
        _ => Ok(()),
    }
}
