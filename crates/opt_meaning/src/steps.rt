//! How one operation moves a run of pieces, inside a piece.

ghost use Rattle.std.specs.Prelude.{◌≡◌, ◌+◌, ◌<◌, ◌-◌, ◌^◌, Some, None, length, drop, OnOk, OnErr};
ghost use Rattle.std.specs.HashMap.{spare};
ghost use Rattle.trace_meaning.specs.Legs.{Over, In, Waits as LeftWaiting, Misfits as LeftMisfit, settle, next};
ghost use Rattle.trace_meaning.specs.Passing.{passes as passes_meant};
ghost use Rattle.trace_meaning.specs.Performing.{perform as performed};
ghost use Rattle.trace_meaning.specs.Steps.{IsNumbered};
ghost use Rattle.trace_meaning.specs.Routes.{AreRoutes};
ghost use Rattle.opt_meaning.specs.declared.cursor.Way.TheVariants as Way;
ghost use Rattle.opt_meaning.specs.Step.{opt_step as step_meant, opt_plain, opt_perform, opt_test, opt_result, opt_guard, opt_values};
ghost use Rattle.opt_meaning.specs.Pieces.{ops_at, pieces as program};
ghost use Rattle.opt_meaning.specs.Standing.{IsStanding, turned, now_of, opt_of, settled};

use crate::cursor::{OptCursor, Way};
use crate::leaving::{fail_guard, go_wrong, step_finish, step_jump};
use crate::places::{op_at, ops_of_piece};
use std::alloc::{AllocError, Global};
use trace_meaning::{Done, RecState, Routes, Value, passes, perform};
use trace_ops::{Arg, BoxId, Descr, OpCode, OptOp, Piece, Snapshot, TraceSet};

// The run goes on behind a plain operation or a guard.
fn go_on(set: &TraceSet, ps: &[Piece], c: &mut OptCursor)
    requires standing { IsStanding set.now ps.now c.old }
    requires going { c.old.way ≡ Way.Inside }
    requires within { c.old.at < length (ops_at ps.now c.old.piece) }
    ensures kept { IsStanding set.now ps.now c.new }
    ensures now { now_of ps.now c.new ≡ In c.old.piece (drop (c.old.at + 1) (ops_at ps.now c.old.piece)) (opt_of c.old) }
{
    let count = ops_of_piece(ps, c.piece).len();
    let at = c.at;
    if at < count {
        c.at = at + 1;
    }
}

// The result of a plain operation gets its value, where there is room for it.
fn bind_result(
    set: &TraceSet,
    ps: &[Piece],
    c: &mut OptCursor,
    result_box: Option<BoxId>,
    value: Option<Value>,
)
    requires standing { IsStanding set.now ps.now c.old }
    requires going { c.old.way ≡ Way.Inside }
    requires within { c.old.at < length (ops_at ps.now c.old.piece) }
    requires room { 0 < spare c.old.boxes.values }
    ensures kept { IsStanding set.now ps.now c.new }
    ensures now { now_of ps.now c.new ≡ turned c.old.piece (drop (c.old.at + 1) (ops_at ps.now c.old.piece)) (opt_result result_box (opt_of c.old) value c.old.world.world) }
{
    match result_box {
        None => go_on(set, ps, c),
        Some(of) => match value {
            None => go_wrong(set, ps, c),
            Some(value) => {
                c.boxes.bind_in_room(of, value);
                go_on(set, ps, c)
            }
        },
    }
}

// The run waits at its last call.
fn wait(set: &TraceSet, ps: &[Piece], c: &mut OptCursor)
    requires { IsStanding set.now ps.now c.old }
    ensures kept { IsStanding set.now ps.now c.new }
    ensures now { now_of ps.now c.new ≡ Over c.old.piece (LeftWaiting c.old.world.world) }
{
    c.state = RecState::Waits;
    c.way = Way::Waits;
}

// The answer to the last call doesn't fit.
fn misfit(set: &TraceSet, ps: &[Piece], c: &mut OptCursor, call: u32)
    requires standing { IsStanding set.now ps.now c.old }
    requires last { call ≡ length c.old.world.world.log - 1 }
    ensures kept { IsStanding set.now ps.now c.new }
    ensures now { now_of ps.now c.new ≡ Over c.old.piece (LeftMisfit c.old.world.world) }
{
    c.state = RecState::Misfit { call };
    c.way = Way::Misfits;
}

// What came of a plain operation, where there is room for its result.
fn settle_plain(set: &TraceSet, ps: &[Piece], c: &mut OptCursor, to: Option<BoxId>, done: Done)
    requires standing { IsStanding set.now ps.now c.old }
    requires going { c.old.way ≡ Way.Inside }
    requires within { c.old.at < length (ops_at ps.now c.old.piece) }
    requires room { 0 < spare c.old.boxes.values }
    requires last { IsNumbered done c.old.world }
    ensures kept { IsStanding set.now ps.now c.new }
    ensures now { now_of ps.now c.new ≡ settled ps.now c.old.piece c.old.at (opt_of c.old) to done }
{
    match done {
        Done::Gave(value) => bind_result(set, ps, c, to, value),
        Done::Bad => go_wrong(set, ps, c),
        Done::Waited => wait(set, ps, c),
        Done::Misfitted(call) => misfit(set, ps, c, call),
    }
}

// The operation is a plain one.
fn make_plain(
    alloc: Global,
    set: &TraceSet,
    ps: &[Piece],
    c: &mut OptCursor,
    operation: OpCode,
    to: Option<BoxId>,
    args: &[Arg],
    descr: Descr,
    values: &[Value],
) -> Result<(), AllocError>
    requires standing { IsStanding set.now ps.now c.old }
    requires going { c.old.way ≡ Way.Inside }
    requires within { c.old.at < length (ops_at ps.now c.old.piece) }
    requires objects { length c.old.world.world.objects < 2 ^ 31 }
    requires calls { length c.old.world.world.log < 2 ^ 31 }
    ensures kept { IsStanding set.now ps.now c.new }
    ensures ok { OnOk result (now_of ps.now c.new ≡ turned c.old.piece (drop (c.old.at + 1) (ops_at ps.now c.old.piece)) (opt_plain to (opt_of c.old) (performed set.now.table operation descr args.now values.now c.old.world.world))) }
    ensures err { OnErr result (now_of ps.now c.new ≡ now_of ps.now c.old) }
{
    c.boxes.reserve()?;
    let done = perform(
        alloc,
        &set.table,
        operation,
        descr,
        args,
        values,
        &mut c.world,
    )?;
    settle_plain(set, ps, c, to, done);
    Ok(())
}

// The operation is a guard.
fn make_guard(
    alloc: Global,
    set: &TraceSet,
    ps: &[Piece],
    routes: &Routes,
    c: &mut OptCursor,
    operation: OpCode,
    args: &[Arg],
    guard: u32,
    snap: &Snapshot,
    values: &[Value],
) -> Result<(), AllocError>
    requires standing { IsStanding set.now ps.now c.old }
    requires routed { AreRoutes set.now routes.now }
    requires going { c.old.way ≡ Way.Inside }
    requires within { c.old.at < length (ops_at ps.now c.old.piece) }
    requires objects { length c.old.world.world.objects < 2 ^ 31 }
    ensures kept { IsStanding set.now ps.now c.new }
    ensures ok { OnOk result (now_of ps.now c.new ≡ settle (program set.now ps.now routes.now.cuts.items) c.old.piece (drop (c.old.at + 1) (ops_at ps.now c.old.piece)) (opt_guard guard snap.now (opt_of c.old) (passes_meant operation args.now values.now c.old.world.world))) }
    ensures err { OnErr result (now_of ps.now c.new ≡ now_of ps.now c.old) }
{
    let overflow = c.world.overflow();
    match passes(operation, args, values, c.world.objects(), overflow) {
        None => {
            go_wrong(set, ps, c);
            Ok(())
        }
        Some(true) => {
            go_on(set, ps, c);
            Ok(())
        }
        Some(false) => fail_guard(alloc, set, ps, routes, c, guard, snap),
    }
}

// A plain operation, where its arguments have values.
fn step_plain(
    alloc: Global,
    set: &TraceSet,
    ps: &[Piece],
    routes: &Routes,
    c: &mut OptCursor,
    operation: OpCode,
    to: Option<BoxId>,
    args: &[Arg],
    descr: Descr,
) -> Result<(), AllocError>
    requires standing { IsStanding set.now ps.now c.old }
    requires going { c.old.way ≡ Way.Inside }
    requires within { c.old.at < length (ops_at ps.now c.old.piece) }
    requires objects { length c.old.world.world.objects < 2 ^ 31 }
    requires calls { length c.old.world.world.log < 2 ^ 31 }
    ensures kept { IsStanding set.now ps.now c.new }
    ensures ok { OnOk result (now_of ps.now c.new ≡ settle (program set.now ps.now routes.now.cuts.items) c.old.piece (drop (c.old.at + 1) (ops_at ps.now c.old.piece)) (opt_perform set.now.table operation to args.now descr (opt_of c.old) (opt_values (opt_of c.old) args.now))) }
    ensures err { OnErr result (now_of ps.now c.new ≡ now_of ps.now c.old) }
{
    match c.boxes.values_of(args)? {
        None => {
            go_wrong(set, ps, c);
            Ok(())
        }
        Some(values) => make_plain(alloc, set, ps, c, operation, to, args, descr, &values),
    }
}

// A guard, where its arguments have values.
fn step_guard(
    alloc: Global,
    set: &TraceSet,
    ps: &[Piece],
    routes: &Routes,
    c: &mut OptCursor,
    operation: OpCode,
    args: &[Arg],
    guard: u32,
    snap: &Snapshot,
) -> Result<(), AllocError>
    requires standing { IsStanding set.now ps.now c.old }
    requires routed { AreRoutes set.now routes.now }
    requires going { c.old.way ≡ Way.Inside }
    requires within { c.old.at < length (ops_at ps.now c.old.piece) }
    requires objects { length c.old.world.world.objects < 2 ^ 31 }
    ensures kept { IsStanding set.now ps.now c.new }
    ensures ok { OnOk result (now_of ps.now c.new ≡ settle (program set.now ps.now routes.now.cuts.items) c.old.piece (drop (c.old.at + 1) (ops_at ps.now c.old.piece)) (opt_test operation args.now guard snap.now (opt_of c.old) (opt_values (opt_of c.old) args.now))) }
    ensures err { OnErr result (now_of ps.now c.new ≡ now_of ps.now c.old) }
{
    match c.boxes.values_of(args)? {
        None => {
            go_wrong(set, ps, c);
            Ok(())
        }
        Some(values) => make_guard(
            alloc, set, ps, routes, c, operation, args, guard, snap, &values,
        ),
    }
}

// An operation.
fn make_step(
    alloc: Global,
    set: &TraceSet,
    ps: &[Piece],
    routes: &Routes,
    c: &mut OptCursor,
    op: &OptOp,
) -> Result<(), AllocError>
    requires standing { IsStanding set.now ps.now c.old }
    requires routed { AreRoutes set.now routes.now }
    requires going { c.old.way ≡ Way.Inside }
    requires within { c.old.at < length (ops_at ps.now c.old.piece) }
    requires objects { length c.old.world.world.objects < 2 ^ 31 }
    requires calls { length c.old.world.world.log < 2 ^ 31 }
    ensures kept { IsStanding set.now ps.now c.new }
    ensures ok { OnOk result (now_of ps.now c.new ≡ settle (program set.now ps.now routes.now.cuts.items) c.old.piece (drop (c.old.at + 1) (ops_at ps.now c.old.piece)) (step_meant set.now.table op.now (opt_of c.old))) }
    ensures err { OnErr result (now_of ps.now c.new ≡ now_of ps.now c.old) }
{
    match op {
        OptOp::Plain {
            code,
            result: to,
            args,
            descr,
        } => step_plain(alloc, set, ps, routes, c, *code, *to, args.items(), *descr),
        OptOp::Guard {
            code,
            args,
            guard,
            snap,
        } => step_guard(alloc, set, ps, routes, c, *code, args.items(), *guard, snap),
        OptOp::Exit { guard, snap } => fail_guard(alloc, set, ps, routes, c, *guard, snap),
        OptOp::Jump { args, .. } => step_jump(alloc, set, ps, routes, c, args.items()),
        OptOp::Finish { value } => step_finish(alloc, set, ps, routes, c, *value),
    }
}

// One operation of a run that goes on.
fn step_inside(
    alloc: Global,
    set: &TraceSet,
    ps: &[Piece],
    routes: &Routes,
    c: &mut OptCursor,
) -> Result<(), AllocError>
    requires standing { IsStanding set.now ps.now c.old }
    requires routed { AreRoutes set.now routes.now }
    requires going { c.old.way ≡ Way.Inside }
    requires objects { length c.old.world.world.objects < 2 ^ 31 }
    requires calls { length c.old.world.world.log < 2 ^ 31 }
    ensures kept { IsStanding set.now ps.now c.new }
    ensures ok { OnOk result (now_of ps.now c.new ≡ next (program set.now ps.now routes.now.cuts.items) (In c.old.piece (drop c.old.at (ops_at ps.now c.old.piece)) (opt_of c.old))) }
    ensures err { OnErr result (now_of ps.now c.new ≡ now_of ps.now c.old) }
{
    match op_at(ps, c.piece, c.at) {
        None => {
            go_wrong(set, ps, c);
            Ok(())
        }
        Some(op) => {
            make_step(alloc, set, ps, routes, c, op)?;
            Ok(())
        }
    }
}

/// One operation; a run that has ended stays.
pub fn step(
    alloc: Global,
    set: &TraceSet,
    ps: &[Piece],
    routes: &Routes,
    c: &mut OptCursor,
) -> Result<(), AllocError>
    requires standing { IsStanding set.now ps.now c.old }
    requires routed { AreRoutes set.now routes.now }
    requires objects { length c.old.world.world.objects < 2 ^ 31 }
    requires calls { length c.old.world.world.log < 2 ^ 31 }
    ensures kept { IsStanding set.now ps.now c.new }
    ensures ok { OnOk result (now_of ps.now c.new ≡ next (program set.now ps.now routes.now.cuts.items) (now_of ps.now c.old)) }
    ensures err { OnErr result (now_of ps.now c.new ≡ now_of ps.now c.old) }
{
    match c.way {
        Way::Inside => step_inside(alloc, set, ps, routes, c),
        _ => Ok(()),
    }
}
