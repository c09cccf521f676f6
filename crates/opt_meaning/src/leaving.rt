//! How a run leaves a piece: by a failing guard, by a jump, at its end, or where it goes wrong.

ghost use Rattle.std.specs.Prelude.{◌≡◌, ◌+◌, ◌<◌, ◌-◌, ◌^◌, Some, None, length, map, drop, IfOk, OnOk, OnErr};
ghost use Rattle.trace_ops.specs.declared.trace.Arg.TheVariants.{Of as of_box};
ghost use Rattle.trace_ops.specs.Pieces.{finished as finished_with};
ghost use Rattle.trace_meaning.specs.Legs.{Over, In, Wrong as LeftWrong, Finishes, Jumps, Fails, settle, enter};
ghost use Rattle.trace_meaning.specs.World.{failed};
ghost use Rattle.trace_meaning.specs.Routes.{AreRoutes};
ghost use Rattle.opt_meaning.specs.declared.cursor.Way.TheVariants as Way;
ghost use Rattle.opt_meaning.specs.Step.{opt_fail, opt_leave, opt_values, resume_args};
ghost use Rattle.opt_meaning.specs.Pieces.{ops_at, begin_at, pieces as program, jump_target as target_at, seen_piece as seen_meant};
ghost use Rattle.opt_meaning.specs.Observed.{rebuilt_at};
ghost use Rattle.opt_meaning.specs.Standing.{IsStanding, now_of, opt_of};

use crate::cursor::{OptCursor, Way};
use crate::places::{bridge_piece, jump_target, label_of_piece, ops_of_piece};
use crate::rebuilding::rebuild_at;
use std::alloc::{AllocError, Global};
use trace_meaning::{Boxes, RecFrame, RecState, Routes, Store, Value};
use trace_ops::{Arg, BoxId, List, Piece, PieceId, Snapshot, TraceSet, parts};

/// The run goes wrong.
pub fn go_wrong(set: &TraceSet, ps: &[Piece], c: &mut OptCursor)
    requires { IsStanding set.now ps.now c.old }
    ensures kept { IsStanding set.now ps.now c.new }
    ensures now { now_of ps.now c.new ≡ Over c.old.piece (LeftWrong c.old.world.world) }
{
    c.state = RecState::Wrong;
    c.way = Way::Wrong;
}

// The run finishes.
fn finish(set: &TraceSet, ps: &[Piece], c: &mut OptCursor, values: Vec<Value>)
    requires { IsStanding set.now ps.now c.old }
    ensures kept { IsStanding set.now ps.now c.new }
    ensures now { now_of ps.now c.new ≡ Over c.old.piece (Finishes values.items c.old.world.world) }
{
    c.state = RecState::Finished(values.as_slice().first().copied());
    c.way = Way::Finishes;
    c.left = values;
}

// The run begins a piece with these values.
fn begin(
    alloc: Global,
    set: &TraceSet,
    ps: &[Piece],
    c: &mut OptCursor,
    piece: PieceId,
    values: &[Value],
) -> Result<(), AllocError>
    requires standing { IsStanding set.now ps.now c.old }
    requires going { c.old.way ≡ Way.Inside }
    ensures kept { IsStanding set.now ps.now c.new }
    ensures ok { OnOk result (now_of ps.now c.new ≡ In piece (ops_at ps.now piece) (begin_at ps.now piece values.now c.old.world.world)) }
    ensures err { OnErr result (now_of ps.now c.new ≡ now_of ps.now c.old) }
{
    let boxes = Boxes::bound_to(alloc, label_of_piece(ps, piece), values)?;
    c.boxes = boxes;
    c.piece = piece;
    c.at = 0;
    Ok(())
}

// The run jumps at the end of its piece.
fn jump(
    alloc: Global,
    set: &TraceSet,
    ps: &[Piece],
    c: &mut OptCursor,
    values: &[Value],
) -> Result<(), AllocError>
    requires standing { IsStanding set.now ps.now c.old }
    requires going { c.old.way ≡ Way.Inside }
    ensures kept { IsStanding set.now ps.now c.new }
    ensures ok { OnOk result (now_of ps.now c.new ≡ In (target_at ps.now c.old.piece) (ops_at ps.now (target_at ps.now c.old.piece)) (begin_at ps.now (target_at ps.now c.old.piece) values.now c.old.world.world)) }
    ensures err { OnErr result (now_of ps.now c.new ≡ now_of ps.now c.old) }
{
    let target = jump_target(ps, c.piece);
    begin(alloc, set, ps, c, target, values)
}

// A guard has failed for good, and rebuilds nothing.
fn exit_wrong(
    set: &TraceSet,
    ps: &[Piece],
    c: &mut OptCursor,
    guard: u32,
    values: Vec<Value>,
) -> Result<(), AllocError>
    requires standing { IsStanding set.now ps.now c.old }
    requires none { rebuilt_at set.now ps.now c.old.piece guard values.items c.old.world.world ≡ None }
    ensures kept { IsStanding set.now ps.now c.new }
    ensures ok { OnOk result (now_of ps.now c.new ≡ Over c.old.piece (Fails guard values.items (failed c.old.world.world))) }
    ensures err { OnErr result (now_of ps.now c.new ≡ now_of ps.now c.old) }
{
    c.world.fail()?;
    c.state = RecState::Wrong;
    c.way = Way::Fails(guard);
    c.left = values;
    c.rebuilt = None;
    Ok(())
}

// A guard has failed for good, with what it has rebuilt.
fn exit_with(
    set: &TraceSet,
    ps: &[Piece],
    c: &mut OptCursor,
    guard: u32,
    values: Vec<Value>,
    frames: List<RecFrame>,
    store: Store,
) -> Result<(), AllocError>
    requires standing { IsStanding set.now ps.now c.old }
    requires some { rebuilt_at set.now ps.now c.old.piece guard values.items c.old.world.world ≡ Some (record { objects = store.objects; frames = frames }) }
    ensures kept { IsStanding set.now ps.now c.new }
    ensures ok { OnOk result (now_of ps.now c.new ≡ Over c.old.piece (Fails guard values.items (failed c.old.world.world))) }
    ensures err { OnErr result (now_of ps.now c.new ≡ now_of ps.now c.old) }
{
    c.world.fail()?;
    c.state = RecState::Exited {
        trace: c.piece.trace,
        guard,
        frames,
    };
    c.way = Way::Fails(guard);
    c.left = values;
    c.rebuilt = Some(store);
    Ok(())
}

// The run ends at a failing guard.
fn exit(
    alloc: Global,
    set: &TraceSet,
    ps: &[Piece],
    c: &mut OptCursor,
    guard: u32,
    values: Vec<Value>,
) -> Result<(), AllocError>
    requires standing { IsStanding set.now ps.now c.old }
    requires objects { length c.old.world.world.objects < 2 ^ 31 }
    ensures kept { IsStanding set.now ps.now c.new }
    ensures ok { OnOk result (now_of ps.now c.new ≡ Over c.old.piece (Fails guard values.items (failed c.old.world.world))) }
    ensures err { OnErr result (now_of ps.now c.new ≡ now_of ps.now c.old) }
{
    match rebuild_at(
        alloc,
        &set.table,
        ops_of_piece(ps, c.piece),
        guard,
        &values,
        &c.world,
    )? {
        None => exit_wrong(set, ps, c, guard, values),
        Some((frames, store)) => exit_with(set, ps, c, guard, values, frames, store),
    }
}

// The run goes from a failing guard into the piece of a bridge.
fn enter_bridge(
    alloc: Global,
    set: &TraceSet,
    ps: &[Piece],
    c: &mut OptCursor,
    bridge: PieceId,
    values: &[Value],
) -> Result<(), AllocError>
    requires standing { IsStanding set.now ps.now c.old }
    requires going { c.old.way ≡ Way.Inside }
    ensures kept { IsStanding set.now ps.now c.new }
    ensures ok { OnOk result (now_of ps.now c.new ≡ In bridge (ops_at ps.now bridge) (begin_at ps.now bridge values.now (failed c.old.world.world))) }
    ensures err { OnErr result (now_of ps.now c.new ≡ now_of ps.now c.old) }
{
    let boxes = Boxes::bound_to(alloc, label_of_piece(ps, bridge), values)?;
    c.world.fail()?;
    c.boxes = boxes;
    c.piece = bridge;
    c.at = 0;
    Ok(())
}

// The piece of the bridge that a failure sees, of the half of the piece that it leaves.
fn seen_piece(
    set: &TraceSet,
    ps: &[Piece],
    routes: &Routes,
    from: PieceId,
    guard: u32,
    failure: u64,
) -> Option<PieceId>
    requires { AreRoutes set.now routes.now }
    ensures { result ≡ seen_meant set.now ps.now routes.now.cuts.items from guard failure }
{
    match routes.bridge(from.trace, guard as usize, failure) {
        None => None,
        Some(bridge) => bridge_piece(ps, from.half, bridge),
    }
}

// A guard fails: it counts a failure, and the run goes into the bridge that this failure sees, or ends.
fn leave_by_guard(
    alloc: Global,
    set: &TraceSet,
    ps: &[Piece],
    routes: &Routes,
    c: &mut OptCursor,
    guard: u32,
    values: Vec<Value>,
) -> Result<(), AllocError>
    requires standing { IsStanding set.now ps.now c.old }
    requires routed { AreRoutes set.now routes.now }
    requires going { c.old.way ≡ Way.Inside }
    requires objects { length c.old.world.world.objects < 2 ^ 31 }
    ensures kept { IsStanding set.now ps.now c.new }
    ensures ok { OnOk result (now_of ps.now c.new ≡ enter (program set.now ps.now routes.now.cuts.items) c.old.piece (Fails guard values.items c.old.world.world)) }
    ensures err { OnErr result (now_of ps.now c.new ≡ now_of ps.now c.old) }
{
    let failure = c.world.failures();
    match seen_piece(set, ps, routes, c.piece, guard, failure) {
        None => exit(alloc, set, ps, c, guard, values),
        Some(bridge) => enter_bridge(alloc, set, ps, c, bridge, &values),
    }
}

// The boxes of a snapshot, as arguments.
fn box_args(alloc: Global, snap: &Snapshot) -> Result<Vec<Arg>, AllocError>
    ensures { IfOk result (λ r. r.items ≡ resume_args snap.now) }
{
    let boxes = parts(alloc, snap)?;
    args_of_boxes(alloc, &boxes)
}

fn args_of_boxes(alloc: Global, boxes: &[BoxId]) -> Result<Vec<Arg>, AllocError>
    ensures { IfOk result (λ r. r.items ≡ map of_box boxes.now) }
{
    let mut args = Vec::new(alloc);
    for b in boxes {
        args.push(Arg::Of(*b))?;
    }
    Ok(args)
}

/// A guard fails, where its boxes have values.
pub fn fail_guard(
    alloc: Global,
    set: &TraceSet,
    ps: &[Piece],
    routes: &Routes,
    c: &mut OptCursor,
    guard: u32,
    snap: &Snapshot,
) -> Result<(), AllocError>
    requires standing { IsStanding set.now ps.now c.old }
    requires routed { AreRoutes set.now routes.now }
    requires going { c.old.way ≡ Way.Inside }
    requires objects { length c.old.world.world.objects < 2 ^ 31 }
    ensures kept { IsStanding set.now ps.now c.new }
    ensures ok { OnOk result (now_of ps.now c.new ≡ settle (program set.now ps.now routes.now.cuts.items) c.old.piece (drop (c.old.at + 1) (ops_at ps.now c.old.piece)) (opt_fail guard snap.now (opt_of c.old))) }
    ensures err { OnErr result (now_of ps.now c.new ≡ now_of ps.now c.old) }
{
    let args = box_args(alloc, snap)?;
    match c.boxes.values_of(&args)? {
        None => {
            go_wrong(set, ps, c);
            Ok(())
        }
        Some(values) => leave_by_guard(alloc, set, ps, routes, c, guard, values),
    }
}

// The value of a finish, as a list.
fn finish_args(alloc: Global, value: Option<Arg>) -> Result<Vec<Arg>, AllocError>
    ensures { IfOk result (λ r. r.items ≡ finished_with value) }
{
    let mut args = Vec::new(alloc);
    match value {
        None => Ok(args),
        Some(a) => {
            args.push(a)?;
            Ok(args)
        }
    }
}

/// A jump, where its arguments have values.
pub fn step_jump(
    alloc: Global,
    set: &TraceSet,
    ps: &[Piece],
    routes: &Routes,
    c: &mut OptCursor,
    args: &[Arg],
) -> Result<(), AllocError>
    requires standing { IsStanding set.now ps.now c.old }
    requires going { c.old.way ≡ Way.Inside }
    ensures kept { IsStanding set.now ps.now c.new }
    ensures ok { OnOk result (now_of ps.now c.new ≡ settle (program set.now ps.now routes.now.cuts.items) c.old.piece (drop (c.old.at + 1) (ops_at ps.now c.old.piece)) (opt_leave Jumps (opt_of c.old) (opt_values (opt_of c.old) args.now))) }
    ensures err { OnErr result (now_of ps.now c.new ≡ now_of ps.now c.old) }
{
    match c.boxes.values_of(args)? {
        None => {
            go_wrong(set, ps, c);
            Ok(())
        }
        Some(values) => jump(alloc, set, ps, c, &values),
    }
}

/// A finish, where its argument has a value.
pub fn step_finish(
    alloc: Global,
    set: &TraceSet,
    ps: &[Piece],
    routes: &Routes,
    c: &mut OptCursor,
    value: Option<Arg>,
) -> Result<(), AllocError>
    requires standing { IsStanding set.now ps.now c.old }
    requires going { c.old.way ≡ Way.Inside }
    ensures kept { IsStanding set.now ps.now c.new }
    ensures ok { OnOk result (now_of ps.now c.new ≡ settle (program set.now ps.now routes.now.cuts.items) c.old.piece (drop (c.old.at + 1) (ops_at ps.now c.old.piece)) (opt_leave Finishes (opt_of c.old) (opt_values (opt_of c.old) (finished_with value)))) }
    ensures err { OnErr result (now_of ps.now c.new ≡ now_of ps.now c.old) }
{
    let args = finish_args(alloc, value)?;
    match c.boxes.values_of(&args)? {
        None => {
            go_wrong(set, ps, c);
            Ok(())
        }
        Some(values) => {
            finish(set, ps, c, values);
            Ok(())
        }
    }
}
