// The moves of a jump's arguments and of each call's.
#![tactic(auto)]

ghost use Rattle.std.specs.Prelude.{◌≡◌, IfOk, OnOk, ◌++◌};
ghost use Rattle.std.specs.List.{AllZip};
ghost use Rattle.parallel_move.specs.Moving.{HasDistinctTargets};
ghost use Rattle.asm_select.specs.Chosen.{arg_places};
ghost use Rattle.asm_select.specs.Given.{where_in};
ghost use Rattle.asm_select.specs.Drafting.{pair_at, pairs_at, Moved, CallIsPlanned, IsPlanned};
ghost use Rattle.linear_scan.specs.Placing.{AreDistinct};

use crate::plain::ARG_PLACES;
use parallel_move::{Move, moves};
use std::alloc::{AllocError, Global};
use target_base::Place;
use trace_ops::{Arg, List, OptOp};

fn place_in(at: &[Place], b: u32) -> Place
    ensures { result ≡ where_in at.now b }
{
    at.get(b as usize).copied().unwrap_or(Place::Word(16))
}

// The pair of an argument that stands at a place.
fn push_pair(
    pairs: &mut Vec<(Place, Place)>,
    at: &[Place],
    target: Place,
    arg: Arg,
) -> Result<(), AllocError>
    ensures { OnOk result (pairs.new.items ≡ pairs.old.items ++ pair_at (where_in at.now) target arg) }
{
    match arg {
        Arg::Of(b) => {
            pairs.push((target, place_in(at, b.number)))?;
            Ok(())
        }
        _ => Ok(()),
    }
}

// The pairs of the arguments that stand at places.
fn pairs_of(
    alloc: Global,
    at: &[Place],
    args: &[Arg],
    targets: &[Place],
) -> Result<Vec<(Place, Place)>, AllocError>
    ensures { IfOk result (λ pairs. pairs.items ≡ pairs_at (where_in at.now) args.now targets.now) }
{
    let mut pairs = Vec::new(alloc);
    for k in 0..args.len() {
        if k < targets.len() {
            push_pair(&mut pairs, at, targets[k], args[k])?;
        }
    }
    Ok(pairs)
}

// The moves that bring arguments to their targets at once.
fn moves_to(
    alloc: Global,
    at: &[Place],
    args: &[Arg],
    targets: &[Place],
) -> Result<List<Move>, AllocError>
    requires { HasDistinctTargets (pairs_at (where_in at.now) args.now targets.now) }
    ensures { IfOk result (λ ms. Moved (pairs_at (where_in at.now) args.now targets.now) ms) }
{
    let pairs = pairs_of(alloc, at, args, targets)?;
    let planned = moves(alloc, &pairs)?;
    let _count = planned.as_slice().len();
    Ok(List::of(planned))
}

// To the registers of a function's arguments.
fn moves_to_registers(alloc: Global, at: &[Place], args: &[Arg]) -> Result<List<Move>, AllocError>
    ensures { IfOk result (λ ms. Moved (pairs_at (where_in at.now) args.now arg_places) ms) }
{
    moves_to(alloc, at, args, &ARG_PLACES)
}

fn moves_of_call(alloc: Global, at: &[Place], args: &[Arg]) -> Result<List<Move>, AllocError>
    ensures { IfOk result (λ ms. CallIsPlanned (where_in at.now) args.now ms) }
{
    match args {
        [Arg::Func(_), rest @ ..] => moves_to_registers(alloc, at, rest),
        _ => Ok(List::of(Vec::new(alloc))),
    }
}

fn moves_of(alloc: Global, at: &[Place], to: &[Place], op: &OptOp) -> Result<List<Move>, AllocError>
    requires { AreDistinct to.now }
    ensures { IfOk result (λ ms. IsPlanned (where_in at.now) to.now op.now ms) }
{
    match op {
        OptOp::Plain { args, .. } => moves_of_call(alloc, at, args.items()),
        OptOp::Jump { args, .. } => moves_to(alloc, at, args.items(), to),
        _ => Ok(List::of(Vec::new(alloc))),
    }
}

/// The moves of each operation's arguments: of a jump's to the label's places, and of a call's to their registers.
pub fn plan_moves(
    alloc: Global,
    at: &[Place],
    to: &[Place],
    ops: &[OptOp],
) -> Result<Vec<List<Move>>, AllocError>
    requires { AreDistinct to.now }
    ensures { IfOk result (λ plan. AllZip (IsPlanned (where_in at.now) to.now) ops.now plan.items) }
{
    let mut plan = Vec::new(alloc);
    for k in 0..ops.len() {
        let moves = moves_of(alloc, at, to, &ops[k])?;
        plan.push(moves)?;
    }
    Ok(plan)
}
