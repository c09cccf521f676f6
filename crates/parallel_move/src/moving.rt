//! Several moves of words at once, as moves one after the other.
ghost use Rattle.std.specs.Prelude.{◌≡◌, ◌≤◌, length, vec_len, IfOk, OnOk, false, ◌+◌};
ghost use Rattle.parallel_move.specs.Moving.{State, at_once, after, is_target, HasDistinctTargets, Settles, KeepsPlaces, MovesAmong};
ghost use Rattle.parallel_move.specs.Resting.{name, named, pairs_of, IsBelow};

use crate::rest::Rest;
use std::alloc::{AllocError, Global};
use target_base::Place;

/// A move of words, its target first. A swap exchanges the words of two places.
#[derive(Clone, Copy, Debug, PartialEq, Eq)]
pub enum Move {
    Copy(Place, Place),
    Swap(Place, Place),
}

// Plans one of the pairs, so that it is no longer to be done.
fn settle(
    first: &mut Vec<Move>,
    last: &mut Vec<Move>,
    rest: &mut Rest,
    pair: (usize, usize),
) -> Result<(), AllocError>
    requires below { IsBelow (length rest.old.names) pair }
    requires once { is_target (name rest.old.names pair.0) (pairs_of rest.old) ≡ false }
    ensures settles { OnOk result (Settles (named rest.old.names pair) first.old.items last.old.items (pairs_of rest.old) first.new.items last.new.items (pairs_of rest.new)) }
    ensures distinct { OnOk result (HasDistinctTargets (pairs_of rest.old) → HasDistinctTargets (pairs_of rest.new)) }
    ensures few { OnOk result (vec_len first.new + vec_len last.new ≤ vec_len first.old + vec_len last.old + 1) }
    ensures len { OnOk result (length rest.new.pairs ≡ length rest.old.pairs) }
    ensures among { OnOk result (KeepsPlaces (named rest.old.names pair) first.old.items last.old.items (pairs_of rest.old) first.new.items last.new.items (pairs_of rest.new)) }
{
    let (target, source) = pair;
    if rest.are_one(target, source) {
        return Ok(());
    }
    let to = rest.place(target);
    let from = rest.place(source);
    if !rest.is_source(target) {
        first.push(Move::Copy(to, from))?;
        return Ok(());
    }
    if rest.is_target(source) {
        first.push(Move::Swap(to, from))?;
        rest.exchange(target, source);
        return Ok(());
    }
    last.push(Move::Copy(to, from))?;
    Ok(())
}

/// Moves that, done in order, have the effect of all pairs (target, source) at once. No place of theirs is another than
/// those of the pairs, so a register that stands in no pair stays free. The time is linear.
pub fn moves(alloc: Global, pairs: &[(Place, Place)]) -> Result<Vec<Move>, AllocError>
    requires { HasDistinctTargets pairs.now }
    ensures acts { IfOk result (λ ms. (state : State) (p : _) → after ms.items state p ≡ at_once pairs.now state p) }
    ensures few { IfOk result (λ ms. vec_len ms ≤ length pairs.now) }
    ensures among { IfOk result (λ ms. MovesAmong pairs.now ms.items) }
{
    let mut rest = Rest::new(alloc, pairs)?;
    let mut first = Vec::new(alloc);
    let mut last = Vec::new(alloc);
    while let Some(pair) = rest.take_next() {
        settle(&mut first, &mut last, &mut rest, pair)?;
    }
    while let Some(m) = last.pop() {
        first.push(m)?;
    }
    Ok(first)
}
