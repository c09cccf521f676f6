//! The least rule that fails: traces, operations and rules in order.
ghost use Rattle.std.specs.Prelude.{◌≡◌, ◌↔◌, ◌≤◌, ◌<◌, ◌+◌, IsTrue, IfOk, OnOk, MatchOption, Some, None, Option, ℕ, [], length, map, max, slice_get, option_copied};
ghost use Rattle.trace_ops.specs.declared.trace.Trace.{Trace};
ghost use Rattle.trace_ops.specs.InRange.{IsInRange};
ghost use Rattle.trace_ops.specs.Lawful.{AreDistinct};
ghost use Rattle.trace_ops.specs.Rules.{known_before, above, HasDistinctInputs, GivesNewBox, UsesKnownBoxes, IsOrdered};
ghost use Rattle.trace_ops.specs.Weights.{parent_named, parent_at};
ghost use Rattle.trace_ops.specs.WellFormed.{IsWellFormed};
ghost use Rattle.trace_check.specs.Boxes.{repeats};
ghost use Rattle.trace_check.specs.declared.walk.Fault.{Fault};
ghost use Rattle.trace_check.specs.Walking.{up, ArePlaced, HoldBelow, IsNewAt, AreShort};
ghost use Rattle.trace_check.specs.Faults.{number_of, OpHolds, TraceHolds, AtOp, AtFirst, Holds, HoldAll, IsSound, IsFirstRule, IsFirstFault, IsLeastRule};

use crate::arguments::takes_its_arguments;
use crate::boxes::Boxes;
use crate::descrs::{cites_its_descr, gives_its_kind};
use crate::jumps::jumps_to_its_loop;
use crate::order::{has_its_frames, is_beside_its_guard, is_end_only_at_end};
use crate::parents::{has_its_parent, is_new_name, parents_of, receives_its_slots};
use crate::rule::Rule;
use std::alloc::{AllocError, Global};
use trace_ops::{Op, Trace, TraceSet, equality_decides};

// The place of the parent, where there is one.
fn up(parents: &[Option<usize>], at: Option<usize>) -> Option<usize>
    ensures { result ≡ up parents.now at }
{
    match at {
        None => None,
        Some(place) => match parents.get(place) {
            None => None,
            Some(parent) => *parent,
        },
    }
}

// Whether the path to the parents of a trace comes to an end.
fn ends_above(set: &TraceSet, parents: &[Option<usize>], i: usize) -> bool
    requires { ArePlaced set.now parents.now }
    ensures { IsTrue result ↔ (above set.now i (length set.now.traces) ≡ None) }
{
    let mut at = Some(i);
    for step in 0..set.traces.items().len() {
        at = up(parents, at);
    }
    at.is_none()
}

fn is_ordered(set: &TraceSet, parents: &[Option<usize>], i: usize, trace: &Trace) -> bool
    requires { ArePlaced set.now parents.now }
    ensures { IsTrue result ↔ IsOrdered set.now i trace.now }
{
    is_new_name(set, i, &trace.name) && ends_above(set, parents, i)
}

fn trace_holds(
    set: &TraceSet,
    parents: &[Option<usize>],
    i: usize,
    trace: &Trace,
    rule: Rule,
) -> bool
    requires placed { ArePlaced set.now parents.now }
    requires distinct { HasDistinctInputs trace.now }
    ensures { IsTrue result ↔ TraceHolds set.now i trace.now rule }
{
    match rule {
        Rule::End => !trace.ops.items().is_empty(),
        Rule::Parent => has_its_parent(set, trace),
        Rule::BridgeInputs => receives_its_slots(set, i, trace),
        Rule::Order => is_ordered(set, parents, i, trace),
        _ => true,
    }
}

fn lacks(trace: &Trace, k: usize, seen: &Boxes, op: &Op) -> bool
    requires { seen.now ≡ known_before trace.now k }
    ensures { IsTrue result ↔ GivesNewBox trace.now k op.now }
{
    equality_decides();
    seen.lacks(op.result)
}

fn knows_all(trace: &Trace, k: usize, seen: &Boxes, op: &Op) -> bool
    requires { seen.now ≡ known_before trace.now k }
    ensures { IsTrue result ↔ UsesKnownBoxes trace.now k op.now }
{
    equality_decides();
    seen.knows_all(op)
}

fn op_holds(
    set: &TraceSet,
    i: usize,
    trace: &Trace,
    k: usize,
    seen: &Boxes,
    op: &Op,
    rule: Rule,
) -> bool
    requires within { k < length trace.now.ops }
    requires seen { seen.now ≡ known_before trace.now k }
    ensures { IsTrue result ↔ OpHolds set.now i trace.now k op.now rule }
{
    match rule {
        Rule::NewResult => lacks(trace, k, seen, op),
        Rule::KnownBoxes => knows_all(trace, k, seen, op),
        Rule::Arguments => takes_its_arguments(&set.table, op),
        Rule::ResultKind => gives_its_kind(op),
        Rule::DescrClass => cites_its_descr(&set.table, op),
        Rule::OverflowGuards => is_beside_its_guard(trace, k, op),
        Rule::Frames => has_its_frames(op),
        Rule::End => is_end_only_at_end(trace, k, op),
        Rule::JumpTarget => jumps_to_its_loop(set, i, op),
        _ => true,
    }
}

fn op_of(trace: &Trace, k: usize) -> Option<&Op>
    ensures { option_copied result ≡ slice_get trace.now.ops k }
{
    trace.ops.items().get(k)
}

fn holds_at_op(set: &TraceSet, i: usize, trace: &Trace, k: usize, seen: &Boxes, rule: Rule) -> bool
    requires { seen.now ≡ known_before trace.now k }
    ensures { IsTrue result ↔ AtOp trace.now k (λ op. OpHolds set.now i trace.now k op rule) }
{
    match op_of(trace, k) {
        None => true,
        Some(op) => op_holds(set, i, trace, k, seen, op, rule),
    }
}

fn holds_at_first(
    set: &TraceSet,
    parents: &[Option<usize>],
    i: usize,
    trace: &Trace,
    k: usize,
    rule: Rule,
) -> bool
    requires placed { ArePlaced set.now parents.now }
    requires distinct { HasDistinctInputs trace.now }
    ensures { IsTrue result ↔ AtFirst k (TraceHolds set.now i trace.now rule) }
{
    k != 0 || trace_holds(set, parents, i, trace, rule)
}

fn holds(
    set: &TraceSet,
    parents: &[Option<usize>],
    i: usize,
    trace: &Trace,
    k: usize,
    seen: &Boxes,
    rule: Rule,
) -> bool
    requires placed { ArePlaced set.now parents.now }
    requires distinct { HasDistinctInputs trace.now }
    requires seen { seen.now ≡ known_before trace.now k }
    ensures { IsTrue result ↔ Holds set.now i trace.now k rule }
{
    holds_at_op(set, i, trace, k, seen, rule) && holds_at_first(set, parents, i, trace, k, rule)
}

// The first rule that fails at operation k of trace i.
fn rule_at(
    set: &TraceSet,
    parents: &[Option<usize>],
    i: usize,
    trace: &Trace,
    k: usize,
    seen: &Boxes,
) -> Option<Rule>
    requires placed { ArePlaced set.now parents.now }
    requires distinct { HasDistinctInputs trace.now }
    requires seen { seen.now ≡ known_before trace.now k }
    ensures { MatchOption result (HoldAll set.now i trace.now k) (λ r. IsFirstRule set.now i trace.now k r) }
{
    for number in 1..15u8 {
        let rule = Rule::numbered(number);
        if !holds(set, parents, i, trace, k, seen, rule) {
            return Some(rule);
        }
    }
    None
}

// The inputs of a trace, unless one repeats.
#[tactic(auto, using(crate::proofs::Knowing::not_distinct))]
fn begin(alloc: Global, trace: &Trace) -> Result<Option<Boxes>, AllocError>
    ensures { IfOk result (λ o. MatchOption o (HasDistinctInputs trace.now → ⊥) (λ b. HasDistinctInputs trace.now × (b ≡ known_before trace.now 0))) }
{
    equality_decides();
    match Boxes::of_inputs(alloc, trace.inputs.items()) {
        Err(e) => Err(e),
        Ok(None) => Ok(None),
        Ok(Some(seen)) => Ok(Some(seen)),
    }
}

// Adds the result of operation k.
fn add_result(trace: &Trace, k: usize, seen: &mut Boxes) -> Result<(), AllocError>
    requires seen { seen.old ≡ known_before trace.now k }
    requires new { IsNewAt trace.now k seen.old }
    ensures { OnOk result (seen.new ≡ known_before trace.now (k + 1)) }
{
    match op_of(trace, k) {
        None => Ok(()),
        Some(op) => {
            seen.add_result(op.result)?;
            Ok(())
        }
    }
}

// The first operation of a trace at which a rule fails, and the first rule that fails there.
fn walk(
    set: &TraceSet,
    parents: &[Option<usize>],
    i: usize,
    trace: &Trace,
    mut seen: Boxes,
) -> Result<Option<(u32, Rule)>, AllocError>
    requires placed { ArePlaced set.now parents.now }
    requires few { length trace.now.ops ≤ 8192 }
    requires distinct { HasDistinctInputs trace.now }
    requires seen { seen ≡ known_before trace.now 0 }
    ensures { IfOk result (λ o. MatchOption o (IsSound set.now i trace.now) (λ f. IsFirstFault set.now i trace.now f.0 f.1)) }
{
    equality_decides();
    let count = trace.ops.items().len().max(1);
    for k in 0..count {
        if let Some(rule) = rule_at(set, parents, i, trace, k, &seen) {
            return Ok(Some((k as u32, rule)));
        }
        add_result(trace, k, &mut seen)?;
    }
    Ok(None)
}

fn trace_fault(
    alloc: Global,
    set: &TraceSet,
    parents: &[Option<usize>],
    i: usize,
    trace: &Trace,
) -> Result<Option<(u32, Rule)>, AllocError>
    requires placed { ArePlaced set.now parents.now }
    requires few { length trace.now.ops ≤ 8192 }
    ensures { IfOk result (λ o. MatchOption o (IsSound set.now i trace.now) (λ f. IsFirstFault set.now i trace.now f.0 f.1)) }
{
    let Some(seen) = begin(alloc, trace)? else {
        return Ok(Some((0, Rule::DistinctInputs)));
    };
    walk(set, parents, i, trace, seen)
}

fn trace_at(set: &TraceSet, i: usize) -> Option<&Trace>
    ensures { option_copied result ≡ slice_get set.now.traces i }
{
    set.traces.items().get(i)
}

/// A rule that fails: the trace and the operation, counted from 0, and the rule.
#[derive(Drop)]
pub(crate) struct Fault {
    pub trace: u32,
    pub op: u32,
    pub rule: Rule,
}

fn fault_from(
    alloc: Global,
    set: &TraceSet,
    parents: &[Option<usize>],
) -> Result<Option<Fault>, AllocError>
    requires placed { ArePlaced set.now parents.now }
    requires few { length set.now.traces ≤ 256 }
    requires short { AreShort set.now }
    ensures { IfOk result (λ o. MatchOption o (IsWellFormed set.now) (λ (f : Fault). IsLeastRule set.now f.trace f.op f.rule)) }
{
    for i in 0..set.traces.items().len() {
        let Some(trace) = trace_at(set, i) else {
            return Ok(None);
        };
        if let Some((op, rule)) = trace_fault(alloc, set, parents, i, trace)? {
            return Ok(Some(Fault {
                trace: i as u32,
                op,
                rule,
            }));
        }
    }
    Ok(None)
}

/// The least trace, operation and rule at which a rule fails.
pub(crate) fn least_fault(alloc: Global, set: &TraceSet) -> Result<Option<Fault>, AllocError>
    requires { IsInRange set.now }
    ensures { IfOk result (λ o. MatchOption o (IsWellFormed set.now) (λ (f : Fault). IsLeastRule set.now f.trace f.op f.rule)) }
{
    let parents = parents_of(alloc, set)?;
    fault_from(alloc, set, &parents)
}
