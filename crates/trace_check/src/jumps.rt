//! Whether a jump goes to a loop of the set, with arguments that fit.
ghost use Rattle.std.specs.Prelude.{◌≡◌, ◌↔◌, IsTrue, Some, map};
ghost use Rattle.trace_ops.specs.declared.trace.BoxId.{BoxId};
ghost use Rattle.trace_ops.specs.declared.trace.Origin.TheVariants.{Loop};
ghost use Rattle.trace_ops.specs.Kinds.{kind_of_arg};
ghost use Rattle.trace_ops.specs.Rules.{target_of, IsLoopOf, JumpsRightly, JumpsToItsLoop};
ghost use Rattle.trace_ops.specs.declared.facts.Part.TheVariants as part;
ghost use Rattle.trace_ops.specs.Weights.{place_of};

use crate::kinds::is_of;
use trace_ops::{Arg, BoxId, Descr, Op, Origin, Part, Text, Trace, TraceSet, part_of};

// The place of the first trace of this name.
pub(crate) fn place_of(name: &Text, traces: &[Trace]) -> Option<usize>
    ensures { result ≡ place_of name.now traces.now }
{
    traces.iter().position(|t| t.name.bytes() == name.bytes())
}

fn target_of(set: &TraceSet, i: usize, descr: &Descr) -> Option<usize>
    ensures { result ≡ target_of set.now i descr.now }
{
    match descr {
        Descr::Target(name) => place_of(name, set.traces.items()),
        Descr::No => Some(i),
        _ => None,
    }
}

// Whether the values have the kinds of these boxes, one after the other.
pub(crate) fn fit_inputs(args: &[Arg], inputs: &[BoxId]) -> bool
    ensures { IsTrue result ↔ (map kind_of_arg args.now ≡ map (λ (b : BoxId). Some b.kind) inputs.now) }
{
    match args {
        [] => inputs.is_empty(),
        [a, rest @ ..] => match inputs {
            [] => false,
            [b, others @ ..] => is_of(b.kind, *a) && fit_inputs(rest, others),
        },
    }
}

pub(crate) fn is_loop(origin: &Origin) -> bool
    ensures { IsTrue result ↔ (origin.now ≡ Loop) }
{
    match origin {
        Origin::Loop => true,
        Origin::Bridge { .. } => false,
    }
}

fn is_loop_of(args: &[Arg], target: &Trace) -> bool
    ensures { IsTrue result ↔ IsLoopOf (map kind_of_arg args.now) target.now }
{
    is_loop(&target.origin) && fit_inputs(args, target.inputs.items())
}

fn reaches_its_loop(set: &TraceSet, i: usize, op: &Op) -> bool
    ensures { IsTrue result ↔ JumpsRightly part.Jump set.now i op.now }
{
    let Some(at) = target_of(set, i, &op.descr) else {
        return false;
    };
    match set.traces.items().get(at) {
        None => false,
        Some(target) => is_loop_of(op.args.items(), target),
    }
}

/// Whether a jump goes to a loop of the set, with arguments that fit its inputs.
pub(crate) fn jumps_to_its_loop(set: &TraceSet, i: usize, op: &Op) -> bool
    ensures { IsTrue result ↔ JumpsToItsLoop set.now i op.now }
{
    match part_of(op.code) {
        Part::Jump => reaches_its_loop(set, i, op),
        _ => true,
    }
}
