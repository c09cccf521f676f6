//! The check of a set, and sets that have passed it.
ghost use Rattle.std.specs.Prelude.{◌≡◌, IfOk, IfErr, slice_get};
ghost use Rattle.std.specs.Option.{option_map};
ghost use Rattle.trace_ops.specs.declared.trace.Trace.{Trace};
ghost use Rattle.trace_ops.specs.WellFormed.{IsWellFormed};
ghost use Rattle.trace_ops.specs.InRange.{IsInRange};
ghost use Rattle.trace_check.specs.Faults.{HasCause, IsChecked, IsLeastRule};

use crate::fault::CheckFault;
use crate::walk::{Fault, least_fault};
use std::alloc::Global;
use std::marker::Model;
use trace_ops::{Text, TraceSet, What, weight};

/// The greatest weight of a set.
const MOST_WEIGHT: u64 = 131072;

/// A set that was checked: it is in range and well formed, and its weight is at most 131,072.
#[derive(Drop)]
pub struct Checked {
    set: TraceSet,
}

impl Model for Checked {
    ghost use Rattle.trace_ops.specs.declared.trace.TraceSet.{TraceSet};
    ghost use Rattle.trace_check.specs.Faults.{IsChecked};

    ghost Value = { TraceSet };

    ghost view = { λ c. c.set };

    ghost invariant = { λ c. IsChecked c.set };
}

impl Checked {
    /// The set that was checked.
    pub fn set(&self) -> &TraceSet
        ensures value { result.now ≡ self.now }
        ensures checked { IsChecked self.now }
    {
        &self.set
    }
}

fn name_at(set: &TraceSet, i: u32) -> Option<Text>
    ensures { result ≡ option_map (λ (t : Trace). t.name) (slice_get set.now.traces i) }
{
    match set.traces.items().get(i as usize) {
        None => None,
        Some(trace) => Some(trace.name),
    }
}

/// Checks a set by the rules of well-formed sets and by its weight.
///
/// # Errors
/// The least trace, operation and rule at which a rule fails; or where none fails and the weight is
/// over 131,072, that weight, or 2^64 - 1 where that is less; or want of memory.
pub fn check(alloc: Global, set: TraceSet) -> Result<Checked, CheckFault>
    requires { IsInRange set }
    ensures kept { IfOk result (λ c. (c ≡ set) × IsChecked set) }
    ensures cause { IfErr result (λ e. HasCause set e) }
{
    match least_fault(alloc, &set) {
        Err(_) => Err(CheckFault::OutOfMemory),
        Ok(Some(fault)) => Err(ill_formed(&set, fault)),
        Ok(None) => weighed(set),
    }
}

fn ill_formed(set: &TraceSet, fault: Fault) -> CheckFault
    requires { IsLeastRule set.now fault.trace fault.op fault.rule }
    ensures { HasCause set.now result }
{
    match name_at(set, fault.trace) {
        None => CheckFault::OutOfMemory,
        Some(name) => CheckFault::IllFormed {
            trace: fault.trace,
            name,
            op: fault.op,
            rule: fault.rule.number(),
        },
    }
}

fn weighed(set: TraceSet) -> Result<Checked, CheckFault>
    requires range { IsInRange set }
    requires formed { IsWellFormed set }
    ensures kept { IfOk result (λ c. (c ≡ set) × IsChecked set) }
    ensures cause { IfErr result (λ e. HasCause set e) }
{
    let count = weight(&set);
    if MOST_WEIGHT < count {
        return Err(CheckFault::Limit {
            what: What::Weight,
            count,
        });
    }
    Ok(Checked { set })
}
