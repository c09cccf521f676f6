//! The pieces of a set.
ghost use Rattle.std.specs.Prelude.{◌≡◌, ◌≢◌, ℕ, ◌+◌, ◌<◌, ◌≤◌, [], ◌∷◌, ◌++◌, Some, None, OnOk, OnErr, IfOk, IfErr, length, replicate, slice_get, slice_set};
ghost use Rattle.std.specs.Option.{IsSomeAnd, option_copied};
ghost use Rattle.lists.specs.Has.{Has};
ghost use Rattle.trace_ops.specs.declared.piece.OptTrace.{OptTrace};
ghost use Rattle.loop_peel.specs.Peeling.{IsBridge};
ghost use Rattle.opt_set.specs.Optimised.{Optimised, IsOptimised, left_of, with_loop, with_bridge, with_none};
ghost use Rattle.opt_set.specs.Loops.{IsMadeTo};
ghost use Rattle.opt_set.specs.Attaching.{IsGranted, IsOneMore};
ghost use Rattle.opt_set.specs.Causes.{HasCause};

use crate::fault::AttachFault;
use crate::parents::{is_loop, parent_at};
use loop_peel::{Peeled, bridge as pieces_of_bridge, entries_serve_bridges, peel};
use std::alloc::{AllocError, Global};
use std::marker::Model;
use trace_check::Checked;
use trace_ops::{Entry, Half, List, OptTrace, equality_decides};

/// The pieces of a set's loops, and those of the bridges that were attached so far.
#[derive(Drop)]
pub struct OptimisedSet {
    traces: Vec<OptTrace>,
    attached: Vec<u32>,
    // by the place of a trace with pieces, what is known where their guards fail
    left: Vec<Option<List<(Half, u32, Entry)>>>,
}

impl Model for OptimisedSet {
    ghost use Rattle.loop_peel.specs.Peeling.{IsBridge};
    ghost use Rattle.opt_set.specs.Optimised.{Optimised};

    ghost Value = { Optimised };

    ghost view = { λ s. record { traces = s.traces.items; attached = s.attached.items; left = s.left.items } };
}

fn none_made(alloc: Global, traces: usize) -> Result<OptimisedSet, AllocError>
    ensures traces { IfOk result (λ o. o.traces ≡ []) }
    ensures attached { IfOk result (λ o. o.attached ≡ []) }
    ensures left { IfOk result (λ o. o.left ≡ replicate traces None) }
{
    let mut left = Vec::new(alloc);
    for place in 0..traces {
        let _ = place;
        left.push(None)?;
    }
    Ok(OptimisedSet {
        traces: Vec::new(alloc),
        attached: Vec::new(alloc),
        left,
    })
}

impl OptimisedSet {
    // The pieces of a trace, and what their guards leave.
    fn add(&mut self, trace: u32, made: Peeled) -> Result<(), AllocError>
        requires { trace < length self.old.left }
        ensures ok { OnOk result (self.new ≡ with_loop self.old trace made.opt made.at_guards) }
        ensures err { OnErr result (self.new ≡ self.old) }
    {
        let Peeled { opt, at_guards } = made;
        self.traces.push(opt)?;
        self.left[trace as usize] = Some(at_guards);
        Ok(())
    }

    /// Attaches a bridge with the pieces that [`OptimisedSet::pieces_of`] made for it. Where memory is refused, all is as it was.
    pub fn add_bridge(&mut self, bridge: u32, made: Peeled) -> Result<(), AllocError>
        requires { bridge < length self.old.left }
        ensures ok { OnOk result (self.new ≡ with_bridge self.old bridge made.opt made.at_guards) }
        ensures err { OnErr result (self.new ≡ self.old) }
    {
        self.attached.push(bridge)?;
        if let Err(error) = self.add(bridge, made) {
            let _ = self.attached.pop();
            return Err(error);
        }
        Ok(())
    }

    // The trace has no pieces.
    fn clear(&mut self, trace: u32)
        requires { trace < length self.old.left }
        ensures { self.new ≡ with_none self.old trace }
    {
        self.left[trace as usize] = None;
    }

    // Where the guards of a trace with pieces fail.
    fn left_at(&self, trace: Option<usize>) -> Option<&List<(Half, u32, Entry)>>
        ensures { option_copied result ≡ left_of self.now.left trace }
    {
        match trace {
            None => None,
            Some(place) => match self.left.get(place) {
                None => None,
                Some(None) => None,
                Some(Some(left)) => Some(left),
            },
        }
    }

    // The pieces of the trace of this place, where it is a loop.
    fn add_loop(&mut self, alloc: Global, checked: &Checked, trace: u32) -> Result<(), AllocError>
        requires trace { trace < length checked.now.traces }
        requires made { IsMadeTo checked.now trace self.old }
        ensures { OnOk result (IsMadeTo checked.now (trace + 1) self.new) }
    {
        equality_decides();
        let set = checked.set();
        if !is_loop(set, trace) {
            return Ok(());
        }
        let made = peel(alloc, checked, trace)?;
        self.add(trace, made)?;
        Ok(())
    }

    /// The pieces of all loops.
    pub fn new(alloc: Global, checked: &Checked) -> Result<OptimisedSet, AllocError>
        ensures pieces { IfOk result (λ o. IsOptimised checked.now o) }
        ensures attached { IfOk result (λ o. o.attached ≡ []) }
    {
        let traces = checked.set().traces.items().len();
        let mut made = none_made(alloc, traces)?;
        for trace in 0..traces {
            made.add_loop(alloc, checked, trace as u32)?;
        }
        Ok(made)
    }

    /// The pieces of a bridge, made from what is known where its guard fails; nothing is attached yet. The answer is one for
    /// [`OptimisedSet::add_bridge`].
    ///
    /// # Errors
    /// Those of [`OptimisedSet::attach`].
    pub fn pieces_of(
        &self,
        alloc: Global,
        checked: &Checked,
        bridge: u32,
    ) -> Result<Peeled, AttachFault>
        requires pieces { IsOptimised checked.now self.now }
        requires bridge { IsBridge checked.now bridge }
        ensures pieces { IfOk result (λ m. IsOptimised checked.now (with_bridge self.now bridge m.opt m.at_guards)) }
        ensures one_more { IfOk result (λ m. IsOneMore self.now (with_bridge self.now bridge m.opt m.at_guards)) }
        ensures granted { IfOk result (λ m. IsGranted checked.now self.now.attached bridge) }
        ensures room { IfOk result (λ m. bridge < length self.now.left) }
        ensures cause { IfErr result (λ e. HasCause checked.now self.now.attached bridge e) }
    {
        equality_decides();
        entries_serve_bridges();
        let set = checked.set();
        if let Some(_) = self.left_at(Some(bridge as usize)) {
            return Err(AttachFault::Already { bridge });
        }
        let parent = parent_at(set, bridge);
        let Some(left) = self.left_at(parent) else {
            return Err(AttachFault::NoParent { bridge });
        };
        match pieces_of_bridge(alloc, checked, bridge, left.items()) {
            Ok(made) => Ok(made),
            Err(_) => Err(AttachFault::OutOfMemory),
        }
    }

    /// Attaches a bridge: its pieces are made from what is known where its guard fails.
    ///
    /// # Errors
    /// `Already` exactly where the bridge is attached; `NoParent` exactly where it isn't, and its guard's trace is a bridge that
    /// isn't attached; or want of memory. Each leaves the pieces as they were.
    pub fn attach(
        &mut self,
        alloc: Global,
        checked: &Checked,
        bridge: u32,
    ) -> Result<(), AttachFault>
        requires pieces { IsOptimised checked.now self.old }
        requires bridge { IsBridge checked.now bridge }
        ensures pieces { OnOk result (IsOptimised checked.now self.new) }
        ensures attached { OnOk result (self.new.attached ≡ self.old.attached ++ bridge ∷ []) }
        ensures added { OnOk result ((t : OptTrace) × (self.new.traces ≡ self.old.traces ++ t ∷ [])) }
        ensures one_more { OnOk result (IsOneMore self.old self.new) }
        ensures granted { OnOk result (IsGranted checked.now self.old.attached bridge) }
        ensures cause { IfErr result (λ e. HasCause checked.now self.old.attached bridge e) }
        ensures kept { OnErr result (self.new ≡ self.old) }
    {
        let made = self.pieces_of(alloc, checked, bridge)?;
        match self.add_bridge(bridge, made) {
            Ok(()) => Ok(()),
            Err(_) => Err(AttachFault::OutOfMemory),
        }
    }

    /// Takes back what was attached last, so that all is as it was before.
    pub fn take_back(&mut self)
        requires { (before : Optimised) × IsOneMore before self.old }
        ensures { (before : Optimised) → IsOneMore before self.old → self.new ≡ before }
    {
        let _ = self.traces.pop();
        if let Some(bridge) = self.attached.pop() {
            self.clear(bridge);
        }
    }

    /// The pieces of each trace that has some: the loops in the order of traces, and then the attached bridges.
    pub fn traces(&self) -> &[OptTrace]
        ensures { result.now ≡ self.now.traces }
    {
        &self.traces
    }

    /// The attached bridges, in the order in which they were attached.
    pub fn attached(&self) -> &[u32]
        ensures { result.now ≡ self.now.attached }
    {
        &self.attached
    }
}
