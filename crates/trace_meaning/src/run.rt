//! The run of recorded traces.

ghost use Rattle.std.specs.Prelude.{◌≡◌, ◌<◌, ◌^◌, length, IfOk, OnOk, OnErr};
ghost use Rattle.trace_ops.specs.InRange.{IsInRange};
ghost use Rattle.trace_ops.specs.WellFormed.{IsWellFormed};
ghost use Rattle.trace_meaning.specs.Starting.{Starts, IsSmall, begun};
ghost use Rattle.trace_meaning.specs.Observed.{state_of, store_of, calls_of, bytes_of, world_of};
ghost use Rattle.trace_meaning.specs.Standing.{stepped};

use crate::boxes::Boxes;
use crate::cursor::Cursor;
use crate::links::inputs_of_trace;
use crate::routes::Routes;
use crate::steps::step;
use crate::world::World;
use crate::{Answer, CallEvent, RecState, Store, Value};
use std::alloc::{AllocError, Global};
use std::marker::Model;
use trace_ops::TraceSet;

/// A run of recorded traces from a loop of a set: where it stands, its objects and its calls.
#[derive(Drop)]
pub struct RecRun {
    alloc: Global,
    set: TraceSet,
    routes: Routes,
    cursor: Cursor,
}

impl Model for RecRun {
    ghost use Rattle.trace_meaning.specs.Standing.{Run, IsStanding, now_of};
    ghost use Rattle.trace_meaning.specs.Routes.{AreRoutes};

    ghost Value = { Run };

    ghost view = { λ r. record { set = r.set; cuts = r.routes.cuts.items; now = now_of r.set r.cursor } };

    ghost invariant = { λ r. record { standing : IsStanding r.set r.cursor; routed : AreRoutes r.set r.routes } };
}

impl RecRun {
    /// A run from a loop of a set, with its inputs, the answers to its calls in order, and its cuts: each attached bridge,
    /// and how many guards had failed by then.
    pub fn new(
        alloc: Global,
        checked_set: &TraceSet,
        start: u32,
        inputs: Vec<Value>,
        answers: Vec<Answer>,
        cuts: Vec<(u32, u64)>,
    ) -> Result<RecRun, AllocError>
        requires in_range { IsInRange checked_set.now }
        requires well_formed { IsWellFormed checked_set.now }
        requires starts { Starts checked_set.now start inputs.items }
        ensures { IfOk result (λ r. r ≡ begun checked_set.now start inputs.items answers.items cuts.items) }
    {
        RecRun::begin(alloc, checked_set, start, inputs, answers, cuts)
    }

    // The same, of any set that is small enough.
    pub(crate) fn begin(
        alloc: Global,
        small_set: &TraceSet,
        start: u32,
        inputs: Vec<Value>,
        answers: Vec<Answer>,
        cuts: Vec<(u32, u64)>,
    ) -> Result<RecRun, AllocError>
        requires { IsSmall small_set.now }
        ensures { IfOk result (λ r. r ≡ begun small_set.now start inputs.items answers.items cuts.items) }
    {
        let set = small_set.copy()?;
        let world = World::new(alloc, &set.table, answers)?;
        let boxes = Boxes::bound_to(alloc, inputs_of_trace(&set, start), &inputs)?;
        let cursor = Cursor {
            trace: start,
            at: 0,
            guards: 0,
            boxes,
            world,
            state: RecState::Going,
            left: Vec::new(alloc),
        };
        let routes = Routes::new(alloc, &set, cuts)?;
        Ok(RecRun {
            alloc,
            set,
            routes,
            cursor,
        })
    }

    /// Makes one recorded operation; a run that has ended stays.
    pub fn step(&mut self) -> Result<(), AllocError>
        requires objects { length (world_of self.old.now).objects < 2 ^ 31 }
        requires calls { length (world_of self.old.now).log < 2 ^ 31 }
        ensures ok { OnOk result (self.new ≡ stepped self.old) }
        ensures err { OnErr result (self.new ≡ self.old) }
    {
        step(self.alloc, &self.set, &self.routes, &mut self.cursor)?;
        Ok(())
    }

    /// Where the run stands.
    pub fn state(&self) -> &RecState
        ensures { result.now ≡ state_of self.now.set self.now.now }
    {
        &self.cursor.state
    }

    /// All objects so far, the prebuilt ones first.
    pub fn store(&self) -> &Store
        ensures { result.now ≡ store_of self.now.now }
    {
        self.cursor.world.store()
    }

    /// The calls so far.
    pub fn calls(&self) -> &[CallEvent]
        ensures { result.now ≡ calls_of self.now.now }
    {
        self.cursor.world.calls()
    }

    /// The bytes of all objects that were allocated so far, those of answers among them.
    pub fn bytes(&self) -> u128
        ensures { result ≡ bytes_of self.now.set self.now.now }
    {
        self.cursor.world.bytes()
    }
}
