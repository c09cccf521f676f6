//! A session: a set's image and its activations.

ghost use Rattle.std.specs.Prelude.{◌≡◌, ◌%◌, ◌^◌, ◌<◌, ◌≤◌, [], length, IfOk};
ghost use Rattle.arena_objects.specs.ReadBack.{objects_in};
ghost use Rattle.bridge_patch.specs.Attached.{IsImageOf};
ghost use Rattle.bridge_patch.specs.Image.{IsImage};
ghost use Rattle.opt_meaning.specs.Pieces.{all_pieces};
ghost use Rattle.trace_ops.specs.InRange.{IsInRange};
ghost use Rattle.arena_world.specs.Prebuilt.{IsHostOf};
ghost use Rattle.set_in_image.specs.Placing.{HasNoStep, IsPlaced};
ghost use Rattle.run_session.specs.Keeping.{IsArenaSize, IsServed};
ghost use Rattle.run_session.specs.Sessions.{placed_in};
ghost use Rattle.run_session.specs.Calls.{IsNow, Shows, AreCounts, MayMake, StepsOnce, MakesInstruction, MakesAtMost, MakesAll, RunsUpTo, GivenStays, EndedStays, OthersStay, Started, most_made};

use crate::active::Active;
use crate::counting::guard_places;
use crate::event::is_going;
use crate::now::{Now, StartFault};
use crate::starting::{Setting, fits_loop};
use arena_world::{Host, read_store};
use bridge_patch::Image;
use opt_meaning::Counts;
use opt_set::{OptimisedSet, pieces_are_sound};
use resume_rebuild::rebuilds_what_is_meant;
use set_in_image::PlacedSet;
use std::alloc::{AllocError, Global};
use std::marker::Model;
use target_base::ArenaWords;
use trace_check::Checked;
use trace_meaning::{Answer, CallEvent, RecFrame, Store, Value};
use trace_ops::{OptTrace, TraceSet, What, equality_decides};
use x64_machine::Machine;

/// A set with its image and the activations that were started.
#[derive(Drop)]
pub struct Session {
    alloc: Global,
    placed: PlacedSet,
    host: Host,
    guard_places: Vec<u32>,
    arena_bytes: u64,
    activations: Vec<Active>,
}

impl Model for Session {
    ghost use Rattle.std.specs.Prelude.{map};
    ghost use Rattle.run_session.specs.Sessions.{Sessioned};
    ghost use Rattle.run_session.specs.Viewed.{seen_of};
    ghost use Rattle.run_session.specs.Keeping.{HoldsTogether};

    ghost Value = { Sessioned };

    ghost view = { λ s. record { set = s.placed.set; optimised = s.placed.optimised; image = s.placed.image; arena_bytes = s.arena_bytes; activations = map seen_of s.activations.items } };

    ghost invariant = { λ s. HoldsTogether s.placed.set s.placed.optimised.traces s.placed.image s.host s.guard_places.items s.arena_bytes s.activations };
}

impl Session {
    /// A session of a checked set, to which no bridge is attached yet: its loops are optimised, and compiled with boxes in the
    /// first `registers` registers for values. Its activations will have arenas of so many bytes.
    pub fn new(
        alloc: Global,
        checked: Checked,
        registers: u8,
        arena_bytes: u64,
    ) -> Result<Session, AllocError>
        requires least_registers { 3 ≤ registers }
        requires most_registers { registers ≤ 12 }
        requires whole { arena_bytes % 8 ≡ 0 }
        requires least { 65536 ≤ arena_bytes }
        requires most { arena_bytes ≤ 2 ^ 24 }
        ensures set { IfOk result (λ s. s.set ≡ checked) }
        ensures arena_bytes { IfOk result (λ s. s.arena_bytes ≡ arena_bytes) }
        ensures none { IfOk result (λ s. s.activations ≡ []) }
        ensures attached { IfOk result (λ s. s.optimised.attached ≡ []) }
        ensures placed { IfOk result (λ s. IsPlaced s.set s.optimised s.image) }
        ensures image { IfOk result (λ s. (z : IsImage s.set (all_pieces s.optimised.traces) s.image) × IsImageOf s.set z.placed s.image) }
        ensures history { IfOk result (λ s. HasNoStep (placed_in s)) }
        ensures registers { IfOk result (λ s. s.image.registers ≡ registers) }
        ensures changes { IfOk result (λ s. s.image.changes ≡ []) }
        ensures short { IfOk result (λ s. length s.image.bytes < 2 ^ 30) }
    {
        let optimised = OptimisedSet::new(alloc, &checked)?;
        let placed = PlacedSet::compile(alloc, checked, optimised, registers)?;
        Session::of_placed(alloc, placed, arena_bytes)
    }

    // A session on a set's pieces and their image, without activations.
    fn of_placed(alloc: Global, placed: PlacedSet, arena_bytes: u64) -> Result<Session, AllocError>
        requires size { IsArenaSize arena_bytes }
        ensures seen { IfOk result (λ s. s ≡ record { set = placed.set; optimised = placed.optimised; image = placed.image; arena_bytes = arena_bytes; activations = [] }) }
        ensures placed { IfOk result (λ s. IsPlaced placed.set placed.optimised placed.image) }
        ensures short { IfOk result (λ s. length placed.image.bytes < 2 ^ 30) }
    {
        equality_decides();
        rebuilds_what_is_meant();
        pieces_are_sound();
        placed.stands();
        let host = Host::new(alloc, &placed.checked().set().table)?;
        let guard_places = guard_places(alloc, placed.image().exits())?;
        let activations = Vec::with_capacity(alloc, 16)?;
        Ok(Session {
            alloc,
            placed,
            host,
            guard_places,
            arena_bytes,
            activations,
        })
    }

    // What it has beside its activations.
    fn setting(&self) -> Setting<'_>
        ensures set { result.set.now ≡ self.now.set }
        ensures opt { result.opt.now ≡ self.now.optimised.traces }
        ensures image { result.image.now ≡ self.now.image }
        ensures arena_bytes { result.arena_bytes ≡ self.now.arena_bytes }
        ensures host { IsHostOf self.now.set.table result.host.now }
        ensures size { IsArenaSize self.now.arena_bytes }
        ensures served { IsServed self.now.set.table (all_pieces self.now.optimised.traces) self.now.image }
        ensures range { IsInRange self.now.set }
    {
        Setting {
            set: self.placed.checked().set(),
            opt: self.placed.optimised().traces(),
            image: self.placed.image(),
            host: &self.host,
            arena_bytes: self.arena_bytes,
        }
    }

    /// Starts a loop with inputs, and answers to its calls to come. The answer is the activation's number, from 0. A start that
    /// is refused leaves the session as it was.
    pub fn start(
        &mut self,
        trace: u32,
        inputs: Vec<Value>,
        answers: Vec<Answer>,
    ) -> Result<u32, StartFault>
        ensures { Started trace inputs.items answers.items self.old self.new result }
    {
        if !fits_loop(self.placed.checked().set(), trace, &inputs) {
            return Err(StartFault::BadInput);
        }
        if self.activations.len() >= 16 {
            return Err(StartFault::Limit {
                what: What::Activations,
                count: 17,
            });
        }
        if answers.len() > 4096 {
            return Err(StartFault::Limit {
                what: What::Answers,
                count: 4097,
            });
        }
        let begun = self.setting().begin(self.alloc, trace, inputs, answers);
        match begun {
            Err(_) => Err(StartFault::OutOfMemory),
            Ok(active) => {
                let number = self.activations.len() as u32;
                self.activations.push_reserved(active);
                Ok(number)
            }
        }
    }

    /// Makes one event of an activation, and answers where it stands then. One that has ended stays. It takes no memory.
    pub fn step(&mut self, a: u32) -> Now
        requires started { a < length self.old.activations }
        requires count { MayMake a 1 self.old }
        ensures event { StepsOnce a self.old self.new }
        ensures now { IsNow a self.new result }
        ensures others { OthersStay a self.old self.new }
        ensures made { MakesInstruction a self.old self.new result }
        ensures given { GivenStays a self.old self.new }
        ensures ended { EndedStays a self.old self.new }
    {
        let setting = Setting {
            set: self.placed.checked().set(),
            opt: self.placed.optimised().traces(),
            image: self.placed.image(),
            host: &self.host,
            arena_bytes: self.arena_bytes,
        };
        setting.advance(
            self.alloc,
            &self.guard_places,
            &mut self.activations[a as usize],
        )
    }

    /// Makes events of an activation until it ends, or until so many were made. It takes no memory.
    pub fn steps(&mut self, a: u32, most: u64) -> Now
        requires started { a < length self.old.activations }
        requires count { MayMake a most self.old }
        ensures events { RunsUpTo a most self.old self.new result }
        ensures now { IsNow a self.new result }
        ensures others { OthersStay a self.old self.new }
        ensures made { MakesAtMost a most self.old self.new }
        ensures all { MakesAll a most self.old self.new result }
        ensures given { GivenStays a self.old self.new }
    {
        for _ in 0..most {
            let now = self.step(a);
            if !is_going(now) {
                return now;
            }
        }
        self.activations[a as usize].stands
    }

    /// Makes events of an activation until it ends, or until so many were made as (n + 1) times the code's length.
    /// It takes no memory.
    pub fn run(&mut self, a: u32, n: u32) -> Now
        requires started { a < length self.old.activations }
        requires count { MayMake a (most_made n self.old) self.old }
        ensures events { RunsUpTo a (most_made n self.old) self.old self.new result }
        ensures now { IsNow a self.new result }
        ensures others { OthersStay a self.old self.new }
        ensures made { MakesAtMost a (most_made n self.old) self.old self.new }
        ensures all { MakesAll a (most_made n self.old) self.old self.new result }
        ensures given { GivenStays a self.old self.new }
    {
        let most = (u64::from(n) + 1) * u64::from(self.placed.image().code().len());
        self.steps(a, most)
    }

    /// Where an activation stands.
    pub fn now(&self, a: u32) -> &Now
        requires { a < length self.now.activations }
        ensures { Shows a self.now (λ x. result.now ≡ x.now) }
    {
        &self.activations[a as usize].stands
    }

    /// The frames that were rebuilt, outermost first: none, unless the activation has exited.
    pub fn frames(&self, a: u32) -> &[RecFrame]
        requires { a < length self.now.activations }
        ensures { Shows a self.now (λ x. result.now ≡ x.frames) }
    {
        self.activations[a as usize].rebuilt.frames()
    }

    /// The calls so far.
    pub fn calls(&self, a: u32) -> &[CallEvent]
        requires { a < length self.now.activations }
        ensures { Shows a self.now (λ x. result.now ≡ x.log) }
    {
        self.activations[a as usize].log.calls()
    }

    /// The attached bridges, each with the failures of this activation before it.
    pub fn cuts(&self, a: u32) -> &[(u32, u64)]
        requires { a < length self.now.activations }
        ensures { Shows a self.now (λ x. result.now ≡ x.cuts) }
    {
        &self.activations[a as usize].cuts
    }

    /// What an activation has cost so far, without what was rebuilt.
    pub fn counts(&self, a: u32) -> Counts
        requires { a < length self.now.activations }
        ensures { Shows a self.now (λ x. AreCounts x result) }
    {
        let active = &self.activations[a as usize];
        let made = active.machine.counts();
        Counts {
            instructions: made.instructions,
            bytes: active.bytes(),
            loads: made.loads,
            stores: made.stores,
        }
    }

    /// The failures of guards so far.
    pub fn failures(&self, a: u32) -> u64
        requires { a < length self.now.activations }
        ensures { Shows a self.now (λ x. result ≡ x.failures) }
    {
        self.activations[a as usize].failures
    }

    /// The loop that was started.
    pub fn trace(&self, a: u32) -> u32
        requires { a < length self.now.activations }
        ensures { Shows a self.now (λ x. result ≡ x.trace) }
    {
        self.activations[a as usize].trace
    }

    /// The inputs that the start was given.
    pub fn inputs(&self, a: u32) -> &[Value]
        requires { a < length self.now.activations }
        ensures { Shows a self.now (λ x. result.now ≡ x.inputs) }
    {
        &self.activations[a as usize].inputs
    }

    /// The answers that the start was given.
    pub fn answers(&self, a: u32) -> &[Answer]
        requires { a < length self.now.activations }
        ensures { Shows a self.now (λ x. result.now ≡ x.answers) }
    {
        self.activations[a as usize].log.answers()
    }

    /// The machine of an activation.
    pub fn machine(&self, a: u32) -> &Machine
        requires { a < length self.now.activations }
        ensures { Shows a self.now (λ x. result.now ≡ x.machine) }
    {
        &self.activations[a as usize].machine
    }

    /// Its arena.
    pub fn arena(&self, a: u32) -> &ArenaWords
        requires { a < length self.now.activations }
        ensures { Shows a self.now (λ x. result.now ≡ x.machine.arena) }
    {
        self.activations[a as usize].machine.arena()
    }

    /// The objects of its arena, where it has finished or exited.
    pub fn store(&self, a: u32) -> Result<Store, AllocError>
        requires { a < length self.now.activations }
        ensures { Shows a self.now (λ x. IfOk result (λ store. store.objects ≡ objects_in self.now.set.table x.machine.arena)) }
    {
        read_store(
            self.alloc,
            &self.placed.checked().set().table,
            self.activations[a as usize].machine.arena(),
        )
    }

    /// The set that was handed in.
    pub fn set(&self) -> &TraceSet
        ensures { result.now ≡ self.now.set }
    {
        self.placed.checked().set()
    }

    /// The pieces of the loops, in order, and then of the attached bridges.
    pub fn opt(&self) -> &[OptTrace]
        ensures { result.now ≡ self.now.optimised.traces }
    {
        self.placed.optimised().traces()
    }

    /// The image.
    pub fn image(&self) -> &Image
        ensures { result.now ≡ self.now.image }
    {
        self.placed.image()
    }

    /// The pieces are those of an optimised set, and stand in the image: the loops were compiled, and then each bridge attached.
    pub fn stands(&self)
        ensures { IsPlaced self.now.set self.now.optimised self.now.image }
    {
        self.placed.stands();
    }
}
