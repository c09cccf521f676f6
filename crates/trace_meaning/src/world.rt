//! Objects, calls and answers of a run, which all operations share.

ghost use Rattle.std.specs.Prelude.{◌≡◌, ◌+◌, ◌-◌, ◌<◌, ◌≤◌, ◌^◌, [], ◌∷◌, ◌++◌, Some, None, true, false, length, slice_get, slice_set, IfOk, OnOk, OnErr, option_and_then};
ghost use Rattle.std.specs.Option.{option_copied};
ghost use Rattle.trace_meaning.specs.World.{failed, events};
ghost use Rattle.trace_meaning.specs.Objects.{write as written, with_new, with_object, place_within, with_part as part_set};
ghost use Rattle.trace_meaning.specs.Recorded.{first_world};
ghost use Rattle.trace_meaning.specs.Kept.{with_event, with_answered, with_world, alone, IsOf, IsDone, allocated};

use crate::objects::{is_frozen, place_of, prebuilt_objects, size_of};
use crate::{Answer, CallEvent, Object, Store, Value};
use std::alloc::{AllocError, Global};
use std::marker::Model;
use trace_ops::{List, Spot, Table};

/// Objects, answers and calls, with the bytes counted.
#[derive(Drop)]
pub struct World {
    alloc: Global,
    store: Store,
    prebuilts: usize,
    bytes: u128,
    answers: Vec<Answer>,
    used: usize,
    calls: Vec<CallEvent>,
    spent: Vec<u128>,
    failures: u64,
    overflow: bool,
}

impl Model for World {
    ghost use Rattle.std.specs.Prelude.{◌≡◌, ◌≤◌, length, drop};
    ghost use Rattle.trace_meaning.specs.Kept.{Kept, AreCounted, logged};

    ghost Value = { Kept };

    ghost view = { λ w. record { world = record { objects = w.store.objects; answers = drop w.used w.answers.items; log = logged w.calls.items w.spent.items; failures = w.failures; overflow = w.overflow }; prebuilts = w.prebuilts } };

    ghost invariant = { λ w. record { counted : AreCounted w.store.objects w.prebuilts w.bytes; used : w.used ≤ length w.answers.items; calls : length w.calls.items ≡ length w.spent.items } };
}

// The objects with another value at a part of one of them.
fn with_part(alloc: Global, objects: Vec<Object>, n: usize, i: usize, value: Value) -> Vec<Object>
    requires { (o : Object) × (slice_get objects.items n ≡ Some o) × (i < length o.parts) }
    ensures { (o : Object) → slice_get objects.items n ≡ Some o → result.items ≡ slice_set objects.items n (part_set o i value) }
{
    let mut objects = objects;
    let object = &mut objects[n];
    let mut parts = std::mem::replace(&mut object.parts, List::of(Vec::new(alloc))).into_items();
    parts[i] = value;
    object.parts = List::of(parts);
    objects
}

impl World {
    /// The prebuilt objects of a table, and nothing done.
    pub fn new(alloc: Global, table: &Table, answers: Vec<Answer>) -> Result<World, AllocError>
        ensures { IfOk result (λ w. w ≡ record { world = first_world table.now answers.items; prebuilts = length table.now.prebuilts }) }
    {
        let objects = prebuilt_objects(alloc, table.prebuilts.items())?;
        Ok(World {
            alloc,
            prebuilts: table.prebuilts.items().len(),
            store: Store {
                objects: List::of(objects),
            },
            bytes: 0,
            answers,
            used: 0,
            calls: Vec::new(alloc),
            spent: Vec::new(alloc),
            failures: 0,
            overflow: false,
        })
    }

    /// The same objects, without answers and calls.
    pub fn objects_alone(&self) -> Result<World, AllocError>
        ensures { IfOk result (λ w. w ≡ with_world self.now (alone self.now.world)) }
    {
        let store = self.store.copy()?;
        Ok(World {
            alloc: self.alloc,
            store,
            prebuilts: self.prebuilts,
            bytes: self.bytes,
            answers: Vec::new(self.alloc),
            used: 0,
            calls: Vec::new(self.alloc),
            spent: Vec::new(self.alloc),
            failures: 0,
            overflow: false,
        })
    }

    pub fn store(&self) -> &Store
        ensures { result.now ≡ record { objects = self.now.world.objects } }
    {
        &self.store
    }

    pub fn objects(&self) -> &[Object]
        ensures { result.now ≡ self.now.world.objects }
    {
        self.store.objects.items()
    }

    pub fn calls(&self) -> &[CallEvent]
        ensures { result.now ≡ events self.now.world.log }
    {
        self.calls.as_slice()
    }

    /// The bytes allocated so far.
    pub fn bytes(&self) -> u128
        ensures { result ≡ allocated self.now.prebuilts self.now.world.objects }
    {
        self.bytes
    }

    pub fn overflow(&self) -> bool
        ensures { result ≡ self.now.world.overflow }
    {
        self.overflow
    }

    pub fn set_overflow(&mut self, overflow: bool)
        ensures { self.new ≡ with_world self.old (record self.old.world { overflow = overflow }) }
    {
        self.overflow = overflow;
    }

    pub fn failures(&self) -> u64
        ensures { result ≡ self.now.world.failures }
    {
        self.failures
    }

    /// Counts a failure. A count that has no room in 64 bits is want of memory.
    pub fn fail(&mut self) -> Result<(), AllocError>
        ensures ok { OnOk result (self.new ≡ with_world self.old (failed self.old.world)) }
        ensures err { OnErr result (self.new ≡ self.old) }
    {
        let Some(failures) = self.failures.checked_add(1) else {
            return Err(AllocError);
        };
        self.failures = failures;
        Ok(())
    }

    /// Adds an object, which gets the next number.
    pub fn add(&mut self, object: Object) -> Result<(), AllocError>
        requires { length self.old.world.objects < 2 ^ 31 }
        ensures ok { OnOk result (self.new ≡ with_world self.old (with_new object self.old.world)) }
        ensures err { OnErr result (self.new ≡ self.old) }
    {
        let size = size_of(&object);
        self.store.objects.push(object)?;
        self.bytes += size;
        Ok(())
    }

    /// Writes a spot of a value, where it can be written.
    pub fn write(&mut self, table: &Table, at: Spot, base: Value, value: Value) -> bool
        requires { IsOf table.now self.old }
        ensures { IsDone self.old self.new result (written table.now at base value self.old.world) }
    {
        let Value::Obj(n) = base else { return false };
        if is_frozen(table, at, n) {
            return false;
        }
        let Some(i) = self.place_in(table, at, n) else {
            return false;
        };
        self.put(n as usize, i, value);
        true
    }

    // Where a spot of the object of this number lies, within its parts.
    fn place_in(&self, table: &Table, at: Spot, n: u32) -> Option<usize>
        ensures { result ≡ option_and_then (place_within table.now at) (slice_get self.now.world.objects n) }
    {
        let object = self.objects().get(n as usize)?;
        let i = place_of(table, object.of, at)?;
        if i < object.parts.items().len() {
            Some(i)
        } else {
            None
        }
    }

    // Puts a value at a part of an object.
    fn put(&mut self, n: usize, i: usize, value: Value)
        requires { (o : Object) × (slice_get self.old.world.objects n ≡ Some o) × (i < length o.parts) }
        ensures { (o : Object) → slice_get self.old.world.objects n ≡ Some o → self.new ≡ with_world self.old (with_object n self.old.world (part_set o i value)) }
    {
        let objects = std::mem::replace(
            &mut self.store.objects,
            List::of(Vec::new(self.alloc)),
        ).into_items();
        self.store.objects = List::of(with_part(self.alloc, objects, n, i, value));
    }

    /// The answer to the next call.
    pub fn next_answer(&self) -> Option<&Answer>
        ensures { option_copied result ≡ slice_get self.now.world.answers 0 }
    {
        self.answers.get(self.used)
    }

    /// A call stands last among the calls, with no answer used.
    pub fn log(&mut self, event: CallEvent) -> Result<(), AllocError>
        ensures ok { OnOk result (self.new ≡ with_world self.old (with_event (allocated self.old.prebuilts self.old.world.objects) event self.old.world)) }
        ensures err { OnErr result (self.new ≡ self.old) }
    {
        self.spent.reserve(1)?;
        self.calls.push(event)?;
        if let Err(_) = self.spent.push(self.bytes) {
            unreachable!();
        }
        Ok(())
    }

    /// A call that takes the next answer stands last among the calls.
    pub fn log_answered(&mut self, event: CallEvent) -> Result<(), AllocError>
        requires { 0 < length self.old.world.answers }
        ensures ok { OnOk result (self.new ≡ with_world self.old (with_answered (allocated self.old.prebuilts self.old.world.objects) event self.old.world)) }
        ensures err { OnErr result (self.new ≡ self.old) }
    {
        self.spent.reserve(1)?;
        self.calls.push(event)?;
        if let Err(_) = self.spent.push(self.bytes) {
            unreachable!();
        }
        self.used += 1;
        Ok(())
    }

    /// The same, and a new object besides, which gets the next number.
    pub fn log_answered_new(&mut self, event: CallEvent, object: Object) -> Result<(), AllocError>
        requires some { 0 < length self.old.world.answers }
        requires few { length self.old.world.objects < 2 ^ 31 }
        ensures ok { OnOk result (self.new ≡ with_world self.old (with_new object (with_answered (allocated self.old.prebuilts self.old.world.objects) event self.old.world))) }
        ensures err { OnErr result (self.new ≡ self.old) }
    {
        let size = size_of(&object);
        self.spent.reserve(1)?;
        self.calls.reserve(1)?;
        self.store.objects.push(object)?;
        if let Err(_) = self.calls.push(event) {
            unreachable!();
        }
        if let Err(_) = self.spent.push(self.bytes) {
            unreachable!();
        }
        self.used += 1;
        self.bytes += size;
        Ok(())
    }
}
