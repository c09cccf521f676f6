//! The objects visited so far, in order, and the number of each.

ghost use Rattle.std.specs.Prelude.{◌≡◌, ◌<◌, ◌^◌, [], drop, length, map, IfOk, OnOk};
ghost use Rattle.heap_shape.specs.Visiting.{note, note_value, visit, AllVisited, AreWithin, IsNumbered, IsVisited, IsWithin};
ghost use Rattle.heap_shape.specs.Listing.{ref_of};

use crate::Ref;
use std::alloc::{AllocError, Global};
use trace_meaning::Value;

/// The objects visited so far, in order. By object, `numbers` has its place in `order`.
#[derive(Drop)]
pub struct Visits {
    pub(crate) order: Vec<u32>,
    pub(crate) numbers: Vec<Option<u32>>,
}

impl Visits {
    /// None of so many objects was visited.
    pub fn new(alloc: Global, count: usize) -> Result<Visits, AllocError>
        requires { count < 2 ^ 32 }
        ensures order { IfOk result (λ v. v.order.items ≡ []) }
        ensures count { IfOk result (λ v. length v.numbers.items ≡ count) }
        ensures numbered { IfOk result (λ v. IsNumbered v.order.items v.numbers.items) }
    {
        let numbers = vec![in alloc; None; count]?;
        let order = Vec::new(alloc);
        Ok(Visits { order, numbers })
    }

    // An object gets the next number at its first visit.
    fn add(&mut self, object: u32) -> Result<(), AllocError>
        requires within { object < length self.old.numbers.items }
        requires numbered { IsNumbered self.old.order.items self.old.numbers.items }
        ensures order { OnOk result (self.new.order.items ≡ note self.old.order.items object) }
        ensures count { OnOk result (length self.new.numbers.items ≡ length self.old.numbers.items) }
        ensures numbered { OnOk result (IsNumbered self.new.order.items self.new.numbers.items) }
    {
        if self.numbers[object as usize].is_some() {
            return Ok(());
        }
        let number = self.order.len() as u32;
        self.order.push(object)?;
        self.numbers[object as usize] = Some(number);
        Ok(())
    }

    // The same of a value, which may be an object.
    fn add_value(&mut self, value: Value) -> Result<(), AllocError>
        requires within { IsWithin (length self.old.numbers.items) value }
        requires numbered { IsNumbered self.old.order.items self.old.numbers.items }
        ensures order { OnOk result (self.new.order.items ≡ note_value self.old.order.items value) }
        ensures count { OnOk result (length self.new.numbers.items ≡ length self.old.numbers.items) }
        ensures numbered { OnOk result (IsNumbered self.new.order.items self.new.numbers.items) }
    {
        match value {
            Value::Obj(object) => self.add(object),
            _ => Ok(()),
        }
    }

    /// Each object that the values name is visited, from left to right.
    pub fn add_values(&mut self, values: &[Value]) -> Result<(), AllocError>
        requires within { AreWithin (length self.old.numbers.items) values.now }
        requires numbered { IsNumbered self.old.order.items self.old.numbers.items }
        ensures order { OnOk result (self.new.order.items ≡ visit self.old.order.items values.now) }
        ensures count { OnOk result (length self.new.numbers.items ≡ length self.old.numbers.items) }
        ensures numbered { OnOk result (IsNumbered self.new.order.items self.new.numbers.items) }
    {
        for value in values {
            self.add_value(*value)?;
        }
        Ok(())
    }

    // The value with the object's number.
    fn ref_of(&self, value: Value) -> Ref
        requires visited { IsVisited self.now.order.items value }
        requires numbered { IsNumbered self.now.order.items self.now.numbers.items }
        ensures { result ≡ ref_of self.now.order.items value }
    {
        match value {
            Value::Int(word) => Ref::Int(word),
            Value::Null => Ref::Null,
            Value::Obj(object) => Ref::Num(self.numbers[object as usize].unwrap()),
        }
    }

    /// The values with the objects' numbers.
    pub fn refs_of(&self, alloc: Global, values: &[Value]) -> Result<Vec<Ref>, AllocError>
        requires visited { AllVisited self.now.order.items values.now }
        requires numbered { IsNumbered self.now.order.items self.now.numbers.items }
        ensures { IfOk result (λ refs. refs.items ≡ map (ref_of self.now.order.items) values.now) }
    {
        let mut refs = Vec::new(alloc);
        for value in values {
            refs.push(self.ref_of(*value))?;
        }
        Ok(refs)
    }
}
