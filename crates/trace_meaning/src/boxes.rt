//! The boxes of the current trace, with their values.

ghost use Rattle.std.specs.Prelude.{◌≡◌, ◌<◌, IfOk, OnOk};
ghost use Rattle.std.specs.Option.{option_map};
ghost use Rattle.std.specs.HashMap.{spare};
ghost use Rattle.trace_meaning.specs.Boxes.{value_in, bind, bound_to, arg_value, has_value as valued, all_values, IsAdded};

use crate::Value;
use indexmap::IndexMap;
use std::alloc::{AllocError, Global};
use trace_ops::{Arg, BoxId};

/// Boxes in the order in which they got a value.
#[derive(Drop)]
pub struct Boxes {
    pub alloc: Global,
    pub values: IndexMap<BoxId, Value>,
}

impl Boxes {
    /// These boxes, with these values.
    pub fn bound_to(alloc: Global, boxes: &[BoxId], values: &[Value]) -> Result<Boxes, AllocError>
        ensures { IfOk result (λ r. r.values.entries ≡ bound_to boxes.now values.now) }
    {
        let mut bound = Boxes {
            alloc,
            values: IndexMap::new(alloc),
        };
        for k in 0..boxes.len().min(values.len()) {
            bound.bind(boxes[k], values[k])?;
        }
        Ok(bound)
    }

    // Gives a box a value.
    fn bind(&mut self, of: BoxId, value: Value) -> Result<(), AllocError>
        ensures { OnOk result (self.new.values.entries ≡ bind of value self.old.values.entries) }
    {
        self.values.insert(of, value)?;
        Ok(())
    }

    /// Makes room for one box more.
    pub fn reserve(&mut self) -> Result<(), AllocError>
        ensures same { self.new.values.entries ≡ self.old.values.entries }
        ensures room { OnOk result (0 < spare self.new.values) }
    {
        self.values.reserve(1)
    }

    /// Gives a box a value, where there is room for it.
    pub fn bind_in_room(&mut self, of: BoxId, value: Value)
        requires { 0 < spare self.old.values }
        ensures { self.new.values.entries ≡ bind of value self.old.values.entries }
    {
        if let Err(_) = self.values.insert(of, value) {
            unreachable!();
        }
    }

    /// The value of an argument. A class and a function have none.
    pub fn value_of(&self, arg: Arg) -> Option<Value>
        ensures { result ≡ arg_value (value_in self.now.values.entries) arg }
    {
        match arg {
            Arg::Of(of) => self.values.get(&of).copied(),
            Arg::Const(word) => Some(Value::Int(word)),
            Arg::Null => Some(Value::Null),
            Arg::Class(_) => None,
            Arg::Func(_) => None,
            Arg::Ptr(k) => Some(Value::Obj(k)),
        }
    }

    // Adds the value of an argument that has one; false where a box has no value.
    fn add_value(&self, values: &mut Vec<Value>, arg: Arg) -> Result<bool, AllocError>
        ensures { IfOk result (λ there. IsAdded (value_in self.now.values.entries) arg there values.old.items values.new.items) }
    {
        if !has_value(arg) {
            return Ok(true);
        }
        let Some(value) = self.value_of(arg) else {
            return Ok(false);
        };
        values.push(value)?;
        Ok(true)
    }

    /// The values of those arguments that have one; none where a box has no value.
    pub fn values_of(&self, args: &[Arg]) -> Result<Option<Vec<Value>>, AllocError>
        ensures { IfOk result (λ r. option_map (λ v. v.items) r ≡ all_values (arg_value (value_in self.now.values.entries)) args.now) }
    {
        let mut values = Vec::new(self.alloc);
        for arg in args {
            if !self.add_value(&mut values, *arg)? {
                return Ok(None);
            }
        }
        Ok(Some(values))
    }
}

fn has_value(arg: Arg) -> bool
    ensures { result ≡ valued arg }
{
    match arg {
        Arg::Class(_) => false,
        Arg::Func(_) => false,
        _ => true,
    }
}
