//! Values, objects and stores. There are no addresses: an object is named by its number.
ghost use Rattle.std.specs.Prelude.{◌≡◌, IfOk};

use std::alloc::AllocError;
use trace_ops::{CopyIn, List, ShapeOf, Word};

/// An integer, null, or an object by its number in the store.
#[derive(Clone, Copy, Debug, PartialEq, Eq, Hash)]
pub enum Value {
    Int(Word),
    Null,
    Obj(u32),
}

/// A structure with one part per field of its size, in order, or an array with its items.
#[derive(Debug, PartialEq, Eq, Hash, Drop)]
pub struct Object {
    pub of: ShapeOf,
    pub parts: List<Value>,
}

/// All objects so far. The prebuilt ones are the first, in the order of the table.
#[derive(Debug, PartialEq, Eq, Hash, Drop)]
pub struct Store {
    pub objects: List<Object>,
}

impl Object {
    /// An equal object.
    pub fn copy(&self) -> Result<Object, AllocError>
        ensures { IfOk result (λ c. c ≡ self.now) }
    {
        let parts = self.parts.copy()?;
        Ok(Object { of: self.of, parts })
    }
}

impl CopyIn for Object {
    fn copy_in(&self) -> Result<Self, AllocError> {
        self.copy()
    }
}

impl Store {
    /// An equal store.
    pub fn copy(&self) -> Result<Store, AllocError>
        ensures { IfOk result (λ c. c ≡ self.now) }
    {
        let objects = self.objects.copy_each()?;
        Ok(Store { objects })
    }
}
