//! What a listing is made of.
ghost use Rattle.std.specs.Prelude.{◌≡◌, IfOk};

use std::alloc::AllocError;
use trace_ops::{List, ShapeOf, Word};

/// A value in which an object goes by its number in the listing.
#[derive(Clone, Copy, Debug, PartialEq, Eq, Hash)]
pub enum Ref {
    Int(Word),
    Null,
    Num(u32),
}

/// An object of a listing.
#[derive(Debug, PartialEq, Eq, Hash, Drop)]
pub struct Cell {
    pub of: ShapeOf,
    pub parts: List<Ref>,
}

impl Cell {
    /// An equal cell.
    pub fn copy(&self) -> Result<Cell, AllocError>
        ensures { IfOk result (λ c. c ≡ self.now) }
    {
        let parts = self.parts.copy()?;
        Ok(Cell { of: self.of, parts })
    }
}
