//! Equal values on memory of their own.
ghost use Rattle.std.specs.Prelude.{◌≡◌, IfOk};

use crate::List;
use std::alloc::AllocError;

/// A value that can be made a second time.
pub trait CopyIn: Drop {
    /// An equal value.
    fn copy_in(&self) -> Result<Self, AllocError>
        ensures { IfOk result (λ c. c ≡ self.now) };
}

impl<T: CopyIn> List<T> {
    /// A list of equal items.
    pub fn copy_each(&self) -> Result<List<T>, AllocError>
        ensures { IfOk result (λ c. c ≡ self.now) }
    {
        let mut copies = Vec::new(*self.allocator());
        for item in self.items() {
            copies.push(item.copy_in()?)?;
        }
        Ok(List::of(copies))
    }
}
