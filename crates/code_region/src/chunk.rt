// A chunk of code bytes.
ghost use Rattle.std.specs.Prelude.{◌≡◌, ◌+◌, ◌≤◌, ◌<◌, [], ◌++◌, length, IfOk, vec_len, slice_set};

use crate::link::Link;
use std::alloc::{AllocError, Global};
use std::marker::Model;

/// How many bytes a chunk has room for.
pub(crate) const CHUNK: usize = 65536;

/// The bytes that are written so far, behind a raw pointer, with room for a whole chunk that is not written yet.
#[derive(Drop)]
pub(crate) struct Chunk {
    block: Link<Vec<u8>, Global>,
}

impl Model for Chunk {
    ghost use Rattle.std.specs.Prelude.{◌≤◌, List, ℕ, vec_capacity};

    ghost Value = { List ℕ };

    ghost view = { λ c. c.block.value.items };

    ghost invariant = { λ c. 65536 ≤ vec_capacity c.block.value };
}

impl Chunk {
    /// A chunk with no bytes yet.
    pub(crate) fn make(alloc: Global) -> Result<Chunk, AllocError>
        ensures { IfOk result (λ c. c ≡ []) }
    {
        let bytes = Vec::with_capacity(alloc, CHUNK)?;
        let block = Link::make(Box::new(alloc, bytes)?);
        Ok(Chunk { block })
    }

    /// The bytes that are written.
    pub(crate) fn bytes(&self) -> &[u8]
        ensures { result.now ≡ self.now }
    {
        self.block.read().as_slice()
    }

    /// Writes bytes behind those that stand, in the room that is left.
    pub(crate) fn add(&mut self, more: &[u8])
        requires { length self.old + length more.now ≤ 65536 }
        ensures { self.new ≡ self.old ++ more.now }
    {
        let written = self.block.write().extend_from_slice(more);
        prove!(written.is_ok());
        let _ = written;
    }

    /// Writes the byte at a place.
    pub(crate) fn set(&mut self, at: usize, byte: u8)
        requires { at < length self.old }
        ensures { self.new ≡ slice_set self.old at byte }
    {
        self.block.write()[at] = byte;
    }
}
