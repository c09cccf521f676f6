//! Sources and sinks of bytes, which count their faults.
#![tactic(auto)]

mod mem_sink;
mod mem_source;
mod standard;
mod whole;

ghost use Rattle.std.specs.Prelude.{◌≡◌, ◌≤◌, ◌<◌, ℕ, List, length, IfOk};
ghost use Rattle.std.specs.declared.option.Option.{Option};
ghost use Rattle.std.specs.Io.{ReadsAtMost, WritesAtMost};
ghost use Rattle.std.specs.Io.KnownBytes.{ReadConsumes, WriteAppends};
ghost use Rattle.io_edge.specs.Causes.{HasCause};

pub use mem_sink::MemSink;
pub use mem_source::{MemSource, PlainSource};
pub use standard::{StdSink, StdSource};
pub use whole::{ReadEnd, WriteFault, read_all, write_all};

/// A read or a write that failed.
#[derive(Clone, Copy, Debug, PartialEq, Eq)]
pub struct Failed;

/// What gives bytes.
pub trait Source {
    // the bytes still to come, where the source tells it
    ghost left: { Self → Option (List ℕ) };

    // how many calls have failed
    ghost faults: { Self → ℕ };

    /// Moves some of the next bytes into the front of `buf`. None into a `buf` with room means the end.
    fn read_some(&mut self, buf: &mut [u8]) -> Result<usize, Failed>
        ensures bound { ReadsAtMost result buf.new }
        ensures bytes { ReadConsumes (left self.old) (left self.new) result buf.new }
        ensures cause { HasCause (faults self.old) (faults self.new) result };
}

/// What takes bytes.
pub trait Sink {
    // the bytes taken so far, where the sink tells it
    ghost taken: { Self → Option (List ℕ) };

    // how many calls have failed
    ghost faults: { Self → ℕ };

    /// Takes some of the first bytes of `buf`, at least one of a `buf` that has any.
    fn write_some(&mut self, buf: &[u8]) -> Result<usize, Failed>
        ensures bound { WritesAtMost result buf.now }
        ensures some { IfOk result (λ n. 0 < length buf.now → 0 < n) }
        ensures bytes { WriteAppends (taken self.old) (taken self.new) result buf.now }
        ensures cause { HasCause (faults self.old) (faults self.new) result };
}

#[cfg(test)]
mod tests;
