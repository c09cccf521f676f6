//! A sink into memory that fails at chosen calls, and where its room ends.
ghost use Rattle.std.specs.Prelude.{◌≡◌, ◌≤◌, ◌<◌, ◌↔◌, ◌⊎◌, [], ◌++◌, ℕ, max, min, length, take, Some, IsErr, Contains, IsTrue, OnOk, OnErr, IfOk};
ghost use Rattle.std.specs.Io.{WritesAtMost};
ghost use Rattle.std.specs.Io.KnownBytes.{WriteAppends};
ghost use Rattle.io_edge.specs.Causes.{HasCause};
ghost use Rattle.io_edge.specs.Memory.{store_failed, store_took};

use crate::{Failed, Sink};
use std::alloc::{AllocError, Global};
use std::marker::Model;

/// A sink into memory that takes at most `piece` bytes a call, and whose listed calls fail.
#[derive(Drop)]
pub struct MemSink {
    bytes: Vec<u8>,
    room: usize,
    piece: usize,
    fails: Vec<u64>,
    calls: u64,
    faults: u64,
}

impl Model for MemSink {
    ghost use Rattle.std.specs.Prelude.{◌≤◌, ◌<◌, ◌+◌, vec_len, vec_capacity};
    ghost use Rattle.io_edge.specs.Memory.{Store, store_code};

    ghost Value = { Store };

    ghost coded = { store_code };

    ghost view = { λ s. record { taken = s.bytes.items; room = s.room; piece = s.piece; fails = s.fails.items; calls = s.calls; faults = s.faults } };

    ghost invariant = { λ s. (vec_len s.bytes + s.room ≤ vec_capacity s.bytes) × (0 < s.piece) };
}

impl MemSink {
    /// An empty sink without room. The calls whose numbers, from 0, stand in `fails` fail, and those that want more
    /// room than is reserved.
    pub fn new(alloc: Global, piece: usize, fails: Vec<u64>) -> Result<MemSink, AllocError>
        requires { 0 < piece }
        ensures { IfOk result (λ s. s ≡ record { taken = []; room = 0; piece = piece; fails = fails.items; calls = 0; faults = 0 }) }
    {
        Ok(MemSink {
            bytes: Vec::new(alloc),
            room: 0,
            piece,
            fails,
            calls: 0,
            faults: 0,
        })
    }

    /// Makes room for `n` more bytes.
    pub fn reserve(&mut self, n: usize) -> Result<(), AllocError>
        ensures ok { OnOk result (self.new ≡ record self.old { room = max self.old.room n }) }
        ensures err { OnErr result (self.new ≡ self.old) }
    {
        self.bytes.try_reserve(n)?;
        self.room = self.room.max(n);
        Ok(())
    }

    /// What was taken.
    pub fn bytes(&self) -> &[u8]
        ensures { result.now ≡ self.now.taken }
    {
        &self.bytes
    }

    fn is_failing(&self, wanted: usize) -> bool
        ensures { IsTrue result ↔ (Contains self.now.fails self.now.calls ⊎ (self.now.room < wanted)) }
    {
        self.fails.contains(&self.calls) || self.room < wanted
    }

    // Counts a call that fails.
    fn fail(&mut self)
        ensures { self.new ≡ store_failed self.old }
    {
        self.calls = self.calls.saturating_add(1);
        self.faults = self.faults.saturating_add(1);
    }

    // Takes the bytes, for which there is room, and counts the call.
    fn take(&mut self, front: &[u8])
        requires { length front.now ≤ self.old.room }
        ensures { self.new ≡ store_took (length front.now) front.now self.old }
    {
        let taken = self.bytes.extend_from_slice(front);
        prove!(taken.is_ok());
        let _ = taken;
        self.room -= front.len();
        self.calls = self.calls.saturating_add(1);
    }
}

impl Sink for MemSink {
    ghost taken = { λ s. Some s.taken };

    ghost faults = { λ s. s.faults };

    fn write_some(&mut self, buf: &[u8]) -> Result<usize, Failed>
        ensures bound { WritesAtMost result buf.now }
        ensures some { IfOk result (λ n. 0 < length buf.now → 0 < n) }
        ensures bytes { WriteAppends (Some self.old.taken) (Some self.new.taken) result buf.now }
        ensures cause { HasCause self.old.faults self.new.faults result }
        // exactly the listed calls fail, and those that want more room than there is
        ensures fails { IsErr result ↔ (Contains self.old.fails self.old.calls ⊎ (self.old.room < min (length buf.now) self.old.piece)) }
        ensures failed { OnErr result (self.new ≡ store_failed self.old) }
        ensures count { IfOk result (λ n. n ≡ min (length buf.now) self.old.piece) }
        ensures took { IfOk result (λ n. self.new ≡ store_took n buf.now self.old) }
    {
        let count = buf.len().min(self.piece);
        if self.is_failing(count) {
            self.fail();
            return Err(Failed);
        }
        self.take(&buf[..count]);
        Ok(count)
    }
}
