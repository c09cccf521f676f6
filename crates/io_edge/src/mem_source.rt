//! Sources over bytes in memory: one that fails at chosen calls, and one that never fails.
ghost use Rattle.std.specs.Prelude.{◌≡◌, ◌<◌, ◌^◌, ◌↔◌, ◌++◌, length, take, drop, min, Some, Ok, IsErr, IsTrue, Contains, OnErr, IfOk};
ghost use Rattle.std.specs.Io.{ReadsAtMost};
ghost use Rattle.std.specs.Io.KnownBytes.{ReadConsumes};
ghost use Rattle.io_edge.specs.Causes.{HasCause};
ghost use Rattle.io_edge.specs.Memory.{feed_failed, feed_gave};

use crate::{Failed, Source};
use std::marker::Model;

/// A source over bytes in memory that moves at most `piece` bytes a call, and whose listed calls fail.
#[derive(Drop)]
pub struct MemSource {
    bytes: Vec<u8>,
    at: usize,
    piece: usize,
    fails: Vec<u64>,
    calls: u64,
    faults: u64,
}

impl Model for MemSource {
    ghost use Rattle.std.specs.Prelude.{◌≤◌, ◌<◌, vec_len, drop};
    ghost use Rattle.io_edge.specs.Memory.{Feed, feed_code};

    ghost Value = { Feed };

    ghost coded = { feed_code };

    ghost view = { λ s. record { left = drop s.at s.bytes.items; piece = s.piece; fails = s.fails.items; calls = s.calls; faults = s.faults } };

    ghost invariant = { λ s. (s.at ≤ vec_len s.bytes) × (0 < s.piece) };
}

impl MemSource {
    /// A source of these bytes. The calls whose numbers, from 0, stand in `fails` fail, and no others.
    pub fn new(bytes: Vec<u8>, piece: usize, fails: Vec<u64>) -> MemSource
        requires { 0 < piece }
        ensures { result ≡ record { left = bytes.items; piece = piece; fails = fails.items; calls = 0; faults = 0 } }
    {
        MemSource {
            bytes,
            at: 0,
            piece,
            fails,
            calls: 0,
            faults: 0,
        }
    }

    fn is_failing(&self) -> bool
        ensures { IsTrue result ↔ Contains self.now.fails self.now.calls }
    {
        self.fails.contains(&self.calls)
    }

    // Counts a call that fails.
    fn fail(&mut self)
        ensures after { self.new ≡ feed_failed self.old }
        ensures within { self.old.faults < 2 ^ 64 }
    {
        self.calls = self.calls.saturating_add(1);
        self.faults = self.faults.saturating_add(1);
    }

    // Moves the next bytes, as many as go, and counts the call.
    fn give(&mut self, buf: &mut [u8]) -> usize
        ensures count { result ≡ min (min (length buf.old) (length self.old.left)) self.old.piece }
        ensures bytes { self.old.left ≡ take result buf.new ++ drop result self.old.left }
        ensures after { self.new ≡ feed_gave result self.old }
        ensures moves { 0 < self.old.piece }
    {
        let rest = &self.bytes[self.at..];
        let count = buf.len().min(rest.len()).min(self.piece);
        buf[..count].copy_from_slice(&rest[..count]);
        self.at += count;
        self.calls = self.calls.saturating_add(1);
        count
    }
}

impl Source for MemSource {
    ghost left = { λ s. Some s.left };

    ghost faults = { λ s. s.faults };

    fn read_some(&mut self, buf: &mut [u8]) -> Result<usize, Failed>
        ensures bound { ReadsAtMost result buf.new }
        ensures bytes { ReadConsumes (Some self.old.left) (Some self.new.left) result buf.new }
        ensures cause { HasCause self.old.faults self.new.faults result }
        // exactly the listed calls fail
        ensures fails { IsErr result ↔ Contains self.old.fails self.old.calls }
        ensures failed { OnErr result (self.new ≡ feed_failed self.old) }
        ensures count { IfOk result (λ n. n ≡ min (min (length buf.old) (length self.old.left)) self.old.piece) }
        ensures gave { IfOk result (λ n. self.new ≡ feed_gave n self.old) }
    {
        if self.is_failing() {
            self.fail();
            return Err(Failed);
        }
        Ok(self.give(buf))
    }
}

/// A source over bytes in memory that never fails.
#[derive(Drop)]
pub struct PlainSource {
    bytes: Vec<u8>,
    at: usize,
}

impl Model for PlainSource {
    ghost use Rattle.std.specs.Prelude.{◌≤◌, vec_len, drop, List, ℕ};

    ghost Value = { List ℕ };

    ghost view = { λ s. drop s.at s.bytes.items };

    ghost invariant = { λ s. s.at ≤ vec_len s.bytes };
}

impl PlainSource {
    /// A source of these bytes.
    pub fn new(bytes: Vec<u8>) -> PlainSource
        ensures { result ≡ bytes.items }
    {
        PlainSource { bytes, at: 0 }
    }

    // Moves the next bytes, as many as go.
    fn give(&mut self, buf: &mut [u8]) -> usize
        ensures count { result ≡ min (length buf.old) (length self.old) }
        ensures bytes { self.old ≡ take result buf.new ++ drop result self.old }
        ensures after { self.new ≡ drop result self.old }
    {
        let rest = &self.bytes[self.at..];
        let count = buf.len().min(rest.len());
        buf[..count].copy_from_slice(&rest[..count]);
        self.at += count;
        count
    }
}

impl Source for PlainSource {
    ghost left = { λ s. Some s };

    ghost faults = { λ _. 0 };

    fn read_some(&mut self, buf: &mut [u8]) -> Result<usize, Failed>
        ensures bound { ReadsAtMost result buf.new }
        ensures bytes { ReadConsumes (Some self.old) (Some self.new) result buf.new }
        ensures cause { HasCause 0 0 result }
        ensures gives { result ≡ Ok (min (length buf.old) (length self.old)) }
    {
        Ok(self.give(buf))
    }
}
