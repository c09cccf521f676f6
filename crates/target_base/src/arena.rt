// The memory of an arena.
#![tactic(auto)]

ghost use Rattle.std.specs.Prelude.{◌≡◌, ℕ, ◌+◌, ◌-◌, ◌*◌, ◌%◌, ◌^◌, ◌≤◌, ◌<◌, length, is_some, if◌then◌else◌, OnSome, IfSome, IfNone, IsTrue, ◌↔◌, IsSome};
ghost use Rattle.target_base.specs.Arena.{Arena, arena_word, with_arena_word};

use std::marker::Model;

/// The words of an arena, which stands from 0x10000000 on, and how many of its bytes are taken.
#[derive(Drop)]
pub struct ArenaWords {
    words: Vec<i64>,
    taken: u64,
}

impl Model for ArenaWords {
    ghost Value = { Arena };

    ghost view = { λ a. record { words = a.words.items; taken = a.taken } };

    ghost invariant = { λ a. record { few : length a.words.items ≤ 2 ^ 21; whole : a.taken % 8 ≡ 0; within : a.taken ≤ 8 * length a.words.items } };
}

const ARENA_BASE: u64 = 0x1000_0000;

impl ArenaWords {
    /// An arena of these words, of which the first `taken` bytes are taken.
    pub fn new(words: Vec<i64>, taken: u64) -> Self
        requires few { length words.items ≤ 2 ^ 21 }
        requires whole { taken % 8 ≡ 0 }
        requires within { taken ≤ 8 * length words.items }
        ensures words { result.words ≡ words.items }
        ensures taken { result.taken ≡ taken }
    {
        ArenaWords { words, taken }
    }

    /// The bytes that are taken.
    pub fn taken(&self) -> u64
        ensures value { result ≡ self.now.taken }
        ensures whole { result % 8 ≡ 0 }
        ensures within { result ≤ 8 * length self.now.words }
        ensures bound { result ≤ 2 ^ 24 }
    {
        self.taken
    }

    /// The bytes of all words.
    pub fn size(&self) -> u64
        ensures value { result ≡ 8 * length self.now.words }
        ensures bound { result ≤ 2 ^ 24 }
    {
        8 * self.words.len() as u64
    }

    /// The word at an address, where there is one.
    pub fn read(&self, at: u64) -> Option<i64>
        ensures { result ≡ arena_word self.now at }
    {
        if at % 8 != 0 || at < ARENA_BASE {
            return None;
        }
        self.words.get((at - ARENA_BASE) as usize / 8).copied()
    }

    /// Writes the word at an address, where there is one.
    pub fn write(&mut self, at: u64, w: i64) -> bool
        ensures variant { result ≡ is_some (arena_word self.old at) }
        ensures after { self.new ≡ (if result then with_arena_word at w self.old else self.old) }
    {
        if self.read(at).is_none() {
            return false;
        }
        self.words[(at - ARENA_BASE) as usize / 8] = w;
        true
    }

    /// Takes the next bytes and answers their address, where enough are left.
    pub fn take(&mut self, bytes: u64) -> Option<u64>
        requires { bytes % 8 ≡ 0 }
        ensures variant { IsSome result ↔ (bytes + self.old.taken ≤ 8 * length self.old.words) }
        ensures found { IfSome result (λ a. a ≡ 0x1000_0000 + self.old.taken) }
        ensures some { OnSome result (self.new ≡ record self.old { taken = self.old.taken + bytes }) }
        ensures none { IfNone result (self.new ≡ self.old) }
    {
        if self.size() - self.taken < bytes {
            return None;
        }
        let a = ARENA_BASE + self.taken;
        self.taken += bytes;
        Some(a)
    }
}
