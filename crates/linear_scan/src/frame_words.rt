//! Frame words for boxes that find no register.
ghost use Rattle.std.specs.Prelude.{◌≡◌, ℕ, ◌+◌, ◌<◌, ◌≤◌, ◌^◌, length, slice_index, IfSome};
ghost use Rattle.linear_scan.specs.Choosing.{idle, ArePassed};

use crate::choosing::is_free;
use std::alloc::{AllocError, Global};
use std::cmp::Reverse;
use std::collections::BinaryHeap;
use target_base::Place;

/// The frame words: those that boxes hold or held, that of the earliest end on top, each with one past that end, and the
/// first that none held so far, if there is none before it.
#[derive(Drop)]
pub(crate) struct FrameWords {
    held: BinaryHeap<Reverse<(u32, u32)>>,
    pub fresh: u32,
}

impl FrameWords {
    pub(crate) fn new(alloc: Global) -> FrameWords
        ensures { result.fresh ≡ 16 }
    {
        FrameWords {
            held: BinaryHeap::new(alloc),
            fresh: 16,
        }
    }

    // Notes the frame word that a box holds, if it is one of the slots.
    pub(crate) fn note(&mut self, place: Place, end: u32, slots: usize) -> Result<(), AllocError>
        ensures { self.new.fresh ≡ self.old.fresh }
    {
        if let Place::Word(word) = place {
            if (word as usize) < slots {
                self.held.push(Reverse((end, word)))?;
            }
        }
        Ok(())
    }

    // A free word: that of the earliest end, or the first that none held.
    pub(crate) fn take(&mut self, until: &[u32], from: u32) -> u32
        requires some { 16 < idle until.now }
        requires few { length until.now < 2 ^ 32 }
        requires passed { ArePassed until.now self.old.fresh }
        ensures word { (16 ≤ result) × (result < length until.now) × (slice_index until.now result ≤ from) }
        ensures passed { ArePassed until.now self.new.fresh }
    {
        match self.released(until, from) {
            Some(word) => word,
            None => self.next_fresh(until),
        }
    }

    // The word of the earliest end, if that is past.
    fn released(&mut self, until: &[u32], from: u32) -> Option<u32>
        ensures word { IfSome result (λ w. (16 ≤ w) × (w < length until.now) × (slice_index until.now w ≤ from)) }
        ensures fresh { self.new.fresh ≡ self.old.fresh }
    {
        let word = self.earliest()?;
        if word >= 16 && is_free(until, word as usize, from) {
            let _ = self.held.pop();
            Some(word)
        } else {
            None
        }
    }

    fn earliest(&self) -> Option<u32> {
        match self.held.peek() {
            Some(Reverse((_, word))) => Some(*word),
            None => None,
        }
    }

    // The first word that none held.
    fn next_fresh(&mut self, until: &[u32]) -> u32
        requires some { 16 < idle until.now }
        requires few { length until.now < 2 ^ 32 }
        requires passed { ArePassed until.now self.old.fresh }
        ensures word { (16 ≤ result) × (result < length until.now) × (slice_index until.now result ≡ 0) }
        ensures passed { ArePassed until.now self.new.fresh }
    {
        let word = first_fresh(until, self.fresh);
        self.fresh = word;
        word
    }
}

// The first word from some word on that none held.
fn first_fresh(until: &[u32], fresh: u32) -> u32
    requires some { 16 < idle until.now }
    requires few { length until.now < 2 ^ 32 }
    requires passed { ArePassed until.now fresh }
    ensures word { (16 ≤ result) × (result < length until.now) × (slice_index until.now result ≡ 0) }
    ensures passed { ArePassed until.now result }
{
    for word in fresh as usize..until.len() {
        if until[word] == 0 {
            return word as u32;
        }
    }
    unreachable!()
}
