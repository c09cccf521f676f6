// What is read where a machine has returned.

ghost use Rattle.std.specs.Prelude.{◌≡◌, [], List, Some as Just, slice_get, position};
ghost use Rattle.trace_ops.specs.InRange.{IsTableInRange};
ghost use Rattle.arena_objects.specs.Walked.{addresses_found};
ghost use Rattle.arena_objects.specs.ReadBack.{or_zero};
ghost use Rattle.resume_rebuild.specs.Rebuilding.{Extent, word_in, place_in, sources, arg_word as word_meant, slot_of_arg};
ghost use Rattle.resume_rebuild.specs.Noted.{has_number};
ghost use Rattle.session_host.specs.Entries.{stray_in};
ghost use Rattle.run_session.specs.Returning.{Strays};
ghost use Rattle.session_host.specs.Showing.{kinds_at, words_at, stray_base as base_meant};

use crate::reading::{has_spot, is_stray, nth_address, reference, value};
use arena_objects::walk_finds;
use resume_rebuild::Rebuilt;
use target_base::{ArenaWords, Place};
use trace_meaning::Value;
use trace_ops::{Arg, BoxId, Kind, Pending, Table, Word};

// A word of a list, or 0.
fn word_of(words: &[Word], index: u32) -> Word
    ensures { result ≡ or_zero (slice_get words.now index) }
{
    match words.get(index as usize) {
        None => 0,
        Some(word) => *word,
    }
}

// The word of a place: that of a register is saved in the frame word of its number.
fn word_at(frame: &[Word], place: Place) -> Word
    ensures { result ≡ word_in frame.now (Just place) }
{
    match place {
        Place::In(r) => word_of(frame, u32::from(r.0)),
        Place::Word(k) => word_of(frame, k),
    }
}

// The place of the first box of this number.
fn entry_of(places: &[(BoxId, Place)], number: u32) -> Option<usize>
    ensures { result ≡ position (has_number number) places.now }
{
    places.iter().position(|p| p.0.number == number)
}

/// The table, the arena, saved registers and frame words, the places of boxes, and the objects that were found.
#[derive(Clone, Copy)]
pub(crate) struct Exit<'a> {
    pub(crate) table: &'a Table,
    pub(crate) arena: &'a ArenaWords,
    pub(crate) frame: &'a [Word],
    pub(crate) places: &'a [(BoxId, Place)],
    pub(crate) rebuilt: &'a Rebuilt,
}

impl<'a> Exit<'a> {
    // The word of a box at its place, or 0.
    fn box_word(&self, number: u32) -> Word
        ensures { result ≡ word_in self.now.frame.now (place_in self.now.places.now number) }
    {
        match entry_of(self.places, number) {
            None => 0,
            Some(k) => word_at(self.frame, self.places[k].1),
        }
    }

    // Whether a word of a kind is to be a reference and is none.
    fn strays(&self, kind: Kind, word: Word) -> bool
        requires { self.now.rebuilt.now.found ≡ addresses_found self.now.table.now self.now.arena.now }
        ensures { Strays self.now.table.now self.now.arena.now kind word result }
    {
        walk_finds();
        match kind {
            Kind::Int => false,
            Kind::Ref => is_stray(self.rebuilt, word),
        }
    }

    // The word of an argument; a class and a function have none.
    fn arg_word(&self, arg: Arg) -> Word
        ensures { (es : List Extent) → result ≡ word_meant (sources self.now.table.now es self.now.places.now self.now.frame.now self.now.arena.now) arg }
    {
        match arg {
            Arg::Of(b) => self.box_word(b.number),
            Arg::Const(word) => word,
            Arg::Ptr(k) => nth_address(self.table, self.arena, k),
            _ => 0,
        }
    }

    /// The value of an argument.
    pub(crate) fn arg_value(&self, arg: Arg) -> Value
        ensures { result ≡ slot_of_arg self.now.rebuilt.now.found (sources self.now.table.now [] self.now.places.now self.now.frame.now self.now.arena.now) arg }
    {
        match arg {
            Arg::Of(b) => value(self.rebuilt, b.kind, self.box_word(b.number)),
            Arg::Const(word) => Value::Int(word),
            other => reference(self.rebuilt, self.arg_word(other)),
        }
    }

    /// The first box of a reference whose word is none.
    pub(crate) fn stray_box(&self) -> Option<Word>
        requires { self.now.rebuilt.now.found ≡ addresses_found self.now.table.now self.now.arena.now }
        ensures { result ≡ stray_in self.now.table.now self.now.arena.now (kinds_at self.now.places.now) (words_at self.now.frame.now self.now.places.now) }
    {
        for p in self.places {
            let word = word_at(self.frame, p.1);
            if self.strays(p.0.kind, word) {
                return Some(word);
            }
        }
        None
    }

    /// The first base of a pending store that is no object with its spot.
    pub(crate) fn stray_base(&self, stores: &[Pending]) -> Option<Word>
        requires range { IsTableInRange self.now.table.now }
        requires found { self.now.rebuilt.now.found ≡ addresses_found self.now.table.now self.now.arena.now }
        ensures { (es : List Extent) → result ≡ base_meant self.now.table.now self.now.arena.now (word_meant (sources self.now.table.now es self.now.places.now self.now.frame.now self.now.arena.now)) stores.now }
    {
        for store in stores {
            let word = self.arg_word(store.base);
            if !has_spot(self.table, self.arena, self.rebuilt, word, store.spot) {
                return Some(word);
            }
        }
        None
    }
}
