//! The words of constants, before anything is rebuilt.

ghost use Rattle.std.specs.Prelude.{◌≡◌, [], ◌∷◌, ◌++◌, ◌+◌, ◌^◌, ◌≤◌, ◌<◌, pos, length, map, min, All};
ghost use Rattle.std.specs.Vec.{vec_capacity, vec_len};
ghost use Rattle.resume_rebuild.specs.Noted.{AreNoted};
ghost use Rattle.resume_rebuild.specs.Firsts.{IsBelow, StartsAs, sources_before as known_before};
ghost use Rattle.resume_rebuild.specs.Rebuilding.{found_addresses, arg_word as word_meant};

use crate::places::box_word;
use crate::reserving::larger;
use crate::words::listed_word;
use arena_objects::{begins_at, walk_finds, words_ahead};
use target_base::{ArenaWords, Place};
use trace_ops::{Arg, BoxId, Table, Word};

// How many of the first objects a constant needs.
fn reach_of_one(arg: Arg) -> usize
    ensures { IsBelow result arg }
{
    match arg {
        Arg::Ptr(k) => k as usize + 1,
        _ => 0,
    }
}

/// How many of the first objects constants need.
pub(crate) fn reach_of(consts: &[Arg]) -> usize
    ensures { All (IsBelow result) consts.now }
{
    let mut most = 0usize;
    for arg in consts {
        most = larger(most, reach_of_one(*arg));
    }
    most
}

fn word_of(address: u64) -> Word
    requires { address < 2 ^ 31 }
    ensures { result ≡ pos address }
{
    address as Word
}

// Keeps an address as a word.
fn push_address(firsts: &mut Vec<Word>, address: u64)
    requires low { address < 2 ^ 31 }
    requires room { vec_len firsts.old < vec_capacity firsts.old }
    ensures items { firsts.new.items ≡ firsts.old.items ++ pos address ∷ [] }
    ensures len { vec_len firsts.new ≡ vec_len firsts.old + 1 }
    ensures capacity { vec_capacity firsts.new ≡ vec_capacity firsts.old }
{
    firsts.push_reserved(word_of(address));
}

/// Finds the addresses of the first objects of an arena, so many or all.
pub(crate) fn find_firsts(table: &Table, arena: &ArenaWords, most: usize, firsts: &mut Vec<Word>)
    requires empty { firsts.old.items ≡ [] }
    requires room { min most (2 ^ 21) ≤ vec_capacity firsts.old }
    ensures starts { StartsAs most firsts.new.items (found_addresses table.now arena.now) }
    ensures capacity { vec_capacity firsts.new ≡ vec_capacity firsts.old }
{
    walk_finds();
    let _bound = arena.taken();
    let count = most.min(0x20_0000);
    let mut at = 0x1000_0000u64;
    for _ in 0..count {
        match begins_at(table, arena, at) {
            None => return,
            Some(found) => {
                push_address(firsts, found.at);
                at = found.at + 8 * (words_ahead(found.of) + found.parts);
            }
        }
    }
}

/// What the words of constants are read from: where boxes stand, and the first objects.
#[derive(Clone, Copy)]
pub(crate) struct Before<'a> {
    pub(crate) places: &'a [(BoxId, Place)],
    pub(crate) noted: &'a [usize],
    pub(crate) frame: &'a [Word],
    pub(crate) firsts: &'a [Word],
}

fn arg_word(before: &Before, arg: Arg) -> Word
    requires { AreNoted before.now.places.now before.now.noted.now }
    ensures { result ≡ word_meant (known_before before.now.places.now before.now.frame.now before.now.firsts.now) arg }
{
    match arg {
        Arg::Of(b) => box_word(before.places, before.noted, before.frame, b.number),
        Arg::Const(z) => z,
        Arg::Ptr(k) => listed_word(before.firsts, k),
        _ => 0,
    }
}

/// The words of the constants of a table.
pub(crate) fn const_words(before: &Before, consts: &[Arg], words: &mut Vec<Word>)
    requires noted { AreNoted before.now.places.now before.now.noted.now }
    requires empty { words.old.items ≡ [] }
    requires room { length consts.now ≤ vec_capacity words.old }
    ensures items { words.new.items ≡ map (word_meant (known_before before.now.places.now before.now.frame.now before.now.firsts.now)) consts.now }
{
    for arg in consts {
        words.push_reserved(arg_word(before, *arg));
    }
}
