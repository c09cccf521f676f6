//! The words and values of tagged numbers.

ghost use Rattle.std.specs.Prelude.{◌≡◌, ◌<◌, slice_get};
ghost use Rattle.arena_objects.specs.ReadBack.{or_zero as or_nothing};
ghost use Rattle.resume_rebuild.specs.Noted.{AreNoted};
ghost use Rattle.resume_rebuild.specs.Rebuilding.{value_as};
ghost use Rattle.resume_rebuild.specs.Rows.{small_integer as small_with, kind_of_const, tag_word as word_tagged, tag_kind as kind_tagged, tag_value as value_tagged};
ghost use Rattle.resume_rebuild.specs.Read.{sources_read};

use crate::places::{box_kind, box_word, or_zero};
use arena_objects::Walked;
use target_base::Place;
use trace_meaning::Value;
use trace_ops::{Arg, BoxId, Kind, Word};

/// What words are read from: the constants and their words, where boxes stand, and the words of new objects.
#[derive(Clone, Copy)]
pub(crate) struct Read<'a> {
    pub(crate) consts: &'a [Arg],
    pub(crate) places: &'a [(BoxId, Place)],
    pub(crate) noted: &'a [usize],
    pub(crate) frame: &'a [Word],
    pub(crate) words: &'a [Word],
    pub(crate) made: &'a [Word],
}

// The integer with this index modulo 2^30.
fn small_integer(index: u32) -> Word
    requires { index < 1073741824 }
    ensures { result ≡ small_with index }
{
    if index < 536_870_912 {
        Word::from(index)
    } else {
        Word::from(index) - 1_073_741_824
    }
}

/// A word of a list, or 0.
pub(crate) fn listed_word(words: &[Word], index: u32) -> Word
    ensures { result ≡ or_nothing (slice_get words.now index) }
{
    or_zero(words.get(index as usize).copied())
}

// The kind of a constant.
fn const_kind(consts: &[Arg], index: u32) -> Kind
    ensures { result ≡ kind_of_const (slice_get consts.now index) }
{
    match consts.get(index as usize) {
        Some(Arg::Const(_)) => Kind::Int,
        _ => Kind::Ref,
    }
}

/// The word of a tagged number.
pub(crate) fn tag_word(read: &Read, number: u32) -> Word
    requires { AreNoted read.now.places.now read.now.noted.now }
    ensures { result ≡ word_tagged (sources_read read.now) read.now.words.now number }
{
    let index = number / 4;
    let tag = number % 4;
    if tag == 0 {
        box_word(read.places, read.noted, read.frame, index)
    } else if tag == 1 {
        small_integer(index)
    } else if tag == 2 {
        listed_word(read.words, index)
    } else {
        listed_word(read.made, index)
    }
}

// The kind of what a tagged number names.
fn tag_kind(read: &Read, number: u32) -> Kind
    requires { AreNoted read.now.places.now read.now.noted.now }
    ensures { result ≡ kind_tagged read.now.places.now read.now.consts.now number }
{
    let index = number / 4;
    let tag = number % 4;
    if tag == 0 {
        box_kind(read.places, read.noted, index)
    } else if tag == 1 {
        Kind::Int
    } else if tag == 2 {
        const_kind(read.consts, index)
    } else {
        Kind::Ref
    }
}

// A word read as a value.
fn value_of(walked: &Walked, kind: Kind, word: Word) -> Value
    ensures { result ≡ value_as walked.now.found kind word }
{
    match kind {
        Kind::Int => Value::Int(word),
        Kind::Ref => match walked.number_of(word) {
            None => Value::Null,
            Some(k) => Value::Obj(k),
        },
    }
}

/// The value of a tagged number, by the objects that were found.
pub(crate) fn tag_value(walked: &Walked, read: &Read, number: u32) -> Value
    requires { AreNoted read.now.places.now read.now.noted.now }
    ensures { result ≡ value_tagged walked.now.found (sources_read read.now) read.now.consts.now read.now.words.now number }
{
    value_of(walked, tag_kind(read, number), tag_word(read, number))
}
