//! Where boxes stand, found by their numbers.

ghost use Rattle.std.specs.Prelude.{◌≡◌, ◌==◌, ◌<◌, length, position, slice_get, slice_set};
ghost use Rattle.trace_ops.specs.declared.trace.BoxId.{BoxId};
ghost use Rattle.target_base.specs.declared.place.Place.{Place as OnePlace};
ghost use Rattle.arena_objects.specs.ReadBack.{or_zero as or_nothing};
ghost use Rattle.resume_rebuild.specs.Noted.{AreNoted, entry_if};
ghost use Rattle.resume_rebuild.specs.Rebuilding.{saved_at as saved_in, entry_in, place_in, word_in as word_found};
ghost use Rattle.resume_rebuild.specs.Rows.{kind_in, kind_of_entry};

use target_base::{Place, Reg};
use trace_ops::{BoxId, Kind, Word};

// Writes where a box stands, if its number has room.
fn note(noted: &mut Vec<usize>, number: u32, at: usize)
    ensures { noted.new.items ≡ slice_set noted.old.items number at }
{
    if (number as usize) < noted.len() {
        noted[number as usize] = at;
    }
}

/// Notes for each number, as far as there is room, where the list has the first box with it.
pub(crate) fn note_places(places: &[(BoxId, Place)], noted: &mut Vec<usize>)
    ensures noted { AreNoted places.now noted.new.items }
{
    let mut k = places.len();
    while k > 0 {
        note(noted, places[k - 1].0.number, k - 1);
        k -= 1;
    }
}

// The place in the list of a box by its number.
fn index_in(places: &[(BoxId, Place)], number: u32) -> Option<usize>
    ensures { result ≡ position (λ (p : BoxId × OnePlace). p.0.number == number) places.now }
{
    places.iter().position(|p| p.0.number == number)
}

// The entry of a box, searched for.
fn entry_found(places: &[(BoxId, Place)], number: u32) -> Option<(BoxId, Place)>
    ensures { result ≡ entry_in places.now number }
{
    match index_in(places, number) {
        None => None,
        Some(i) => places.get(i).copied(),
    }
}

// The entry at a place, if it is the box's.
fn entry_at(places: &[(BoxId, Place)], at: usize, number: u32) -> Option<(BoxId, Place)>
    ensures { result ≡ entry_if number (slice_get places.now at) }
{
    match places.get(at).copied() {
        None => None,
        Some(entry) => {
            if entry.0.number == number {
                Some(entry)
            } else {
                None
            }
        }
    }
}

fn noted_at(noted: &[usize], number: u32) -> Option<usize>
    ensures { result ≡ slice_get noted.now number }
{
    noted.get(number as usize).copied()
}

// The entry of a box by its number.
fn entry_of(places: &[(BoxId, Place)], noted: &[usize], number: u32) -> Option<(BoxId, Place)>
    requires { AreNoted places.now noted.now }
    ensures { result ≡ entry_in places.now number }
{
    match noted_at(noted, number) {
        None => entry_found(places, number),
        Some(at) => entry_at(places, at, number),
    }
}

fn saved_at(place: Place) -> u32
    ensures { result ≡ saved_in place }
{
    match place {
        Place::In(Reg(r)) => u32::from(r),
        Place::Word(w) => w,
    }
}

/// A word, or 0.
pub(crate) fn or_zero(word: Option<Word>) -> Word
    ensures { result ≡ or_nothing word }
{
    match word {
        None => 0,
        Some(w) => w,
    }
}

/// The word of a box by its number, from where the box stands.
pub(crate) fn box_word(
    places: &[(BoxId, Place)],
    noted: &[usize],
    frame: &[Word],
    number: u32,
) -> Word
    requires { AreNoted places.now noted.now }
    ensures { result ≡ word_found frame.now (place_in places.now number) }
{
    match entry_of(places, noted, number) {
        None => 0,
        Some((_, place)) => or_zero(frame.get(saved_at(place) as usize).copied()),
    }
}

/// The kind of a box by its number.
pub(crate) fn box_kind(places: &[(BoxId, Place)], noted: &[usize], number: u32) -> Kind
    requires { AreNoted places.now noted.now }
    ensures { result ≡ kind_of_entry (kind_in places.now number) }
{
    match entry_of(places, noted, number) {
        None => Kind::Int,
        Some((b, _)) => b.kind,
    }
}
