//! The fields and items of prebuilt objects, read from the words of a line.

ghost use Rattle.std.specs.Prelude.{◌≡◌, ◌<◌, length, IfOk, IfSome, []};
ghost use Rattle.text_lines.specs.Words.{words};
ghost use Rattle.text_lines.specs.Reading.{Gives};
ghost use Rattle.descr_table.specs.Words.{given_of, part_at, parts_at, item_at, items_at, array_of};

use crate::form::{Given, Part};
use std::alloc::{AllocError, Global};
use text_lines::{integer_of, is_end, is_name, next_word};
use trace_ops::{List, Text};

// The value that a word is: an integer, `NULL` or a name.
#[tactic(auto, unfolding(crate::specs::Words::given_of))]
fn given_of(word: &[u8]) -> Option<Given>
    ensures { result ≡ given_of word.now }
{
    if word == b"NULL".as_slice() {
        return Some(Given::Null);
    }
    if is_name(word) {
        return Some(Given::Name(Text::new(word)));
    }
    match integer_of(word) {
        None => None,
        Some(z) => Some(Given::Int(z)),
    }
}

// A field with its value, and what follows.
#[tactic(auto, unfolding(crate::specs::Words::part_at))]
fn part_at(line: &[u8]) -> Option<(Part, &[u8])>
    ensures value { Gives (λ x. (x.0, words x.1.now)) result (part_at (words line.now)) }
    ensures shorter { IfSome result (λ x. length x.1.now < length line.now) }
{
    let (name, rest) = next_word(line)?;
    let (equals, rest) = next_word(rest)?;
    let (value, rest) = next_word(rest)?;
    if !is_name(name) {
        return None;
    }
    if !(equals == b"=".as_slice()) {
        return None;
    }
    match given_of(value) {
        None => None,
        Some(value) => {
            let name = Text::new(name);
            Some((Part { name, value }, rest))
        }
    }
}

/// The fields with their values up to the end of the line.
pub fn parts_at(alloc: Global, line: &[u8]) -> Result<Option<List<Part>>, AllocError>
    ensures { IfOk result (λ o. o ≡ parts_at [] (words line.now)) }
{
    let mut found = Vec::new(alloc);
    let mut rest = line;
    while let Some((part, after)) = part_at(rest) {
        found.push(part)?;
        rest = after;
    }
    if is_end(rest) {
        return Ok(Some(List::of(found)));
    }
    Ok(None)
}

// An item, whether it is the last, and what follows its mark.
#[tactic(auto, unfolding(crate::specs::Words::item_at))]
fn item_at(line: &[u8]) -> Option<(Given, bool, &[u8])>
    ensures value { Gives (λ x. (x.0, x.1, words x.2.now)) result (item_at (words line.now)) }
    ensures shorter { IfSome result (λ x. length x.2.now < length line.now) }
{
    let (value, rest) = next_word(line)?;
    let (mark, rest) = next_word(rest)?;
    match given_of(value) {
        None => None,
        Some(value) => {
            if mark == b",".as_slice() {
                return Some((value, false, rest));
            }
            if mark == b"]".as_slice() {
                return Some((value, true, rest));
            }
            None
        }
    }
}

// The items up to the bracket that ends the line.
fn items_at(alloc: Global, line: &[u8]) -> Result<Option<List<Given>>, AllocError>
    ensures { IfOk result (λ o. o ≡ items_at [] (words line.now)) }
{
    let mut found = Vec::new(alloc);
    let mut rest = line;
    while let Some((item, last, after)) = item_at(rest) {
        found.push(item)?;
        if last {
            if is_end(after) {
                return Ok(Some(List::of(found)));
            }
            return Ok(None);
        }
        rest = after;
    }
    Ok(None)
}

/// The items behind the opening bracket.
#[tactic(auto, unfolding(crate::specs::Words::array_of))]
pub fn array_of(alloc: Global, line: &[u8]) -> Result<Option<List<Given>>, AllocError>
    ensures { IfOk result (λ o. o ≡ array_of (words line.now)) }
{
    let Some((word, rest)) = next_word(line) else {
        return Ok(None);
    };
    if word == b"]".as_slice() {
        if is_end(rest) {
            return Ok(Some(List::of(Vec::new(alloc))));
        }
        return Ok(None);
    }
    items_at(alloc, line)
}
