//! Kinds, lists of names and values, read from the words of a line.

ghost use Rattle.std.specs.Prelude.{◌≡◌, IfOk, []};
ghost use Rattle.text_lines.specs.Words.{words};
ghost use Rattle.text_lines.specs.Reading.{Gives};
ghost use Rattle.descr_table.specs.Words.{kind_at, result_at, kind_of_letter, letters_at, some_kinds, kinds_of, some_names, names_at, reads_at, onward, reads_of, writes_of};

use std::alloc::{AllocError, Global};
use text_lines::{is_name, next_word};
use trace_ops::{Kind, List, Text};

/// `i` or `r`, and what follows it.
#[tactic(auto, unfolding(crate::specs::Words::kind_at))]
pub fn kind_at(line: &[u8]) -> Option<(Kind, &[u8])>
    ensures { Gives (λ x. (x.0, words x.1.now)) result (kind_at (words line.now)) }
{
    let (word, rest) = next_word(line)?;
    if word == b"i".as_slice() {
        return Some((Kind::Int, rest));
    }
    if word == b"r".as_slice() {
        return Some((Kind::Ref, rest));
    }
    None
}

/// `i`, `r`, or `n` for none, and what follows it.
#[tactic(auto, unfolding(crate::specs::Words::result_at))]
pub fn result_at(line: &[u8]) -> Option<(Option<Kind>, &[u8])>
    ensures { Gives (λ x. (x.0, words x.1.now)) result (result_at (words line.now)) }
{
    let (word, rest) = next_word(line)?;
    if word == b"i".as_slice() {
        return Some((Some(Kind::Int), rest));
    }
    if word == b"r".as_slice() {
        return Some((Some(Kind::Ref), rest));
    }
    if word == b"n".as_slice() {
        return Some((None, rest));
    }
    None
}

fn kind_of_letter(c: u8) -> Option<Kind>
    ensures { result ≡ kind_of_letter c }
{
    if c == b'i' {
        return Some(Kind::Int);
    }
    if c == b'r' {
        return Some(Kind::Ref);
    }
    None
}

#[tactic(auto, unfolding(crate::specs::Words::letters_at))]
fn letters_at(alloc: Global, word: &[u8]) -> Result<Option<List<Kind>>, AllocError>
    ensures { IfOk result (λ o. o ≡ letters_at [] word.now) }
{
    let mut kinds = Vec::new(alloc);
    for c in word {
        let Some(kind) = kind_of_letter(*c) else {
            return Ok(None);
        };
        kinds.push(kind)?;
    }
    Ok(Some(List::of(kinds)))
}

fn some_kinds(kinds: Option<List<Kind>>) -> Option<List<Kind>>
    ensures { result ≡ some_kinds kinds }
{
    let Some(kinds) = kinds else {
        return None;
    };
    if kinds.items().is_empty() {
        return None;
    }
    Some(kinds)
}

/// The kinds that a word lists by letters; `-` lists none.
#[tactic(auto, unfolding(crate::specs::Words::kinds_of))]
pub fn kinds_of(alloc: Global, word: &[u8]) -> Result<Option<List<Kind>>, AllocError>
    ensures { IfOk result (λ o. o ≡ kinds_of word.now) }
{
    if word == b"-".as_slice() {
        return Ok(Some(List::of(Vec::new(alloc))));
    }
    Ok(some_kinds(letters_at(alloc, word)?))
}

// The names up to the end of the line.
#[tactic(auto, unfolding(crate::specs::Words::names_at))]
fn names_at(alloc: Global, line: &[u8]) -> Result<Option<List<Text>>, AllocError>
    ensures { IfOk result (λ o. o ≡ names_at [] (words line.now)) }
{
    let mut found = Vec::new(alloc);
    let mut rest = line;
    while let Some((word, after)) = next_word(rest) {
        if !is_name(word) {
            return Ok(None);
        }
        found.push(Text::new(word))?;
        rest = after;
    }
    Ok(Some(List::of(found)))
}

// The names up to the word `writes` or the end of the line.
#[tactic(auto, unfolding(crate::specs::Words::reads_at))]
fn reads_at(alloc: Global, line: &[u8]) -> Result<Option<List<Text>>, AllocError>
    ensures { IfOk result (λ o. o ≡ reads_at [] (words line.now)) }
{
    let mut found = Vec::new(alloc);
    let mut rest = line;
    while let Some((word, after)) = next_word(rest) {
        if word == b"writes".as_slice() {
            return Ok(Some(List::of(found)));
        }
        if !is_name(word) {
            return Ok(None);
        }
        found.push(Text::new(word))?;
        rest = after;
    }
    Ok(Some(List::of(found)))
}

// The line from the first such word on.
#[tactic(auto, unfolding(crate::specs::Words::onward))]
fn onward<'a>(key: &[u8], line: &'a [u8]) -> &'a [u8]
    ensures { words result.now ≡ onward key.now (words line.now) }
{
    let mut rest = line;
    while let Some((word, after)) = next_word(rest) {
        if word == key {
            return rest;
        }
        rest = after;
    }
    rest
}

fn some_names(names: Option<List<Text>>) -> Option<List<Text>>
    ensures { result ≡ some_names names }
{
    let Some(names) = names else {
        return None;
    };
    if names.items().is_empty() {
        return None;
    }
    Some(names)
}

/// The fields that a call reads, from the line behind its result.
#[tactic(auto, unfolding(crate::specs::Words::reads_of))]
pub fn reads_of(alloc: Global, line: &[u8]) -> Result<Option<List<Text>>, AllocError>
    ensures { IfOk result (λ o. o ≡ reads_of (words line.now)) }
{
    let Some((word, rest)) = next_word(line) else {
        return Ok(Some(List::of(Vec::new(alloc))));
    };
    if word == b"writes".as_slice() {
        return Ok(Some(List::of(Vec::new(alloc))));
    }
    if word == b"reads".as_slice() {
        return Ok(some_names(reads_at(alloc, rest)?));
    }
    Ok(None)
}

/// The fields that a call writes, from the line behind its result.
#[tactic(auto, unfolding(crate::specs::Words::writes_of))]
pub fn writes_of(alloc: Global, line: &[u8]) -> Result<Option<List<Text>>, AllocError>
    ensures { IfOk result (λ o. o ≡ writes_of (words line.now)) }
{
    let Some((_, rest)) = next_word(onward(b"writes", line)) else {
        return Ok(Some(List::of(Vec::new(alloc))));
    };
    Ok(some_names(names_at(alloc, rest)?))
}
