//! The headings of traces, and merge points.

ghost use Rattle.std.specs.Prelude.{◌≡◌, ◌==◌, position};
ghost use Rattle.text_lines.specs.Words.{words};
ghost use Rattle.trace_text.specs.Heading.{guard_name, loop_at, bridge_at, heading_at, closes, is_merge};

use text_lines::{decimal_of, is_name, key_at, name_at, next_word};
use trace_ops::{Origin, Text};

/// The heading of a trace.
#[derive(Clone, Copy, Debug)]
pub struct Heading {
    pub name: Text,
    pub origin: Origin,
}

fn slash_at(word: &[u8]) -> Option<usize>
    ensures { result ≡ position (λ c. c == 47) word.now }
{
    word.iter().position(|c| *c == b'/')
}

/// The origin that `T/k` names.
#[tactic(auto, unfolding(crate::specs::Heading::guard_name))]
fn guard_name(word: &[u8]) -> Option<Origin>
    ensures { result ≡ guard_name word.now }
{
    let i = slash_at(word)?;
    let name = word.split_at(i).0;
    if !is_name(name) {
        return None;
    }
    let guard = decimal_of(4294967295, word.split_at(i + 1).1)?;
    Some(Origin::Bridge {
        parent: Text::new(name),
        guard: guard as u32,
    })
}

#[tactic(auto, unfolding(crate::specs::Heading::loop_at))]
fn loop_at(line: &[u8]) -> Option<Heading>
    ensures { result ≡ loop_at (words line.now) }
{
    let Some((name, rest)) = name_at(line) else {
        return None;
    };
    if next_word(rest).is_some() {
        return None;
    }
    Some(Heading {
        name,
        origin: Origin::Loop,
    })
}

#[tactic(auto, unfolding(crate::specs::Heading::bridge_at))]
fn bridge_at(line: &[u8]) -> Option<Heading>
    ensures { result ≡ bridge_at (words line.now) }
{
    let Some((name, rest)) = name_at(line) else {
        return None;
    };
    let rest = key_at(b"from", rest)?;
    let (word, rest) = next_word(rest)?;
    let Some(origin) = guard_name(word) else {
        return None;
    };
    if next_word(rest).is_some() {
        return None;
    }
    Some(Heading { name, origin })
}

/// The heading that a line is.
#[tactic(auto, unfolding(crate::specs::Heading::heading_at))]
pub fn heading_at(line: &[u8]) -> Option<Heading>
    ensures { result ≡ heading_at (words line.now) }
{
    let (key, rest) = next_word(line)?;
    if key == b"%loop".as_slice() {
        return loop_at(rest);
    }
    if key == b"%bridge".as_slice() {
        return bridge_at(rest);
    }
    None
}

/// Whether the brackets of a line, of which `depth` are open, close at its end.
#[tactic(auto, unfolding(crate::specs::Heading::closes))]
fn closes(line: &[u8]) -> bool
    ensures { result ≡ closes 0 (words line.now) }
{
    let mut depth = 0usize;
    let mut rest = line;
    while let Some((word, after)) = next_word(rest) {
        if word == b"(".as_slice() {
            depth += 1;
        } else if depth == 0 {
            return false;
        } else if word == b")".as_slice() {
            depth -= 1;
            if depth == 0 {
                return next_word(after).is_none();
            }
        }
        rest = after;
    }
    false
}

/// Whether a line is a merge point.
#[tactic(auto, unfolding(crate::specs::Heading::is_merge))]
pub fn is_merge(line: &[u8]) -> bool
    ensures { result ≡ is_merge (words line.now) }
{
    match next_word(line) {
        None => false,
        Some((word, rest)) => word == b"debug_merge_point".as_slice() && closes(rest),
    }
}
