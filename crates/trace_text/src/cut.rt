//! Cutting a text in front of a line.

ghost use Rattle.std.specs.Prelude.{◌≡◌, ◌<◌, ◌≤◌, ◌+◌, ◌-◌, ◌^◌, ◌==◌, ◌∷◌, length, drop, position};
ghost use Rattle.std.specs.List.{position_or_len};
ghost use Rattle.text_lines.specs.Lines.{lines};
ghost use Rattle.text_lines.specs.Words.{words};
ghost use Rattle.trace_text.specs.Sections.{is_alone, stops, lines_before, front, back};

use crate::reading::is_section;
use text_lines::{is_end, is_plain, is_skipped, next_line, next_word};

/// The line in front of which a text is cut: the session's, one that begins with `%`, or one that says something.
#[derive(Clone, Copy, Debug)]
pub enum Until {
    Session,
    Section,
    Said,
}

/// Whether a line is this word alone.
pub fn is_alone(key: &[u8], line: &[u8]) -> bool
    ensures { result ≡ is_alone key.now (words line.now) }
{
    match next_word(line) {
        None => false,
        Some((word, rest)) => word == key && is_end(rest),
    }
}

fn stops(until: Until, line: &[u8]) -> bool
    ensures { result ≡ stops until line.now }
{
    match until {
        Until::Session => is_alone(b"%session", line),
        Until::Section => is_section(line),
        Until::Said => !(is_plain(line) && is_skipped(line)),
    }
}

/// What stands in front of the first such line, what stands from it on, and how many lines are in front.
pub fn cut(until: Until, text: &[u8]) -> (&[u8], &[u8], u32)
    requires { length (lines text.now) < 2 ^ 32 }
    ensures front { result.0.now ≡ front until text.now }
    ensures back { result.1.now ≡ back until text.now }
    ensures lines { result.2 ≡ lines_before (stops until) text.now }
    ensures room { result.2 + length (lines result.1.now) ≡ length (lines text.now) }
{
    let mut rest = text;
    let mut count = 0u32;
    while !rest.is_empty() {
        let (line, after) = next_line(rest);
        if stops(until, line) {
            let at = text.len() - rest.len();
            return (text.split_at(at).0, text.split_at(at).1, count);
        }
        rest = after;
        count += 1;
    }
    (text, &[], count)
}
