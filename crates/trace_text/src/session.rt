//! The part of a text that is its session.

ghost use Rattle.std.specs.Prelude.{◌≡◌, ◌<◌, ◌+◌, ◌^◌, Some, None, length, IfSome, MatchOption};
ghost use Rattle.text_lines.specs.Lines.{lines};
ghost use Rattle.trace_text.specs.Sections.{session_part};

use crate::cut::{Until, cut};
use text_lines::next_line;

/// The lines behind the `%session` line, and the number of the first; nothing where there is no such line. Lines are
/// numbered from 1.
pub fn session_part(bytes: &[u8]) -> Option<(&[u8], u32)>
    requires { 1 + length (lines bytes.now) < 2 ^ 32 }
    ensures part { MatchOption result (session_part bytes.now ≡ None) (λ part. session_part bytes.now ≡ Some (part.0.now, part.1)) }
    ensures room { IfSome result (λ part. part.1 + length (lines part.0.now) < 2 ^ 32) }
{
    let (_, back, count) = cut(Until::Session, bytes);
    if back.is_empty() {
        return None;
    }
    let (_, behind) = next_line(back);
    Some((behind, count + 2))
}
