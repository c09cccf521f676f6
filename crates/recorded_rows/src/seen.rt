//! What is seen of one text of traces and a session.

ghost use Rattle.std.specs.Prelude.{IfSome};
ghost use Rattle.session_text.specs.Fits.{FitsSet};

use recorded_seen::observe;
use session_text::{SessionText, session_of};
use std::alloc::{AllocError, Global};
use text_lines::lines_are_few;
use trace_check::{Checked, check};
use trace_text::{read_set, session_part};

// The checked set and the session of a text; none where the text is refused.
fn read(alloc: Global, text: &[u8]) -> Option<(Checked, SessionText)>
    ensures { IfSome result (λ r. FitsSet r.0 r.1) }
{
    lines_are_few();
    if text.len() > 100_000 {
        return None;
    }
    let Ok((set, _)) = read_set(alloc, text) else {
        return None;
    };
    let Ok(checked) = check(alloc, set) else {
        return None;
    };
    let Some((part, first_line)) = session_part(text) else {
        return None;
    };
    match session_of(alloc, part, first_line, checked.set()) {
        Ok(session) => Some((checked, session)),
        Err(_) => None,
    }
}

/// Adds what is seen of a text after so many operations.
pub fn put_seen(
    alloc: Global,
    out: &mut Vec<u8>,
    text: &[u8],
    operations: u64,
) -> Result<(), AllocError> {
    let Some((checked, session)) = read(alloc, text) else {
        return out.extend_from_slice(b"refused\n");
    };
    let seen = observe(alloc, checked.set(), &session, operations)?;
    out.extend_from_slice(seen.as_slice())
}
