//! The cases of a text. Each begins with `~`, and has a line of a count of operations and its name in front of its traces.

use crate::seen::put_seen;
use std::alloc::{AllocError, Global};
use text_lines::{decimal_of, next_line, next_word};

// What stands in front of the first mark, and what stands behind it.
fn cut(text: &[u8]) -> (&[u8], &[u8]) {
    for k in 0..text.len() {
        if text[k] == b'~' {
            let (front, back) = text.split_at(k);
            return (front, behind_first(back));
        }
    }
    (text, &[])
}

fn behind_first(text: &[u8]) -> &[u8] {
    match text {
        [] => &[],
        [_, rest @ ..] => rest,
    }
}

// The count at the front of a line; none where none stands there.
fn count_of(line: &[u8]) -> u64 {
    match next_word(line) {
        None => 0,
        Some((word, _)) => decimal_of(1_000_000, word).unwrap_or(0),
    }
}

fn put_case(alloc: Global, out: &mut Vec<u8>, case: &[u8]) -> Result<(), AllocError> {
    if case.is_empty() {
        return Ok(());
    }
    let (line, text) = next_line(case);
    out.push(b'~')?;
    out.extend_from_slice(line)?;
    out.push(b'\n')?;
    put_seen(alloc, out, text, count_of(line))
}

/// What is seen of each case, behind its line.
pub fn all_seen(alloc: Global, text: &[u8]) -> Result<Vec<u8>, AllocError> {
    let mut out = Vec::new(alloc);
    let mut rest = text;
    for _ in 0..text.len() {
        let (case, more) = cut(rest);
        put_case(alloc, &mut out, case)?;
        rest = more;
    }
    Ok(out)
}
