//! The cases of a text. Each begins with `~` and the words of the command line; its input follows from the next line on.

use io_edge::{MemSink, PlainSource};
use std::alloc::{AllocError, Global};
use tj_app::{Status, serve};

// What the session shows, without its counts; all of a text without a session.
fn shown(text: &str) -> &str {
    match text.split_once("%seen\n") {
        None => text,
        Some((_, seen)) => without_counts(seen),
    }
}

fn without_counts(seen: &str) -> &str {
    match seen.split_once("counts ") {
        None => seen,
        Some((front, _)) => front,
    }
}

fn words_of(alloc: Global, line: &str) -> Result<Vec<String>, AllocError> {
    let mut words = Vec::new(alloc);
    for word in line.split_whitespace() {
        words.push(String::from_str(alloc, word)?)?;
    }
    Ok(words)
}

// The words again, the status, and what is shown.
fn put_answer(
    alloc: Global,
    out: &mut Vec<u8>,
    line: &str,
    status: Status,
    bytes: &[u8],
) -> Result<(), AllocError> {
    let code = status.code();
    let head = format!(in alloc; "~{line}\nstatus {code}\n")?;
    out.extend_from_slice(head.as_bytes())?;
    match str::from_utf8(bytes) {
        Ok(text) => out.extend_from_slice(shown(text).as_bytes()),
        Err(_) => out.extend_from_slice(b"not text\n"),
    }
}

fn put_case(alloc: Global, out: &mut Vec<u8>, case: &str) -> Result<(), AllocError> {
    let Some((line, input)) = case.split_once("\n") else {
        return Ok(());
    };
    let words = words_of(alloc, line)?;
    let mut src = PlainSource::new(Vec::from_slice(alloc, input.as_bytes())?);
    let mut sink = MemSink::new(alloc, 100, Vec::new(alloc))?;
    sink.reserve(100_000)?;
    let status = serve(alloc, &words, &mut src, &mut sink);
    put_answer(alloc, out, line, status, sink.bytes())
}

/// What is answered to each case, behind its words.
pub fn all_answers(alloc: Global, bytes: &[u8]) -> Result<Vec<u8>, AllocError> {
    let mut out = Vec::new(alloc);
    let Ok(text) = str::from_utf8(bytes) else {
        return Ok(out);
    };
    for case in text.split('~') {
        put_case(alloc, &mut out, case)?;
    }
    Ok(out)
}
