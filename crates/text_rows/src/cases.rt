//! The cases of a text. Each begins with `~` and what is asked; its own text follows from the next line on.

use crate::told::{first_parts, set_told, set_written, table_told, table_written};
use std::alloc::{AllocError, Global};

// A text of three parts, the middle one of them so many times.
fn many(alloc: Global, times: u32, parts: &str) -> Result<Vec<u8>, AllocError> {
    let mut text = Vec::new(alloc);
    let Some((head, rest)) = parts.split_once("|") else {
        return Ok(text);
    };
    let Some((part, tail)) = rest.split_once("|") else {
        return Ok(text);
    };
    text.extend_from_slice(head.as_bytes())?;
    for _ in 0..times {
        text.extend_from_slice(part.as_bytes())?;
    }
    text.extend_from_slice(tail.as_bytes())?;
    Ok(text)
}

fn put_many(alloc: Global, out: &mut Vec<u8>, count: &str, parts: &str) -> Result<(), AllocError> {
    let text = many(alloc, count.parse::<u32>().unwrap_or(0), parts)?;
    out.extend_from_slice(set_told(alloc, text.as_slice())?.as_bytes())
}

fn put_told(alloc: Global, out: &mut Vec<u8>, asked: &str, text: &str) -> Result<(), AllocError> {
    let bytes = text.as_bytes();
    match asked {
        "read set" => out.extend_from_slice(set_told(alloc, bytes)?.as_bytes()),
        "write set" => out.extend_from_slice(set_written(alloc, bytes)?.as_slice()),
        "read table" => out.extend_from_slice(table_told(alloc, bytes)?.as_bytes()),
        "write table" => out.extend_from_slice(table_written(alloc, bytes)?.as_slice()),
        "first object" => out.extend_from_slice(first_parts(alloc, bytes)?.as_bytes()),
        count => put_many(alloc, out, count, text),
    }
}

fn put_case(alloc: Global, out: &mut Vec<u8>, case: &str) -> Result<(), AllocError> {
    let Some((asked, text)) = case.split_once("\n") else {
        return Ok(());
    };
    out.push(b'~')?;
    out.extend_from_slice(asked.as_bytes())?;
    out.push(b'\n')?;
    put_told(alloc, out, asked, text)
}

/// What is told of each case, behind what is asked.
pub fn all_told(alloc: Global, bytes: &[u8]) -> Result<Vec<u8>, AllocError> {
    let mut out = Vec::new(alloc);
    let Ok(text) = str::from_utf8(bytes) else {
        return Ok(out);
    };
    for case in text.split('~') {
        put_case(alloc, &mut out, case)?;
    }
    Ok(out)
}
