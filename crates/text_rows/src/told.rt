//! What reading answers to a text, and what is written of what it stands for.

ghost use Rattle.std.specs.Prelude.{◌+◌, ◌<◌, ◌^◌, length};
ghost use Rattle.text_lines.specs.Lines.{lines};

use descr_table::{read_table, write_table};
use std::alloc::{AllocError, Global};
use text_lines::lines_are_few;
use trace_text::{read_set, write_set};

// The text, if it is short enough for a number to count its lines, and else an empty one.
fn short(text: &[u8]) -> &[u8]
    ensures { 1 + length (lines result.now) < 2 ^ 32 }
{
    lines_are_few();
    if text.len() > 100_000 {
        return &[];
    }
    text
}

/// The number of traces and the place of the session, or the fault.
pub fn set_told(alloc: Global, text: &[u8]) -> Result<String, AllocError> {
    match read_set(alloc, short(text)) {
        Ok((set, place)) => {
            let traces = set.traces.items().len();
            format!(in alloc; "{traces} at {place}\n")
        }
        Err(fault) => format!(in alloc; "{fault}\n"),
    }
}

/// What is written of the set.
pub fn set_written(alloc: Global, text: &[u8]) -> Result<Vec<u8>, AllocError> {
    match read_set(alloc, short(text)) {
        Ok((set, _)) => write_set(alloc, &set),
        Err(_) => Ok(Vec::new(alloc)),
    }
}

/// That the table is read, or the fault, the first line being number 1.
pub fn table_told(alloc: Global, text: &[u8]) -> Result<String, AllocError> {
    match read_table(alloc, short(text), 1) {
        Ok(_) => String::from_str(alloc, "read\n"),
        Err(fault) => format!(in alloc; "{fault}\n"),
    }
}

/// What is written of the table.
pub fn table_written(alloc: Global, text: &[u8]) -> Result<Vec<u8>, AllocError> {
    match read_table(alloc, short(text), 1) {
        Ok(table) => write_table(alloc, &table),
        Err(_) => Ok(Vec::new(alloc)),
    }
}

/// The parts of the table's first prebuilt object, in the order of its fields.
pub fn first_parts(alloc: Global, text: &[u8]) -> Result<String, AllocError> {
    match read_table(alloc, short(text), 1) {
        Ok(table) => match table.prebuilts.items().first() {
            Some(row) => format!(in alloc; "{:?}\n", row.parts.items()),
            None => String::from_str(alloc, "none\n"),
        },
        Err(fault) => format!(in alloc; "{fault}\n"),
    }
}
