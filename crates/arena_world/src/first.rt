//! The words of the prebuilt objects, with which an arena begins.

ghost use Rattle.std.specs.Prelude.{◌≡◌, ◌++◌, ◌*◌, ◌^◌, ◌<◌, length, map, sum_by, IfOk, OnOk};
ghost use Rattle.trace_ops.specs.InRange.{IsTableInRange, prebuilt_bytes};
ghost use Rattle.arena_objects.specs.Starting.{first_words as words_at_first};
ghost use Rattle.arena_world.specs.Prebuilt.{IsHostOf, initial_word as word_meant, head_by, row_words, rows_words};

use crate::host::Host;
use std::alloc::{AllocError, Global};
use trace_ops::{Initial, PrebuiltRow, ShapeOf, Table, Word};

// The word of an initial part.
fn initial_word(host: &Host, part: Initial) -> Word
    ensures { result ≡ word_meant host.now part }
{
    match part {
        Initial::Int(word) => word,
        Initial::Null => 0,
        Initial::Ptr(k) => host.prebuilt(k),
    }
}

// Puts the header, and an array's length.
fn push_head(
    host: &Host,
    shape: ShapeOf,
    parts: usize,
    words: &mut Vec<Word>,
) -> Result<(), AllocError>
    requires { parts < 2 ^ 63 }
    ensures { OnOk result (words.new.items ≡ words.old.items ++ head_by host.now shape parts) }
{
    words.push(i64::from(host.header_of(shape)))?;
    match shape {
        ShapeOf::Size(_) => {}
        ShapeOf::Array(_) => words.push(parts as i64)?,
    }
    Ok(())
}

// Puts the words of parts.
fn push_parts(host: &Host, parts: &[Initial], words: &mut Vec<Word>) -> Result<(), AllocError>
    ensures { OnOk result (words.new.items ≡ words.old.items ++ map (word_meant host.now) parts.now) }
{
    for part in parts {
        words.push(initial_word(host, *part))?;
    }
    Ok(())
}

// Puts the words of a prebuilt object.
fn push_row(host: &Host, row: &PrebuiltRow, words: &mut Vec<Word>) -> Result<(), AllocError>
    ensures { OnOk result (words.new.items ≡ words.old.items ++ row_words host.now row.now) }
{
    let parts = row.parts.items();
    push_head(host, row.of, parts.len(), words)?;
    push_parts(host, parts, words)?;
    Ok(())
}

// Puts the words of prebuilt objects one behind the other.
fn push_rows(host: &Host, rows: &[PrebuiltRow], words: &mut Vec<Word>) -> Result<(), AllocError>
    ensures { OnOk result (words.new.items ≡ words.old.items ++ rows_words host.now rows.now) }
{
    for row in rows {
        push_row(host, row, words)?;
    }
    Ok(())
}

/// The words of the prebuilt objects of a table, from the start of an arena on.
pub fn first_words(alloc: Global, table: &Table, host: &Host) -> Result<Vec<Word>, AllocError>
    requires range { IsTableInRange table.now }
    requires host { IsHostOf table.now host.now }
    ensures words { IfOk result (λ ws. ws.items ≡ words_at_first table.now) }
    ensures bytes { IfOk result (λ ws. 8 * length ws.items ≡ sum_by prebuilt_bytes table.now.prebuilts) }
{
    let mut words = Vec::new(alloc);
    push_rows(host, table.prebuilts.items(), &mut words)?;
    Ok(words)
}
