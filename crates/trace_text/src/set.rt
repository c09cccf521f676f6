//! The set that a text stands for.

ghost use Rattle.std.specs.Prelude.{◌≡◌, ◌<◌, ◌+◌, ◌^◌, length, IfOk};
ghost use Rattle.trace_ops.specs.Constants.{HasWords};
ghost use Rattle.trace_ops.specs.InRange.{IsInRange};
ghost use Rattle.text_lines.specs.Lines.{lines};
ghost use Rattle.descr_table.specs.Meaning.{nothing};
ghost use Rattle.descr_table.specs.Reading.{table_at};
ghost use Rattle.trace_text.specs.Faults.{Gives};
ghost use Rattle.trace_text.specs.Sections.{table_read, set_over, set_with_table, set_opened, set_of, set_at};

use crate::cut::{Until, cut, is_alone};
use crate::draft::finish;
use crate::fault::{TextFault, table_fault};
use crate::lexicon::Lexicon;
use crate::reading::read_all;
use descr_table::{read_table, table_laws, tables_are_read_back, tables_have_words};
use std::alloc::Global;
use text_lines::{lines_are_spelled, next_line};
use trace_ops::{List, Table, TraceSet};

fn no_table(alloc: Global) -> Table
    ensures { result ≡ nothing }
{
    Table {
        shapes: List::of(Vec::new(alloc)),
        sizes: List::of(Vec::new(alloc)),
        fields: List::of(Vec::new(alloc)),
        arrays: List::of(Vec::new(alloc)),
        calls: List::of(Vec::new(alloc)),
        functions: List::of(Vec::new(alloc)),
        prebuilts: List::of(Vec::new(alloc)),
    }
}

// The traces of the lines over a table. The line behind them has the number `end`.
fn read_traces(
    alloc: Global,
    table: Table,
    text: &[u8],
    first_line: u32,
    end: u32,
) -> Result<TraceSet, TextFault>
    requires { first_line + length (lines text.now) < 2 ^ 32 }
    ensures { Gives result (set_over table end first_line text.now) }
{
    let names = match Lexicon::of(alloc, &table) {
        Ok(names) => names,
        Err(_) => return Err(TextFault::OutOfMemory),
    };
    let draft = read_all(alloc, &names, text, first_line)?;
    let traces = finish(alloc, end, draft)?;
    Ok(TraceSet { table, traces })
}

fn read_rows(alloc: Global, text: &[u8], first_line: u32) -> Result<Table, TextFault>
    requires { first_line + length (lines text.now) < 2 ^ 32 }
    ensures { Gives result (table_read (table_at first_line text.now)) }
{
    match read_table(alloc, text, first_line) {
        Ok(table) => Ok(table),
        Err(fault) => Err(table_fault(fault)),
    }
}

fn read_with_table(
    alloc: Global,
    text: &[u8],
    first_line: u32,
    end: u32,
) -> Result<TraceSet, TextFault>
    requires { first_line + length (lines text.now) < 2 ^ 32 }
    ensures { Gives result (set_with_table end first_line text.now) }
{
    let (front, back, count) = cut(Until::Section, text);
    let table = read_rows(alloc, front, first_line)?;
    read_traces(alloc, table, back, first_line + count, end)
}

// A text whose first line says something.
fn read_opened(alloc: Global, text: &[u8], first_line: u32, end: u32) -> Result<TraceSet, TextFault>
    requires { first_line + length (lines text.now) < 2 ^ 32 }
    ensures { Gives result (set_opened end first_line text.now (lines text.now)) }
{
    if text.is_empty() {
        return read_traces(alloc, no_table(alloc), text, first_line, end);
    }
    let (line, rest) = next_line(text);
    if is_alone(b"%table", line) {
        return read_with_table(alloc, rest, first_line + 1, end);
    }
    read_traces(alloc, no_table(alloc), text, first_line, end)
}

// A text without a session.
fn read_sections(alloc: Global, text: &[u8], end: u32) -> Result<TraceSet, TextFault>
    requires { 1 + length (lines text.now) < 2 ^ 32 }
    ensures { Gives result (set_of end text.now) }
{
    let (_, back, count) = cut(Until::Said, text);
    read_opened(alloc, back, 1 + count, end)
}

#[tactic(auto, unfolding(crate::specs::Sections::set_at))]
fn read_bytes(alloc: Global, bytes: &[u8]) -> Result<(TraceSet, usize), TextFault>
    requires { 1 + length (lines bytes.now) < 2 ^ 32 }
    ensures { Gives result (set_at bytes.now) }
{
    let (front, _, count) = cut(Until::Session, bytes);
    let set = read_sections(alloc, front, 1 + count)?;
    Ok((set, front.len()))
}

/// The set that a text stands for, and the place of its `%session` line or the text's length; or the first refusal,
/// in the order of the lines. On one line the refusals are tried in this order: syntax, a float, an unknown operation,
/// an unknown descr, an unknown box, a limit. Lines are numbered from 1. What stands behind the `%session` line is not read.
pub fn read_set(alloc: Global, bytes: &[u8]) -> Result<(TraceSet, usize), TextFault>
    requires { 1 + length (lines bytes.now) < 2 ^ 32 }
    ensures read { Gives result (set_at bytes.now) }
    ensures in_range { IfOk result (λ found. IsInRange found.0) }
    ensures words { IfOk result (λ found. HasWords found.0) }
{
    lines_are_spelled();
    table_laws();
    tables_are_read_back();
    tables_have_words();
    read_bytes(alloc, bytes)
}
