//! The table that lines stand for.

ghost use Rattle.std.specs.Prelude.{◌≡◌, ◌<◌, ◌+◌, ◌^◌, ◌-◌, ◌≤◌, length, IfOk, OnOk};
ghost use Rattle.text_lines.specs.Lines.{lines};
ghost use Rattle.lists.specs.Refused.{read_lines};
ghost use Rattle.text_lines.specs.Reading.{said};
ghost use Rattle.descr_table.specs.Form.{form_at};
ghost use Rattle.descr_table.specs.Meaning.{nothing, refusal};
ghost use Rattle.descr_table.specs.Reading.{prebuilt_name, defined_name, with_defined, defined_in, fault_at, after, read_line, table_at, Gives};
ghost use Rattle.descr_table.specs.Draft.{table_of, Leaves, IsDraft, Few};
ghost use Rattle.trace_ops.specs.InRange.{IsTableInRange};

use crate::draft::Draft;
use crate::fault::{Refusal, TableFault};
use crate::form::Form;
use crate::line::said;
use std::alloc::{AllocError, Global};
use text_lines::{Names, lines_are_spelled, next_line};
use trace_ops::{Table, Text};

fn prebuilt_name(form: &Form) -> Option<Text>
    ensures { result ≡ prebuilt_name form.now }
{
    match form {
        Form::Size { .. } => None,
        Form::Field { .. } => None,
        Form::Array { .. } => None,
        Form::Call { .. } => None,
        Form::Function { .. } => None,
        Form::Object { name, .. } => Some(*name),
        Form::Items { name, .. } => Some(*name),
    }
}

fn defined_name(alloc: Global, line: &[u8]) -> Result<Option<Text>, AllocError>
    ensures { IfOk result (λ o. o ≡ defined_name (said form_at line.now)) }
{
    match said(alloc, line)? {
        None => Ok(None),
        Some(None) => Ok(None),
        Some(Some(form)) => Ok(prebuilt_name(&form)),
    }
}

fn note_defined(alloc: Global, names: &mut Names, line: &[u8]) -> Result<(), AllocError>
    ensures { OnOk result (names.new ≡ with_defined (defined_name (said form_at line.now)) names.old) }
{
    match defined_name(alloc, line)? {
        None => Ok(()),
        Some(name) => names.add(name),
    }
}

// The names of the prebuilt objects that the lines define.
#[tactic(auto, unfolding(crate::specs::Reading::defined_behind))]
fn defined_in(alloc: Global, text: &[u8]) -> Result<Names, AllocError>
    ensures { IfOk result (λ v. v ≡ defined_in text.now) }
{
    let mut names = Names::new(alloc);
    let mut rest = text;
    while !rest.is_empty() {
        let (line, after) = next_line(rest);
        note_defined(alloc, &mut names, line)?;
        rest = after;
    }
    Ok(names)
}

fn fault_at(line: u32, why: Refusal) -> TableFault
    ensures { result ≡ fault_at line why }
{
    match why {
        Refusal::Syntax => TableFault::Syntax { line },
        Refusal::Twice => TableFault::Twice { line },
        Refusal::UnknownName => TableFault::UnknownName { line },
        Refusal::BadInitial => TableFault::BadInitial { line },
        Refusal::Limit { what, count } => TableFault::Limit { what, count },
    }
}

// Puts a form that is not refused.
fn read_form(draft: &mut Draft, defined: &Names, number: u32, form: &Form) -> Result<(), TableFault>
    requires is_draft { IsDraft draft.old }
    requires few { Few (table_of draft.old) (2 ^ 32 - 2) }
    requires small { length defined.now < 2 ^ 32 }
    ensures read { Leaves result draft.new (after defined.now number form.now (table_of draft.old) (refusal form.now defined.now (table_of draft.old))) }
    ensures kept { OnOk result (IsDraft draft.new) }
{
    let why = match draft.refusal(form, defined) {
        Ok(why) => why,
        Err(_) => return Err(TableFault::OutOfMemory),
    };
    if let Some(why) = why {
        return Err(fault_at(number, why));
    }
    match draft.put(form, defined) {
        Ok(()) => Ok(()),
        Err(_) => Err(TableFault::OutOfMemory),
    }
}

// Reads one line over the earlier ones.
#[tactic(auto, unfolding(crate::specs::Reading::read_line))]
fn read_line(draft: &mut Draft, defined: &Names, number: u32, line: &[u8]) -> Result<(), TableFault>
    requires is_draft { IsDraft draft.old }
    requires few { Few (table_of draft.old) (2 ^ 32 - 2) }
    requires small { length defined.now < 2 ^ 32 }
    ensures read { Leaves result draft.new (read_line defined.now number line.now (table_of draft.old)) }
    ensures kept { OnOk result (IsDraft draft.new) }
{
    let form = match said(draft.alloc, line) {
        Err(_) => return Err(TableFault::OutOfMemory),
        Ok(None) => return Err(TableFault::Syntax { line: number }),
        Ok(Some(None)) => return Ok(()),
        Ok(Some(Some(form))) => form,
    };
    read_form(draft, defined, number, &form)
}

fn read_all(
    alloc: Global,
    text: &[u8],
    first_line: u32,
    defined: &Names,
) -> Result<Table, TableFault>
    requires room { first_line + length (lines text.now) < 2 ^ 32 }
    requires small { length defined.now < 2 ^ 32 }
    ensures { Gives result (read_lines (read_line defined.now) first_line (lines text.now) nothing) }
{
    let mut draft = Draft::new(alloc);
    let mut number = first_line;
    let mut rest = text;
    while !rest.is_empty() {
        let (line, after) = next_line(rest);
        read_line(&mut draft, defined, number, line)?;
        rest = after;
        number += 1;
    }
    Ok(draft.finish())
}

/// The table that the lines stand for, or the first refusal. The lines are those behind `%table`, and are
/// numbered from `first_line`. A table that is read is in range: its numbers name rows, and no limit is passed.
pub fn read_table(alloc: Global, text: &[u8], first_line: u32) -> Result<Table, TableFault>
    requires { first_line + length (lines text.now) < 2 ^ 32 }
    ensures read { Gives result (table_at first_line text.now) }
    ensures in_range { IfOk result (λ t. IsTableInRange t) }
{
    lines_are_spelled();
    match defined_in(alloc, text) {
        Err(_) => Err(TableFault::OutOfMemory),
        Ok(defined) => read_all(alloc, text, first_line, &defined),
    }
}
