//! The form of a line, read from its words.

ghost use Rattle.std.specs.Prelude.{◌≡◌, IfOk};
ghost use Rattle.text_lines.specs.Words.{words};
ghost use Rattle.text_lines.specs.Reading.{Gives, said};
ghost use Rattle.descr_table.specs.Form.{size_at, field_at, array_at, call_at, function_at, object_at, items_at, prebuilt_at, form_at};

use crate::form::Form;
use crate::values::{array_of, parts_at};
use crate::words::{kind_at, kinds_of, reads_of, result_at, writes_of};
use std::alloc::{AllocError, Global};
use text_lines::{is_end, is_plain, is_skipped, key_at, name_at, next_word};
use trace_ops::Text;

#[tactic(auto, unfolding(crate::specs::Form::size_at))]
fn size_at(line: &[u8]) -> Option<Form>
    ensures { Gives (λ x. x) result (size_at (words line.now)) }
{
    let Some((name, rest)) = name_at(line) else {
        return None;
    };
    if next_word(rest).is_none() {
        return Some(Form::Size { name, vtable: None });
    }
    let rest = key_at(b"vtable", rest)?;
    let Some((vtable, rest)) = name_at(rest) else {
        return None;
    };
    if next_word(rest).is_some() {
        return None;
    }
    let vtable = Some(vtable);
    Some(Form::Size { name, vtable })
}

#[tactic(auto, unfolding(crate::specs::Form::field_at))]
fn field_at(line: &[u8]) -> Option<Form>
    ensures { Gives (λ x. x) result (field_at (words line.now)) }
{
    let Some((name, rest)) = name_at(line) else {
        return None;
    };
    let rest = key_at(b"of", rest)?;
    let Some((size, rest)) = name_at(rest) else {
        return None;
    };
    let (kind, rest) = kind_at(rest)?;
    if next_word(rest).is_none() {
        return Some(Form::Field {
            name,
            size,
            kind,
            immutable: false,
        });
    }
    let rest = key_at(b"immutable", rest)?;
    if next_word(rest).is_some() {
        return None;
    }
    Some(Form::Field {
        name,
        size,
        kind,
        immutable: true,
    })
}

#[tactic(auto, unfolding(crate::specs::Form::array_at))]
fn array_at(line: &[u8]) -> Option<Form>
    ensures { Gives (λ x. x) result (array_at (words line.now)) }
{
    let Some((name, rest)) = name_at(line) else {
        return None;
    };
    let (kind, rest) = kind_at(rest)?;
    if next_word(rest).is_some() {
        return None;
    }
    Some(Form::Array { name, kind })
}

#[tactic(auto, unfolding(crate::specs::Form::function_at))]
fn function_at(line: &[u8]) -> Option<Form>
    ensures { Gives (λ x. x) result (function_at (words line.now)) }
{
    let Some((name, rest)) = name_at(line) else {
        return None;
    };
    if next_word(rest).is_some() {
        return None;
    }
    Some(Form::Function { name })
}

#[tactic(auto, unfolding(crate::specs::Form::call_at))]
fn call_at(alloc: Global, line: &[u8]) -> Result<Option<Form>, AllocError>
    ensures { IfOk result (λ o. o ≡ call_at (words line.now)) }
{
    let Some((name, rest)) = name_at(line) else {
        return Ok(None);
    };
    let Some(rest) = key_at(b"args", rest) else {
        return Ok(None);
    };
    let Some((letters, rest)) = next_word(rest) else {
        return Ok(None);
    };
    let Some(args) = kinds_of(alloc, letters)? else {
        return Ok(None);
    };
    let Some(rest) = key_at(b"result", rest) else {
        return Ok(None);
    };
    let Some((gives, rest)) = result_at(rest) else {
        return Ok(None);
    };
    let Some(reads) = reads_of(alloc, rest)? else {
        return Ok(None);
    };
    let Some(writes) = writes_of(alloc, rest)? else {
        return Ok(None);
    };
    Ok(Some(Form::Call {
        name,
        args,
        result: gives,
        reads,
        writes,
    }))
}

fn object_at(alloc: Global, name: Text, size: Text, line: &[u8]) -> Result<Option<Form>, AllocError>
    ensures { IfOk result (λ o. o ≡ object_at name size (words line.now)) }
{
    let Some(fields) = parts_at(alloc, line)? else {
        return Ok(None);
    };
    Ok(Some(Form::Object { name, size, fields }))
}

fn items_at(alloc: Global, name: Text, array: Text, line: &[u8]) -> Result<Option<Form>, AllocError>
    ensures { IfOk result (λ o. o ≡ items_at name array (words line.now)) }
{
    let Some(items) = array_of(alloc, line)? else {
        return Ok(None);
    };
    Ok(Some(Form::Items { name, array, items }))
}

#[tactic(auto, unfolding(crate::specs::Form::prebuilt_at))]
fn prebuilt_at(alloc: Global, line: &[u8]) -> Result<Option<Form>, AllocError>
    ensures { IfOk result (λ o. o ≡ prebuilt_at (words line.now)) }
{
    let Some((name, rest)) = name_at(line) else {
        return Ok(None);
    };
    let Some((of, rest)) = name_at(rest) else {
        return Ok(None);
    };
    match key_at(b"[", rest) {
        Some(rest) => items_at(alloc, name, of, rest),
        None => object_at(alloc, name, of, rest),
    }
}

/// What the words of a line say, if they have a form.
#[tactic(auto, unfolding(crate::specs::Form::form_at))]
fn form_at(alloc: Global, line: &[u8]) -> Result<Option<Form>, AllocError>
    ensures { IfOk result (λ o. o ≡ form_at (words line.now)) }
{
    let Some((key, rest)) = next_word(line) else {
        return Ok(None);
    };
    if key == b"size".as_slice() {
        return Ok(size_at(rest));
    }
    if key == b"field".as_slice() {
        return Ok(field_at(rest));
    }
    if key == b"array".as_slice() {
        return Ok(array_at(rest));
    }
    if key == b"calldescr".as_slice() {
        return call_at(alloc, rest);
    }
    if key == b"function".as_slice() {
        return Ok(function_at(rest));
    }
    if key == b"prebuilt".as_slice() {
        return prebuilt_at(alloc, rest);
    }
    Ok(None)
}

/// What a line says: nothing, or its form; `None` where it has no form.
#[tactic(auto, unfolding(text_lines::specs::Reading::said))]
pub fn said(alloc: Global, line: &[u8]) -> Result<Option<Option<Form>>, AllocError>
    ensures { IfOk result (λ o. o ≡ said form_at line.now) }
{
    if !is_plain(line) {
        return Ok(None);
    }
    if is_skipped(line) {
        return Ok(Some(None));
    }
    match form_at(alloc, line)? {
        None => Ok(None),
        Some(form) => Ok(Some(Some(form))),
    }
}
