//! The form of a line, read from its words.

ghost use Rattle.std.specs.Prelude.{◌≡◌, ◌≤◌, IfOk, IfSome};
ghost use Rattle.text_lines.specs.Words.{words};
ghost use Rattle.text_lines.specs.Reading.{Gives, said};
ghost use Rattle.session_text.specs.Form.{number_at, start_line_at, step_at, run_at, attach_at, form_at};

use crate::lexicon::Lexicon;
use crate::start::start_at;
use std::alloc::{AllocError, Global};
use text_lines::{decimal_of, is_end, is_plain, is_skipped, key_at, name_at, next_word};
use trace_meaning::{Answer, Value};
use trace_ops::{List, Text};

/// A start: the name of the activation, that of the loop, its inputs and answers; `lacks` where one of them names
/// what isn't there.
#[derive(Debug, Drop)]
pub struct Activation {
    pub name: Text,
    pub of: Text,
    pub lacks: bool,
    pub inputs: List<Value>,
    pub answers: List<Answer>,
}

/// What a line says. Names of activations, loops and bridges are not looked up yet.
#[derive(Debug, Drop)]
pub enum Form {
    Start(Activation),
    Step { name: Text, count: u32 },
    Run { name: Text, n: u32 },
    Attach { name: Text },
}

// The number that ends the line.
#[tactic(auto, unfolding(crate::specs::Form::number_at))]
fn number_at(limit: u32, line: &[u8]) -> Option<u32>
    ensures { result ≡ number_at limit (words line.now) }
{
    let (word, rest) = next_word(line)?;
    let n = decimal_of(limit as u64, word)?;
    if is_end(rest) { Some(n as u32) } else { None }
}

#[tactic(auto, unfolding(crate::specs::Form::start_line_at))]
fn start_line_at(alloc: Global, names: &Lexicon, line: &[u8]) -> Result<Option<Form>, AllocError>
    ensures { IfOk result (λ o. Gives (λ x. x) o (start_line_at names.now (words line.now))) }
{
    let Some((name, rest)) = name_at(line) else {
        return Ok(None);
    };
    let Some((of, rest)) = name_at(rest) else {
        return Ok(None);
    };
    let Some(rest) = key_at(b"(", rest) else {
        return Ok(None);
    };
    let Some(start) = start_at(alloc, names, rest)? else {
        return Ok(None);
    };
    Ok(Some(Form::Start(Activation {
        name,
        of,
        lacks: start.lacks,
        inputs: start.inputs,
        answers: start.answers,
    })))
}

#[tactic(auto, unfolding(crate::specs::Form::step_at))]
fn step_at(line: &[u8]) -> Option<Form>
    ensures { Gives (λ x. x) result (step_at (words line.now)) }
{
    let Some((name, rest)) = name_at(line) else {
        return None;
    };
    let count = number_at(10000000, rest)?;
    Some(Form::Step { name, count })
}

#[tactic(auto, unfolding(crate::specs::Form::run_at))]
fn run_at(line: &[u8]) -> Option<Form>
    ensures { Gives (λ x. x) result (run_at (words line.now)) }
{
    let Some((name, rest)) = name_at(line) else {
        return None;
    };
    let n = number_at(1000000, rest)?;
    Some(Form::Run { name, n })
}

#[tactic(auto, unfolding(crate::specs::Form::attach_at))]
fn attach_at(line: &[u8]) -> Option<Form>
    ensures { Gives (λ x. x) result (attach_at (words line.now)) }
{
    let Some((name, rest)) = name_at(line) else {
        return None;
    };
    if next_word(rest).is_some() {
        return None;
    }
    Some(Form::Attach { name })
}

#[tactic(auto, unfolding(crate::specs::Form::form_at))]
fn form_at(alloc: Global, names: &Lexicon, line: &[u8]) -> Result<Option<Form>, AllocError>
    ensures { IfOk result (λ o. Gives (λ x. x) o (form_at names.now (words line.now))) }
{
    let Some((key, rest)) = next_word(line) else {
        return Ok(None);
    };
    if key == b"start".as_slice() {
        return start_line_at(alloc, names, rest);
    }
    if key == b"step".as_slice() {
        return Ok(step_at(rest));
    }
    if key == b"run".as_slice() {
        return Ok(run_at(rest));
    }
    if key == b"attach".as_slice() {
        return Ok(attach_at(rest));
    }
    Ok(None)
}

/// What a line says: nothing, or its form; `None` where it has no form.
#[tactic(auto, unfolding(text_lines::specs::Reading::said))]
pub fn said(alloc: Global, names: &Lexicon, line: &[u8]) -> Result<Option<Option<Form>>, AllocError>
    ensures { IfOk result (λ o. o ≡ said (form_at names.now) line.now) }
{
    if !is_plain(line) {
        return Ok(None);
    }
    if is_skipped(line) {
        return Ok(Some(None));
    }
    match form_at(alloc, names, line)? {
        None => Ok(None),
        Some(form) => Ok(Some(Some(form))),
    }
}
