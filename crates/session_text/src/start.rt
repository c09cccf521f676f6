//! The inputs and answers of a start, read word by word.

ghost use Rattle.std.specs.Prelude.{◌≡◌, IfOk, Some};
ghost use Rattle.text_lines.specs.Words.{words};
ghost use Rattle.text_lines.specs.Reading.{Gives};
ghost use Rattle.session_text.specs.Start.{Moved, go, begin, expect, input_found, input_step, first_step, behind_step, gives, gives_found, given_step, end_step, pushed, answer_step, first_answer_step, size_found, new_step, targeted, store_step, store_found, stored_step, store_end_step, field_or, give_or, step, is_done, start_at};

use crate::lexicon::Lexicon;
use crate::words::{give_if, given_of, object_of, target_of, value_of};
use std::alloc::{AllocError, Global};
use text_lines::{is_name, next_word};
use trace_meaning::{Answer, AnswerStore, Give, Value};
use trace_ops::{List, Text};

/// What may come next: among the inputs, behind them, among the answers, in the braces of one.
#[derive(Clone, Copy, Debug)]
pub enum Place {
    First,
    Input,
    Behind,
    Closed,
    Answers,
    FirstAnswer,
    Answer,
    New,
    Given,
    Store,
    Equals,
    Stored,
    StoreEnd,
    Braced,
    Ended,
}

/// A start as far as it is read; `lacks` where it names what isn't there. `gives`, `stores`, `arg` and `field`
/// are those of the answer and the store that are open.
#[derive(Debug, Drop)]
pub struct Start {
    pub place: Place,
    pub lacks: bool,
    pub inputs: List<Value>,
    pub answers: List<Answer>,
    pub gives: Give,
    pub stores: List<AnswerStore>,
    pub arg: u32,
    pub field: u32,
}

fn begin(alloc: Global) -> Start
    ensures { result ≡ begin }
{
    Start {
        place: Place::First,
        lacks: false,
        inputs: List::of(Vec::new(alloc)),
        answers: List::of(Vec::new(alloc)),
        gives: Give::Nothing,
        stores: List::of(Vec::new(alloc)),
        arg: 0,
        field: 0,
    }
}

fn go(start: &mut Start, place: Place) -> bool
    ensures { Moved result start.new (Some (go start.old place)) }
{
    start.place = place;
    true
}

fn expect(start: &mut Start, mark: &[u8], place: Place, word: &[u8]) -> bool
    ensures { Moved result start.new (expect start.old mark.now place word.now) }
{
    if word == mark {
        return go(start, place);
    }
    false
}

fn note_input(start: &mut Start, found: Option<Value>) -> Result<bool, AllocError>
    ensures { IfOk result (λ b. Moved b start.new (Some (input_found start.old found))) }
{
    match found {
        None => {
            start.lacks = true;
            start.place = Place::Behind;
            Ok(true)
        }
        Some(value) => {
            start.inputs.push(value)?;
            start.place = Place::Behind;
            Ok(true)
        }
    }
}

fn input_step(names: &Lexicon, start: &mut Start, word: &[u8]) -> Result<bool, AllocError>
    ensures { IfOk result (λ b. Moved b start.new (input_step names.now start.old word.now)) }
{
    match value_of(names, word) {
        None => Ok(false),
        Some(found) => note_input(start, found),
    }
}

fn first_step(names: &Lexicon, start: &mut Start, word: &[u8]) -> Result<bool, AllocError>
    ensures { IfOk result (λ b. Moved b start.new (first_step names.now start.old word.now)) }
{
    if word == b")".as_slice() {
        return Ok(go(start, Place::Closed));
    }
    input_step(names, start, word)
}

fn behind_step(start: &mut Start, word: &[u8]) -> bool
    ensures { Moved result start.new (behind_step start.old word.now) }
{
    if word == b",".as_slice() {
        return go(start, Place::Input);
    }
    expect(start, b")", Place::Closed, word)
}

fn give_or(gives: Give, found: Option<Give>) -> Give
    ensures { result ≡ give_or gives found }
{
    match found {
        None => gives,
        Some(found) => found,
    }
}

fn note_gives(start: &mut Start, found: Option<Give>)
    ensures { start.new ≡ gives_found start.old found }
{
    start.gives = give_or(start.gives, found);
    start.lacks = start.lacks || found.is_none();
    start.place = Place::Given;
}

fn gives(start: &mut Start, found: Option<Option<Give>>) -> bool
    ensures { Moved result start.new (gives start.old found) }
{
    match found {
        None => false,
        Some(found) => {
            note_gives(start, found);
            true
        }
    }
}

fn answer_step(names: &Lexicon, start: &mut Start, word: &[u8]) -> bool
    ensures { Moved result start.new (answer_step names.now start.old word.now) }
{
    if word == b"none".as_slice() {
        note_gives(start, Some(Give::Nothing));
        return true;
    }
    if word == b"new".as_slice() {
        return go(start, Place::New);
    }
    gives(start, given_of(names, word))
}

fn first_answer_step(names: &Lexicon, start: &mut Start, word: &[u8]) -> bool
    ensures { Moved result start.new (first_answer_step names.now start.old word.now) }
{
    if word == b")".as_slice() {
        return go(start, Place::Ended);
    }
    answer_step(names, start, word)
}

fn close_answer(alloc: Global, start: &mut Start, place: Place) -> Result<bool, AllocError>
    ensures { IfOk result (λ b. Moved b start.new (Some (pushed start.old place))) }
{
    let stores = std::mem::replace(&mut start.stores, List::of(Vec::new(alloc)));
    let gives = start.gives;
    start.answers.push(Answer { gives, stores })?;
    start.place = place;
    Ok(true)
}

fn end_step(alloc: Global, start: &mut Start, word: &[u8]) -> Result<bool, AllocError>
    ensures { IfOk result (λ b. Moved b start.new (end_step start.old word.now)) }
{
    if word == b";".as_slice() {
        return close_answer(alloc, start, Place::Answer);
    }
    if word == b")".as_slice() {
        return close_answer(alloc, start, Place::Ended);
    }
    Ok(false)
}

fn given_step(alloc: Global, start: &mut Start, word: &[u8]) -> Result<bool, AllocError>
    ensures { IfOk result (λ b. Moved b start.new (given_step start.old word.now)) }
{
    if word == b"{".as_slice() {
        return Ok(go(start, Place::Store));
    }
    end_step(alloc, start, word)
}

fn new_of(row: Option<u32>) -> Option<Give>
    ensures { result ≡ size_found row }
{
    match row {
        None => None,
        Some(k) => Some(Give::New(k)),
    }
}

// Behind `new`: a size, or else `new` was the name of a prebuilt object.
fn new_step(
    alloc: Global,
    names: &Lexicon,
    start: &mut Start,
    word: &[u8],
) -> Result<bool, AllocError>
    ensures { IfOk result (λ b. Moved b start.new (new_step names.now start.old word.now)) }
{
    if is_name(word) {
        note_gives(start, new_of(names.size_named(&Text::new(word))));
        return Ok(true);
    }
    note_gives(
        start,
        give_if(object_of(names.object_named(&Text::new(b"new")))),
    );
    given_step(alloc, start, word)
}

fn field_or(field: u32, found: Option<u32>) -> u32
    ensures { result ≡ field_or field found }
{
    match found {
        None => field,
        Some(found) => found,
    }
}

fn note_target(start: &mut Start, target: (u32, Option<u32>))
    ensures { start.new ≡ targeted start.old target }
{
    start.arg = target.0;
    start.field = field_or(start.field, target.1);
    start.lacks = start.lacks || target.1.is_none();
    start.place = Place::Equals;
}

fn store_step(names: &Lexicon, start: &mut Start, word: &[u8]) -> bool
    ensures { Moved result start.new (store_step names.now start.old word.now) }
{
    match target_of(names, word) {
        None => false,
        Some(target) => {
            note_target(start, target);
            true
        }
    }
}

fn note_store(start: &mut Start, found: Option<Give>) -> Result<bool, AllocError>
    ensures { IfOk result (λ b. Moved b start.new (Some (store_found start.old found))) }
{
    match found {
        None => {
            start.lacks = true;
            start.place = Place::StoreEnd;
            Ok(true)
        }
        Some(value) => {
            let arg = start.arg;
            let field = start.field;
            start.stores.push(AnswerStore { arg, field, value })?;
            start.place = Place::StoreEnd;
            Ok(true)
        }
    }
}

fn stored_step(names: &Lexicon, start: &mut Start, word: &[u8]) -> Result<bool, AllocError>
    ensures { IfOk result (λ b. Moved b start.new (stored_step names.now start.old word.now)) }
{
    match given_of(names, word) {
        None => Ok(false),
        Some(found) => note_store(start, found),
    }
}

fn store_end_step(start: &mut Start, word: &[u8]) -> bool
    ensures { Moved result start.new (store_end_step start.old word.now) }
{
    if word == b",".as_slice() {
        return go(start, Place::Store);
    }
    expect(start, b"}", Place::Braced, word)
}

fn step(alloc: Global, names: &Lexicon, start: &mut Start, word: &[u8]) -> Result<bool, AllocError>
    ensures { IfOk result (λ b. Moved b start.new (step names.now start.old word.now)) }
{
    match start.place {
        Place::First => first_step(names, start, word),
        Place::Input => input_step(names, start, word),
        Place::Behind => Ok(behind_step(start, word)),
        Place::Closed => Ok(expect(start, b"answers", Place::Answers, word)),
        Place::Answers => Ok(expect(start, b"(", Place::FirstAnswer, word)),
        Place::FirstAnswer => Ok(first_answer_step(names, start, word)),
        Place::Answer => Ok(answer_step(names, start, word)),
        Place::New => new_step(alloc, names, start, word),
        Place::Given => given_step(alloc, start, word),
        Place::Store => Ok(store_step(names, start, word)),
        Place::Equals => Ok(expect(start, b"=", Place::Stored, word)),
        Place::Stored => stored_step(names, start, word),
        Place::StoreEnd => Ok(store_end_step(start, word)),
        Place::Braced => end_step(alloc, start, word),
        Place::Ended => Ok(false),
    }
}

fn is_done(place: Place) -> bool
    ensures { result ≡ is_done place }
{
    match place {
        Place::Closed => true,
        Place::Ended => true,
        _ => false,
    }
}

/// The inputs and answers that a line has behind the first bracket.
#[tactic(auto, unfolding(crate::specs::Start::start_at))]
pub fn start_at(alloc: Global, names: &Lexicon, text: &[u8]) -> Result<Option<Start>, AllocError>
    ensures { IfOk result (λ o. Gives (λ x. x) o (start_at names.now (words text.now))) }
{
    let mut start = begin(alloc);
    let mut rest = text;
    while let Some((word, after)) = next_word(rest) {
        if !step(alloc, names, &mut start, word)? {
            return Ok(None);
        }
        rest = after;
    }
    if is_done(start.place) {
        return Ok(Some(start));
    }
    Ok(None)
}
