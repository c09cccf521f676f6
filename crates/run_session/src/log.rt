// The calls of an activation, and the answers that are left.

ghost use Rattle.std.specs.Prelude.{◌≡◌, ◌+◌, ◌*◌, ◌-◌, ◌≤◌, ◌<◌, [], ◌∷◌, ◌++◌, length, slice_get, All, IfOk, IfSome, IfNone, Some, None};
ghost use Rattle.std.specs.List.{AllByRecursion};
ghost use Rattle.std.specs.Vec.{vec_len};
ghost use Rattle.trace_ops.specs.InRange.{IsTableInRange};
ghost use Rattle.trace_ops.specs.declared.table.CallRow.{CallRow as OneRow};
ghost use Rattle.trace_meaning.specs.declared.call.AnswerStore.{AnswerStore as OneStore};
ghost use Rattle.trace_meaning.specs.Sound.{GivesWord, AnswersWords};
ghost use Rattle.run_session.specs.Logging.{IsBlank, ServesAll};

use std::alloc::{AllocError, Global};
use std::marker::Model;
use trace_meaning::{Answer, AnswerStore, CallEvent, Give, Value};
use trace_ops::{CallRow, List, Table};

/// Empty lists for the arguments of a call and for what is seen of it.
#[derive(Drop)]
pub(crate) struct Sheet {
    pub(crate) args: Vec<Value>,
    pub(crate) seen: Vec<Value>,
}

/// The answers that were given, how many of them are used, the calls so far, and a sheet for each call to come.
#[derive(Drop)]
pub(crate) struct Log {
    answers: Vec<Answer>,
    used: usize,
    calls: Vec<CallEvent>,
    sheets: Vec<Sheet>,
    room: usize,
    args: usize,
    seen: usize,
}

impl Model for Log {
    ghost use Rattle.std.specs.Prelude.{◌+◌, ◌≤◌, All};
    ghost use Rattle.std.specs.Vec.{vec_capacity, vec_len};
    ghost use Rattle.trace_meaning.specs.Sound.{AnswersWords};
    ghost use Rattle.run_session.specs.Logging.{Logging, IsBlank};

    ghost Value = { Logging };

    ghost view = { λ l. record { answers = l.answers.items; used = l.used; calls = l.calls.items; sheets = vec_len l.sheets; room = l.room; args = l.args; seen = l.seen } };

    ghost invariant = { λ l. record { calls : vec_len l.calls + l.room ≤ vec_capacity l.calls; few : vec_len l.calls + l.room ≤ 4097; sheets : vec_len l.sheets ≤ l.room; blank : All (IsBlank l.args l.seen) l.sheets.items; words : All AnswersWords l.answers.items } };
}

// An integer is a word by its type.
fn give_is_word(give: Give)
    ensures { GivesWord give }
{
    match give {
        Give::Int(_word) => {}
        Give::Nothing | Give::Null | Give::Arg(_) | Give::Prebuilt(_) | Give::New(_) => {}
    }
}

fn stores_are_words(stores: &[AnswerStore])
    ensures { AllByRecursion (λ (s : OneStore). GivesWord s.value) stores.now }
{
    for store in stores {
        give_is_word(store.value);
    }
}

fn answer_has_words(answer: &Answer)
    ensures { AnswersWords answer.now }
{
    give_is_word(answer.gives);
    stores_are_words(answer.stores.items());
}

fn answers_have_words(answers: &[Answer])
    ensures { AllByRecursion AnswersWords answers.now }
{
    for answer in answers {
        answer_has_words(answer);
    }
}

fn larger(a: usize, b: usize) -> usize
    ensures first { a ≤ result }
    ensures second { b ≤ result }
{
    if a < b { b } else { a }
}

// The most arguments that a call of the rows passes.
fn most_args(rows: &[CallRow]) -> usize
    ensures { All (λ (row : OneRow). length row.args ≤ result) rows.now }
{
    let mut most = 0usize;
    for row in rows {
        most = larger(most, row.args.items().len());
    }
    most
}

// How many fields a call shows at most.
fn seen_by(row: &CallRow) -> usize
    requires args { length row.now.args ≤ 6 }
    requires reads { length row.now.reads ≤ 16 }
    ensures { result ≡ length row.now.args * length row.now.reads }
{
    row.args.items().len() * row.reads.items().len()
}

// The most fields that a call of the rows shows.
fn most_seen(rows: &[CallRow]) -> usize
    requires args { All (λ (row : OneRow). length row.args ≤ 6) rows.now }
    requires reads { All (λ (row : OneRow). length row.reads ≤ 16) rows.now }
    ensures { All (λ (row : OneRow). length row.args * length row.reads ≤ result) rows.now }
{
    let mut most = 0usize;
    for row in rows {
        most = larger(most, seen_by(row));
    }
    most
}

fn blank_sheet(alloc: Global, args: usize, seen: usize) -> Result<Sheet, AllocError>
    ensures { IfOk result (λ s. IsBlank args seen s) }
{
    let args = Vec::with_capacity(alloc, args)?;
    let seen = Vec::with_capacity(alloc, seen)?;
    Ok(Sheet { args, seen })
}

fn blank_sheets(
    alloc: Global,
    count: usize,
    args: usize,
    seen: usize,
) -> Result<Vec<Sheet>, AllocError>
    ensures count { IfOk result (λ sheets. vec_len sheets ≡ count) }
    ensures each { IfOk result (λ sheets. All (IsBlank args seen) sheets.items) }
{
    let mut sheets = Vec::new(alloc);
    for _ in 0..count {
        sheets.push(blank_sheet(alloc, args, seen)?)?;
    }
    Ok(sheets)
}

impl Log {
    /// No calls yet, with room for all that can come: one a given answer, and one more.
    pub(crate) fn new(alloc: Global, table: &Table, answers: Vec<Answer>) -> Result<Log, AllocError>
        requires range { IsTableInRange table.now }
        requires few { length answers.items ≤ 4096 }
        ensures answers { IfOk result (λ l. l.answers ≡ answers.items) }
        ensures used { IfOk result (λ l. l.used ≡ 0) }
        ensures calls { IfOk result (λ l. l.calls ≡ []) }
        ensures sheets { IfOk result (λ l. l.sheets ≡ length answers.items + 1) }
        ensures serves { IfOk result (λ l. ServesAll table.now l) }
    {
        answers_have_words(&answers);
        let rows = table.calls.items();
        let args = most_args(rows);
        let seen = most_seen(rows);
        let room = answers.len() + 1;
        let calls = Vec::with_capacity(alloc, room)?;
        let sheets = blank_sheets(alloc, room, args, seen)?;
        Ok(Log {
            answers,
            used: 0,
            calls,
            sheets,
            room,
            args,
            seen,
        })
    }

    /// The answers that were given.
    pub(crate) fn answers(&self) -> &[Answer]
        ensures { result.now ≡ self.now.answers }
    {
        &self.answers
    }

    /// The integers of the answers are words.
    pub(crate) fn holds_words(&self)
        ensures { All AnswersWords self.now.answers }
    {
        let _answers = &self.answers;
    }

    /// The calls so far.
    pub(crate) fn calls(&self) -> &[CallEvent]
        ensures { result.now ≡ self.now.calls }
    {
        &self.calls
    }

    /// How many calls there are so far.
    pub(crate) fn count(&self) -> u32
        ensures { result ≡ length self.now.calls }
    {
        self.calls.len() as u32
    }

    /// The first answer that is left.
    pub(crate) fn next(&self) -> Option<&Answer>
        ensures some { IfSome result (λ a. slice_get self.now.answers self.now.used ≡ Some a.now) }
        ensures few { IfSome result (λ a. self.now.used < length self.now.answers) }
        ensures none { IfNone result (slice_get self.now.answers self.now.used ≡ None) }
    {
        self.answers.get(self.used)
    }

    /// A sheet for the next call.
    pub(crate) fn sheet(&mut self) -> Sheet
        requires { 0 < self.old.sheets }
        ensures after { self.new ≡ record self.old { sheets = self.old.sheets - 1 } }
        ensures blank { IsBlank self.old.args self.old.seen result }
        ensures room { self.new.sheets < self.new.room }
    {
        let Some(sheet) = self.sheets.pop() else {
            unreachable!()
        };
        sheet
    }

    /// Puts a call on its sheet behind the others.
    pub(crate) fn put(&mut self, function: u32, sheet: Sheet, gives: Option<Value>)
        requires { self.old.sheets < self.old.room }
        ensures { self.new ≡ record self.old { calls = self.old.calls ++ record { function = function; args = sheet.args.items; seen = sheet.seen.items; gives = gives } ∷ []; room = self.old.room - 1 } }
    {
        let Sheet { args, seen } = sheet;
        self.calls.push_reserved(CallEvent {
            function,
            args: List::of(args),
            seen: List::of(seen),
            gives,
        });
        self.room -= 1;
    }

    /// The first answer that is left is used.
    pub(crate) fn use_answer(&mut self)
        requires { self.old.used < length self.old.answers }
        ensures { self.new ≡ record self.old { used = self.old.used + 1 } }
    {
        self.used += 1;
    }
}
