// What a call passes, and what the host sees of it.

ghost use Rattle.std.specs.Prelude.{◌≡◌, ◌≤◌, ◌<◌, ◌++◌, ◌+◌, ◌*◌, length as count_of, IfSome, None, [], take};
ghost use Rattle.std.specs.Option.{option_map, option_to_list};
ghost use Rattle.std.specs.List.{Contains};
ghost use Rattle.std.specs.Vec.{vec_capacity, vec_len};
ghost use Rattle.trace_ops.specs.InRange.{IsTableInRange};
ghost use Rattle.asm_select.specs.Answering.{reference_words};
ghost use Rattle.session_host.specs.Answering.{row_of as row_meant};
ghost use Rattle.run_session.specs.Answers.{six_words, known_as, stray_by, values_by, reference_in, fields_seen, seen_if, all_seen};

use crate::reading::{field_at, is_known, value};
use resume_rebuild::Rebuilt;
use target_base::{ArenaWords, Reg};
use trace_meaning::Value;
use trace_ops::{CallRow, Kind, Table, Word};
use x64_machine::Machine;

/// A call with the words that it passes.
#[derive(Clone, Copy)]
pub(crate) struct Passed<'a> {
    pub(crate) function: u32,
    pub(crate) row: &'a CallRow,
    pub(crate) words: [Word; 6],
}

/// The words of a function's arguments.
pub(crate) fn arg_words(machine: &Machine) -> [Word; 6]
    ensures { result ≡ six_words machine.now }
{
    [
        machine.reg(Reg(7)),
        machine.reg(Reg(6)),
        machine.reg(Reg(2)),
        machine.reg(Reg(1)),
        machine.reg(Reg(8)),
        machine.reg(Reg(9)),
    ]
}

/// The row of a call by its number.
pub(crate) fn row_of(table: &Table, number: Word) -> Option<&CallRow>
    requires { IsTableInRange table.now }
    ensures value { option_map (λ row. row.now) result ≡ row_meant table.now number }
    ensures few { IfSome result (λ row. count_of row.now.args ≤ 6) }
    ensures short { IfSome result (λ row. count_of row.now.reads ≤ 16) }
    ensures there { IfSome result (λ row. Contains table.now.calls row.now) }
{
    if number < 0 {
        return None;
    }
    table.calls.items().get(number as usize)
}

// Whether a word is one of a kind: an integer, null or the address of an object.
fn is_known_as(rebuilt: &Rebuilt, kind: Kind, word: Word) -> bool
    ensures { result ≡ known_as rebuilt.now.found kind word }
{
    match kind {
        Kind::Int => true,
        Kind::Ref => is_known(rebuilt, word),
    }
}

/// The first word that is to be a reference and is none.
pub(crate) fn stray_word(rebuilt: &Rebuilt, kinds: &[Kind], words: &[Word; 6]) -> Option<Word>
    requires { count_of kinds.now ≤ 6 }
    ensures { result ≡ stray_by rebuilt.now.found kinds.now words.now }
{
    for k in 0..kinds.len() {
        if !is_known_as(rebuilt, kinds[k], words[k]) {
            return Some(words[k]);
        }
    }
    None
}

// Puts a word behind so many others, where it is to be a reference, and answers how many there are.
fn keep_reference(found: &mut [Word; 6], count: usize, kind: Kind, word: Word) -> usize
    requires { count < 6 }
    ensures words { take result found.new ≡ take count found.old ++ reference_in kind word }
    ensures more { result ≤ count + 1 }
{
    match kind {
        Kind::Int => count,
        Kind::Ref => {
            found[count] = word;
            count + 1
        }
    }
}

/// The references among the words, in order, and how many they are.
pub(crate) fn references(kinds: &[Kind], words: &[Word; 6]) -> ([Word; 6], usize)
    requires { count_of kinds.now ≤ 6 }
    ensures count { result.1 ≤ 6 }
    ensures words { take result.1 result.0 ≡ reference_words kinds.now words.now }
{
    let mut found = [0; 6];
    let mut count = 0usize;
    for k in 0..kinds.len() {
        count = keep_reference(&mut found, count, kinds[k], words[k]);
    }
    (found, count)
}

// Puts a value, if there is one.
fn push_some(value: Option<Value>, seen: &mut Vec<Value>)
    requires { vec_len seen.old < vec_capacity seen.old }
    ensures items { seen.new.items ≡ seen.old.items ++ option_to_list value }
    ensures room { vec_capacity seen.new ≡ vec_capacity seen.old }
    ensures few { vec_len seen.new ≤ vec_len seen.old + 1 }
{
    match value {
        None => {}
        Some(value) => seen.push_reserved(value),
    }
}

// Writes the fields that are seen of the object at an address.
fn fill_fields(
    table: &Table,
    arena: &ArenaWords,
    rebuilt: &Rebuilt,
    reads: &[u32],
    word: Word,
    seen: &mut Vec<Value>,
)
    requires range { IsTableInRange table.now }
    requires room { vec_len seen.old + count_of reads.now ≤ vec_capacity seen.old }
    ensures items { seen.new.items ≡ seen.old.items ++ fields_seen table.now arena.now rebuilt.now.found reads.now word }
    ensures room { vec_capacity seen.new ≡ vec_capacity seen.old }
    ensures few { vec_len seen.new ≤ vec_len seen.old + count_of reads.now }
{
    for field in reads {
        push_some(field_at(table, arena, rebuilt, word, *field), seen);
    }
}

// The same, where the word is a reference.
fn fill_seen(
    table: &Table,
    arena: &ArenaWords,
    rebuilt: &Rebuilt,
    reads: &[u32],
    kind: Kind,
    word: Word,
    seen: &mut Vec<Value>,
)
    requires range { IsTableInRange table.now }
    requires room { vec_len seen.old + count_of reads.now ≤ vec_capacity seen.old }
    ensures items { seen.new.items ≡ seen.old.items ++ seen_if kind (fields_seen table.now arena.now rebuilt.now.found reads.now word) }
    ensures room { vec_capacity seen.new ≡ vec_capacity seen.old }
    ensures few { vec_len seen.new ≤ vec_len seen.old + count_of reads.now }
{
    match kind {
        Kind::Int => {}
        Kind::Ref => fill_fields(table, arena, rebuilt, reads, word, seen),
    }
}

/// Writes what is passed.
pub(crate) fn fill_args(rebuilt: &Rebuilt, kinds: &[Kind], words: &[Word; 6], args: &mut Vec<Value>)
    requires few { count_of kinds.now ≤ 6 }
    requires empty { args.old.items ≡ [] }
    requires room { count_of kinds.now ≤ vec_capacity args.old }
    ensures { args.new.items ≡ values_by rebuilt.now.found kinds.now words.now }
{
    for k in 0..kinds.len() {
        args.push_reserved(value(rebuilt, kinds[k], words[k]));
    }
}

/// Writes what the host sees of what is passed.
pub(crate) fn fill_all_seen(
    table: &Table,
    arena: &ArenaWords,
    rebuilt: &Rebuilt,
    row: &CallRow,
    words: &[Word; 6],
    seen: &mut Vec<Value>,
)
    requires range { IsTableInRange table.now }
    requires few { count_of row.now.args ≤ 6 }
    requires short { count_of row.now.reads ≤ 16 }
    requires empty { seen.old.items ≡ [] }
    requires room { count_of row.now.args * count_of row.now.reads ≤ vec_capacity seen.old }
    ensures { seen.new.items ≡ all_seen table.now arena.now rebuilt.now.found row.now.reads row.now.args words.now }
{
    let kinds = row.args.items();
    for k in 0..kinds.len() {
        fill_seen(
            table,
            arena,
            rebuilt,
            row.reads.items(),
            kinds[k],
            words[k],
            seen,
        );
    }
}
