// What the host answers to a call.

ghost use Rattle.std.specs.Prelude.{◌≡◌, ◌≢◌, ◌≤◌, ◌+◌, ◌*◌, ◌^◌, pos, length as count_of, Some, None, slice_get};
ghost use Rattle.std.specs.List.{Contains};
ghost use Rattle.trace_ops.specs.InRange.{IsTableInRange};
ghost use Rattle.arena_world.specs.Prebuilt.{IsHostOf};
ghost use Rattle.arena_objects.specs.Walk.{shape_of as shape_meant};
ghost use Rattle.guard_exit.specs.Codes.{register};
ghost use Rattle.x64_machine.specs.Words.{unsigned};
ghost use Rattle.x64_machine.specs.State.{reg};
ghost use Rattle.x64_machine.specs.Kept.{IsAtHostCall};
ghost use Rattle.image_runs.specs.Session.{Calls, Answered};
ghost use Rattle.session_host.specs.Answering.{parts_for as parts_meant, made, structure_of, items_of};
ghost use Rattle.run_session.specs.declared.now.Now.TheVariants.{Going, Wrong};
ghost use Rattle.run_session.specs.Outcomes.{CameOut};
ghost use Rattle.arena_objects.specs.Walked.{addresses_found};
ghost use Rattle.arena_world.specs.Fitting.{fits_words};
ghost use Rattle.arena_world.specs.Answering.{fresh_bytes, given_word as word_given};
ghost use Rattle.session_host.specs.Answering.{row_of as row_meant, first_of, passed_to, function_by, IsAnswered};
ghost use Rattle.run_session.specs.Logging.{HasSheets, Serves, ServesAll};
ghost use Rattle.run_session.specs.Answers.{six_words, stray_by, given_by, fitted_when, calls_in, KeptFor};

use crate::active::Active;
use crate::log::{Log, Sheet};
use crate::now::Now;
use crate::passing::{Passed, arg_words, fill_all_seen, fill_args, references, row_of, stray_word};
use crate::reading::{reference, shape_of};
use arena_objects::{Full, allocate, bytes_asked, bytes_left, walk_finds};
use arena_world::{Host, answer, fits};
use resume_rebuild::Rebuilt;
use target_base::{ArenaWords, Reg};
use trace_meaning::{Answer, Give, Value};
use trace_ops::{CallRow, ShapeOf, Table, Word};
use x64_machine::Machine;

// What the registers that calls lose hold afterwards.
const LOST: Word = -1;

fn wrong(word: Word) -> Now
    ensures { result ≡ Wrong (unsigned word) }
{
    Now::Wrong {
        at: word.cast_unsigned(),
    }
}

// How many parts a new object has: one a field of a size, or as many as are asked for.
fn parts_for(table: &Table, shape: ShapeOf, count: u64) -> u64
    ensures { result ≡ parts_meant table.now shape count }
{
    match shape {
        ShapeOf::Array(_) => count,
        ShapeOf::Size(size) => match table.sizes.items().get(size as usize) {
            None => 0,
            Some(row) => row.fields.items().len() as u64,
        },
    }
}

// The word of the address at which the next object is made.
fn fresh_word(arena: &ArenaWords) -> Word
    ensures value { result ≡ pos (0x1000_0000 + arena.now.taken) }
    ensures few { arena.now.taken ≤ 2 ^ 24 }
{
    0x1000_0000 + arena.taken() as Word
}

// Makes an object and goes on with its address, or is full.
fn make(table: &Table, host: &Host, shape: ShapeOf, count: u64, machine: &mut Machine) -> Now
    requires range { IsTableInRange table.now }
    requires host { IsHostOf table.now host.now }
    requires shape { Contains table.now.shapes shape }
    requires stands { IsAtHostCall machine.old }
    ensures came { (c : Calls) → CameOut (made table.now shape count c machine.old) result c machine.new }
    ensures stays { result ≢ Going → machine.new ≡ machine.old }
{
    let parts = parts_for(table, shape, count);
    let asked = bytes_asked(shape, parts);
    let left = bytes_left(machine.arena());
    if left < asked {
        return Now::ArenaFull { asked, left };
    }
    let fresh = fresh_word(machine.arena());
    machine.resume(fresh, LOST);
    let _made = allocate(machine.arena_mut(), shape, host.header_of(shape), parts);
    Now::Going
}

// Entry 1: a structure of the size of a header number.
fn make_structure(table: &Table, host: &Host, machine: &mut Machine) -> Now
    requires range { IsTableInRange table.now }
    requires host { IsHostOf table.now host.now }
    requires stands { IsAtHostCall machine.old }
    ensures came { (c : Calls) → CameOut (structure_of table.now c machine.old (shape_meant table.now (Some (reg machine.old (register 7))))) result c machine.new }
    ensures stays { result ≢ Going → machine.new ≡ machine.old }
{
    let header = machine.reg(Reg(7));
    match shape_of(table, header) {
        Some(ShapeOf::Size(size)) => make(table, host, ShapeOf::Size(size), 0, machine),
        _ => wrong(header),
    }
}

// Entry 2: an array, whose length is read unsigned.
fn make_items(table: &Table, host: &Host, machine: &mut Machine) -> Now
    requires range { IsTableInRange table.now }
    requires host { IsHostOf table.now host.now }
    requires stands { IsAtHostCall machine.old }
    ensures came { (c : Calls) → CameOut (items_of table.now c machine.old (shape_meant table.now (Some (reg machine.old (register 7))))) result c machine.new }
    ensures stays { result ≢ Going → machine.new ≡ machine.old }
{
    let header = machine.reg(Reg(7));
    let length = machine.reg(Reg(6)).cast_unsigned();
    match shape_of(table, header) {
        Some(ShapeOf::Array(array)) => make(table, host, ShapeOf::Array(array), length, machine),
        _ => wrong(header),
    }
}

// How an answer comes out.
enum Outcome {
    Misfit,
    Full(Full),
    Done(Give),
}

// The word of what is given.
fn given_word(host: &Host, references: &[Word], fresh: Word, gives: Give) -> Word
    ensures { result ≡ word_given host.now.prebuilts references.now fresh gives }
{
    match gives {
        Give::Nothing => 0,
        Give::Int(word) => word,
        Give::Null => 0,
        Give::Arg(k) => match references.get(k as usize) {
            None => 0,
            Some(word) => *word,
        },
        Give::Prebuilt(k) => host.prebuilt(k),
        Give::New(_) => fresh,
    }
}

// The bytes of the new object, if one is given.
fn fresh_asked(table: &Table, gives: Give) -> u64
    requires { IsTableInRange table.now }
    ensures value { result ≡ fresh_bytes table.now gives }
    ensures few { result ≤ 2 ^ 24 }
{
    match gives {
        Give::New(size) => {
            let shape = ShapeOf::Size(size);
            bytes_asked(shape, parts_for(table, shape, 0))
        }
        _ => 0,
    }
}

// Does the first answer that is left, where it fits and there is room. The machine goes on before the arena is written, since
// the address to return to is read then.
fn answer_with(
    table: &Table,
    host: &Host,
    row: &CallRow,
    references: &[Word],
    next: &Answer,
    machine: &mut Machine,
) -> Outcome
    requires range { IsTableInRange table.now }
    requires host { IsHostOf table.now host.now }
    requires stands { IsAtHostCall machine.old }
    ensures { fitted_when (fits_words table.now row.now references.now machine.old.arena next.now) table.now references.now next.now machine.old machine.new result }
{
    if !fits(table, host, row, references, next, machine.arena()) {
        return Outcome::Misfit;
    }
    let asked = fresh_asked(table, next.gives);
    let left = bytes_left(machine.arena());
    if left < asked {
        return Outcome::Full(Full { asked, left });
    }
    let fresh = fresh_word(machine.arena());
    let word = given_word(host, references, fresh, next.gives);
    machine.resume(word, LOST);
    let _done = answer(table, host, row, references, next, machine.arena_mut());
    Outcome::Done(next.gives)
}

// The value that is given. A new object is found by another walk.
fn given(
    rebuilt: &mut Rebuilt,
    arena: &ArenaWords,
    references: &[Word],
    fresh: Word,
    gives: Give,
) -> Option<Value>
    ensures value { result ≡ given_by rebuilt.old.table arena.now rebuilt.old.found references.now fresh gives }
    ensures table { rebuilt.new.table ≡ rebuilt.old.table }
    ensures rebuilt { rebuilt.new ≡ record rebuilt.old { found = rebuilt.new.found } }
{
    match gives {
        Give::Nothing => None,
        Give::Int(word) => Some(Value::Int(word)),
        Give::Null => Some(Value::Null),
        Give::Arg(k) => match references.get(k as usize) {
            None => None,
            Some(word) => Some(reference(rebuilt, *word)),
        },
        Give::Prebuilt(k) => Some(Value::Obj(k)),
        Give::New(_) => {
            walk_finds();
            rebuilt.walk(arena);
            Some(reference(rebuilt, fresh))
        }
    }
}

// A call whose references are all there takes the next answer.
fn take_answer(
    table: &Table,
    host: &Host,
    passed: &Passed,
    machine: &mut Machine,
    log: &mut Log,
    rebuilt: &mut Rebuilt,
) -> Now
    requires range { IsTableInRange table.now }
    requires host { IsHostOf table.now host.now }
    requires stands { IsAtHostCall machine.old }
    requires few { count_of passed.now.row.now.args ≤ 6 }
    requires short { count_of passed.now.row.now.reads ≤ 16 }
    requires words { passed.now.words ≡ six_words machine.old }
    requires known { rebuilt.old.table ≡ table.now }
    requires walked { rebuilt.old.found ≡ addresses_found table.now machine.old.arena }
    requires strays { stray_by rebuilt.old.found passed.now.row.now.args passed.now.words ≡ None }
    requires sheets { HasSheets log.old }
    requires serves { Serves log.old passed.now.row.now }
    ensures came { CameOut (first_of table.now (passed_to passed.now.function passed.now.row.now machine.old) (calls_in log.old) machine.old (slice_get (calls_in log.old).answers 0)) result (calls_in log.new) machine.new }
    ensures log { KeptFor result log.old log.new }
    ensures table { rebuilt.new.table ≡ rebuilt.old.table }
    ensures rebuilt { rebuilt.new ≡ record rebuilt.old { found = rebuilt.new.found } }
    ensures stays { result ≢ Going → machine.new ≡ machine.old }
{
    walk_finds();
    let Sheet { mut args, mut seen } = log.sheet();
    let kinds = passed.row.args.items();
    fill_args(rebuilt, kinds, &passed.words, &mut args);
    fill_all_seen(
        table,
        machine.arena(),
        rebuilt,
        passed.row,
        &passed.words,
        &mut seen,
    );
    let sheet = Sheet { args, seen };
    let (words, count) = references(kinds, &passed.words);
    let fresh = fresh_word(machine.arena());
    let Some(next) = log.next() else {
        log.put(passed.function, sheet, None);
        return Now::Waits;
    };
    match answer_with(table, host, passed.row, &words[..count], next, machine) {
        Outcome::Misfit => {
            let call = log.count();
            log.put(passed.function, sheet, None);
            Now::Misfit { call }
        }
        Outcome::Full(full) => Now::ArenaFull {
            asked: full.asked,
            left: full.left,
        },
        Outcome::Done(gives) => {
            let value = given(rebuilt, machine.arena(), &words[..count], fresh, gives);
            log.put(passed.function, sheet, value);
            log.use_answer();
            Now::Going
        }
    }
}

// A call of a function.
fn call_function(
    table: &Table,
    host: &Host,
    function: u32,
    machine: &mut Machine,
    log: &mut Log,
    rebuilt: &mut Rebuilt,
) -> Now
    requires range { IsTableInRange table.now }
    requires host { IsHostOf table.now host.now }
    requires stands { IsAtHostCall machine.old }
    requires known { rebuilt.old.table ≡ table.now }
    requires sheets { HasSheets log.old }
    requires serves { ServesAll table.now log.old }
    ensures came { CameOut (function_by table.now function (calls_in log.old) machine.old (row_meant table.now (reg machine.old (register 10)))) result (calls_in log.new) machine.new }
    ensures log { KeptFor result log.old log.new }
    ensures table { rebuilt.new.table ≡ rebuilt.old.table }
    ensures rebuilt { rebuilt.new ≡ record rebuilt.old { found = rebuilt.new.found } }
    ensures stays { result ≢ Going → machine.new ≡ machine.old }
{
    walk_finds();
    let number = machine.reg(Reg(10));
    let Some(row) = row_of(table, number) else {
        return wrong(number);
    };
    let words = arg_words(machine);
    rebuilt.walk(machine.arena());
    if let Some(word) = stray_word(rebuilt, row.args.items(), &words) {
        return wrong(word);
    }
    let passed = Passed {
        function,
        row,
        words,
    };
    take_answer(table, host, &passed, machine, log, rebuilt)
}

/// Answers a call of an entry, at which the machine stands: it goes on, or has ended. It takes no memory.
pub(crate) fn host_call(table: &Table, host: &Host, entry: u32, active: &mut Active) -> Now
    requires range { IsTableInRange table.now }
    requires host { IsHostOf table.now host.now }
    requires stands { IsAtHostCall active.old.machine }
    requires known { active.old.rebuilt.table ≡ table.now }
    requires sheets { HasSheets active.old.log }
    requires serves { ServesAll table.now active.old.log }
    ensures answered { (o : Answered) × IsAnswered table.now entry (calls_in active.old.log) active.old.machine o × CameOut o result (calls_in active.new.log) active.new.machine }
    ensures log { KeptFor result active.old.log active.new.log }
    ensures stays { result ≢ Going → active.new.machine ≡ active.old.machine }
    ensures rebuilt { active.new.rebuilt ≡ record active.old.rebuilt { found = active.new.rebuilt.found } }
    ensures table { active.new.rebuilt.table ≡ active.old.rebuilt.table }
    ensures rest { active.new ≡ record active.old { machine = active.new.machine; log = active.new.log; rebuilt = active.new.rebuilt } }
{
    let Active {
        machine,
        log,
        rebuilt,
        ..
    } = active;
    log.holds_words();
    if entry == 1 {
        return make_structure(table, host, machine);
    }
    if entry == 2 {
        return make_items(table, host, machine);
    }
    if entry >= 16 && ((entry - 16) as usize) < table.functions.items().len() {
        return call_function(table, host, entry - 16, machine, log, rebuilt);
    }
    Now::Wrong {
        at: 0x3000_0000 + 16 * u64::from(entry),
    }
}
