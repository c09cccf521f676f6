// What a return shows.

ghost use Rattle.std.specs.Prelude.{◌≡◌, ◌≢◌, pos, Option as Maybe, Some as Just, IfSome, IfNone, IfOk, IfErr};
ghost use Rattle.std.specs.List.{All, Contains};
ghost use Rattle.trace_ops.specs.InRange.{IsTableInRange};
ghost use Rattle.arena_objects.specs.Walked.{addresses_found};
ghost use Rattle.opt_meaning.specs.Pieces.{all_pieces, ops_at, last_of};
ghost use Rattle.opt_meaning.specs.Rebuilding.{snapshot_in as snapshot_meant};
ghost use Rattle.session_host.specs.Showing.{finish_of as finish_meant, finished_at, stray_at as stray_meant, exited_at};
ghost use Rattle.trace_ops.specs.declared.piece.Snapshot.{Snapshot as OneSnapshot};
ghost use Rattle.trace_ops.specs.declared.trace.Arg.{Arg as OneArg};
ghost use Rattle.x64_machine.specs.Words.{unsigned};
ghost use Rattle.x64_machine.specs.Kept.{HasShape};
ghost use Rattle.run_session.specs.declared.now.Now.TheVariants.{Wrong as IsWrong, Going as IsGoing, Exited as IsExit, ArenaFull as IsFull};
ghost use Rattle.run_session.specs.Keeping.{IsServed, Serves, ServesGuard, HasSnapshot, AreReserved};
ghost use Rattle.run_session.specs.Returning.{ReturnsSo, RebuildsSo, ExitsSo, ShowsSo, ChangesArena};
ghost use Rattle.run_session.specs.Outcomes.{ShownNow};
ghost use Rattle.resume_numbering.specs.Lawful.{IsLawful};
ghost use Rattle.resume_numbering.specs.Reading.{HasRow};
ghost use Rattle.resume_rebuild.specs.Guarding.{RebuildsAt};
ghost use Rattle.resume_rebuild.specs.Known.{ShapesAreKnown};
ghost use Rattle.resume_rebuild.specs.Reserved.{IsReserved};

use crate::active::Active;
use crate::exit::Exit;
use crate::now::Now;
use crate::pieces::{finish_of, ops_of_piece, snapshot_in};
use bridge_patch::Image;
use guard_exit::ExitRow;
use resume_numbering::ResumeTable;
use resume_rebuild::{Full, rebuild};
use std::alloc::Global;
use target_base::{ArenaWords, Reg};
use trace_ops::{OptTrace, Table, Word};

fn wrong(word: Word) -> Now
    ensures { result ≡ IsWrong (unsigned word) }
{
    Now::Wrong {
        at: word.cast_unsigned(),
    }
}

// What is read at a row of an activation.
fn exit_at<'a>(table: &'a Table, row: &'a ExitRow, active: &'a Active) -> Exit<'a>
    ensures table { result.table.now ≡ table.now }
    ensures arena { result.arena.now ≡ active.now.machine.arena }
    ensures frame { result.frame.now ≡ active.now.machine.frame }
    ensures places { result.places.now ≡ row.now.places }
    ensures rebuilt { result.rebuilt.now ≡ active.now.rebuilt }
{
    Exit {
        table,
        arena: active.machine.arena(),
        frame: active.machine.frame(),
        places: row.places.items(),
        rebuilt: &active.rebuilt,
    }
}

// The end at a finish.
fn finished(table: &Table, opt: &[OptTrace], row: &ExitRow, active: &Active) -> Now
    requires { active.now.rebuilt.found ≡ addresses_found table.now active.now.machine.arena }
    ensures { (value : Maybe OneArg) → finish_meant (last_of (ops_at (all_pieces opt.now) row.now.id)) ≡ Just value → ShownNow table.now (finished_at table.now active.now.machine row.now value) result active.now.rebuilt.frames active.now.machine }
{
    let exit = exit_at(table, row, active);
    if let Some(word) = exit.stray_box() {
        return wrong(word);
    }
    match finish_of(ops_of_piece(opt, row.id)) {
        Some(Some(arg)) => Now::Finished(Some(exit.arg_value(arg))),
        _ => Now::Finished(None),
    }
}

// The first word at a guard that is none of what it is to be.
fn stray_at(
    table: &Table,
    opt: &[OptTrace],
    row: &ExitRow,
    guard: u32,
    active: &Active,
) -> Option<Word>
    requires range { IsTableInRange table.now }
    requires found { active.now.rebuilt.found ≡ addresses_found table.now active.now.machine.arena }
    ensures { (snap : OneSnapshot) → snapshot_meant (ops_at (all_pieces opt.now) row.now.id) guard ≡ Just snap → result ≡ stray_meant table.now active.now.machine row.now snap }
{
    let exit = exit_at(table, row, active);
    if let Some(word) = exit.stray_box() {
        return Some(word);
    }
    let Some(snap) = snapshot_in(ops_of_piece(opt, row.id), guard) else {
        return None;
    };
    exit.stray_base(snap.pending.items())
}

// Rebuilds by a resume table. The arena is taken out of the machine meanwhile.
fn rebuild_by(
    alloc: Global,
    table: &ResumeTable,
    row: &ExitRow,
    guard: u32,
    active: &mut Active,
) -> Result<(), Full>
    requires lawful { IsLawful table.now }
    requires row { HasRow table.now guard }
    requires reserved { IsReserved table.now active.old.rebuilt }
    requires shapes { ShapesAreKnown active.old.rebuilt.table table.now guard }
    ensures given { RebuildsAt table.now guard row.now.places active.old.machine.frame active.old.machine.arena active.new.machine.arena active.old.rebuilt active.new.rebuilt result }
    ensures same { active.new ≡ record active.old { machine = record active.old.machine { arena = active.new.machine.arena }; rebuilt = active.new.rebuilt } }
{
    let none = ArenaWords::new(Vec::new(alloc), 0);
    let mut arena = std::mem::replace(active.machine.arena_mut(), none);
    let done = rebuild(
        table,
        guard,
        row.places.items(),
        active.machine.frame(),
        &mut arena,
        &mut active.rebuilt,
    );
    *active.machine.arena_mut() = arena;
    done
}

// How a rebuild is told.
fn told(row: &ExitRow, guard: u32, done: Result<(), Full>) -> Now
    ensures ok { IfOk done (λ u. result ≡ IsExit row.now.id.trace guard) }
    ensures err { IfErr done (λ full. result ≡ IsFull full.asked full.left) }
{
    match done {
        Ok(()) => Now::Exited {
            trace: row.id.trace,
            guard,
        },
        Err(full) => Now::ArenaFull {
            asked: full.asked,
            left: full.left,
        },
    }
}

// Rebuilds at a guard, by the resume table of its piece.
fn rebuild_at(alloc: Global, image: &Image, row: &ExitRow, guard: u32, active: &mut Active) -> Now
    requires served { (snap : OneSnapshot) × ServesGuard active.old.rebuilt.table image.now.pieces row.now guard snap }
    requires reserved { AreReserved image.now.pieces active.old.rebuilt }
    ensures shown { (snap : OneSnapshot) → ServesGuard active.old.rebuilt.table image.now.pieces row.now guard snap → RebuildsSo active.old.rebuilt.table row.now guard snap active.old active.new result }
    ensures changes { ChangesArena active.old active.new }
    ensures ended { result ≢ IsGoing }
{
    let Some(table) = image.resume(row.id) else {
        unreachable!()
    };
    let done = rebuild_by(alloc, table, row, guard, active);
    told(row, guard, done)
}

// The end at a guard.
fn exited(
    alloc: Global,
    table: &Table,
    opt: &[OptTrace],
    image: &Image,
    row: &ExitRow,
    guard: u32,
    active: &mut Active,
) -> Now
    requires range { IsTableInRange table.now }
    requires served { HasSnapshot table.now (all_pieces opt.now) image.now.pieces row.now guard }
    requires adopted { active.old.rebuilt.table ≡ table.now }
    requires reserved { AreReserved image.now.pieces active.old.rebuilt }
    requires found { active.old.rebuilt.found ≡ addresses_found table.now active.old.machine.arena }
    ensures shown { (snap : OneSnapshot) → snapshot_meant (ops_at (all_pieces opt.now) row.now.id) guard ≡ Just snap → ExitsSo table.now row.now guard snap active.old active.new result }
    ensures changes { ChangesArena active.old active.new }
    ensures ended { result ≢ IsGoing }
{
    if let Some(word) = stray_at(table, opt, row, guard, active) {
        return wrong(word);
    }
    rebuild_at(alloc, image, row, guard, active)
}

// The row whose number is this word.
fn row_for(rows: &[ExitRow], number: Word) -> Option<&ExitRow>
    ensures some { IfSome result (λ row. Contains rows.now row.now) }
    ensures number { IfSome result (λ row. number ≡ pos row.now.exit) }
    ensures none { IfNone result (All (λ row. number ≢ pos row.exit) rows.now) }
{
    rows.iter().find(|row| Word::from(row.exit) == number)
}

// The end at a row.
fn shown(
    alloc: Global,
    table: &Table,
    opt: &[OptTrace],
    image: &Image,
    row: &ExitRow,
    active: &mut Active,
) -> Now
    requires range { IsTableInRange table.now }
    requires served { Serves table.now (all_pieces opt.now) image.now.pieces row.now row.now.guard }
    requires adopted { active.old.rebuilt.table ≡ table.now }
    requires reserved { AreReserved image.now.pieces active.old.rebuilt }
    requires found { active.old.rebuilt.found ≡ addresses_found table.now active.old.machine.arena }
    ensures shown { ShowsSo table.now (all_pieces opt.now) row.now active.old active.new result }
    ensures changes { ChangesArena active.old active.new }
    ensures ended { result ≢ IsGoing }
{
    match row.guard {
        None => finished(table, opt, row, active),
        Some(guard) => exited(alloc, table, opt, image, row, guard, active),
    }
}

// Finds the objects of the arena, and notes the bytes that are taken.
fn look(active: &mut Active)
    ensures { active.new ≡ record active.old { rebuilt = record active.old.rebuilt { found = addresses_found active.old.rebuilt.table active.old.machine.arena }; last_taken = Just active.old.machine.arena.taken } }
{
    active.last_taken = Some(active.machine.arena().taken());
    active.rebuilt.walk(active.machine.arena());
}

/// What the return at which the machine stands shows.
pub(crate) fn returned(
    alloc: Global,
    table: &Table,
    opt: &[OptTrace],
    image: &Image,
    active: &mut Active,
) -> Now
    requires range { IsTableInRange table.now }
    requires shape { HasShape active.old.machine }
    requires served { IsServed table.now (all_pieces opt.now) image.now }
    requires adopted { active.old.rebuilt.table ≡ table.now }
    requires reserved { AreReserved image.now.pieces active.old.rebuilt }
    ensures { ReturnsSo table.now (all_pieces opt.now) image.now.exits active.old active.new result }
{
    look(active);
    let number = active.machine.reg(Reg(0));
    match row_for(image.exits(), number) {
        None => wrong(number),
        Some(row) => shown(alloc, table, opt, image, row, active),
    }
}
