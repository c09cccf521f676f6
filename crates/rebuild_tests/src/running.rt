//! One rebuild, and what is seen after it.

ghost use Rattle.std.specs.Prelude.{◌≡◌, ◌≤◌, ◌^◌, length};

use crate::simple::can_rebuild;
use anyhow::Result;
use arena_world::read_store;
use resume_numbering::ResumeTable;
use resume_rebuild::{Full, Rebuilt, rebuild};
use std::alloc::AllocError;
use target_base::{ArenaWords, Place};
use trace_ops::{BoxId, Kind, Table, Word};

const INTEGER: BoxId = BoxId {
    kind: Kind::Int,
    number: 0,
};

const ROOT: BoxId = BoxId {
    kind: Kind::Ref,
    number: 1,
};

// What has come of a rebuild.
enum Came {
    NotTried,
    TooFew(Full),
    Rebuilt,
}

// Rebuilds at guard 0, with 7 in box 0 and the prebuilt node in box 1.
fn rebuild_at(
    t: &Table,
    table: &ResumeTable,
    arena: &mut ArenaWords,
    out: &mut Rebuilt,
) -> std::result::Result<Came, AllocError>
    requires { out.old.table ≡ t.now }
{
    if !can_rebuild(t, table, 0) {
        return Ok(Came::NotTried);
    }
    out.reserve(table)?;
    let places = [(INTEGER, Place::Word(17)), (ROOT, Place::Word(16))];
    let mut frame = [0i64; 20];
    frame[16] = 0x1000_0000;
    frame[17] = 7;
    Ok(match rebuild(table, 0, &places, &frame, arena, out) {
        Err(full) => Came::TooFew(full),
        Ok(()) => Came::Rebuilt,
    })
}

// Prints the slots of the frames that were rebuilt.
fn print_frames(rt: &HostRuntime, out: &Rebuilt) -> Result<()> {
    for frame in out.frames() {
        let pc = frame.pc;
        for slot in frame.slots.items() {
            println!(rt; "pc {pc} slot {slot:?}")?;
        }
    }
    Ok(())
}

// Prints all objects of an arena.
fn print_objects(rt: &HostRuntime, t: &Table, arena: &ArenaWords) -> Result<()> {
    let store = read_store(rt.alloc(), t, arena)?;
    for object in store.objects.items() {
        let of = object.of;
        println!(rt; "{of:?}")?;
        for part in object.parts.items() {
            println!(rt; "  {part:?}")?;
        }
    }
    Ok(())
}

/// Rebuilds in an arena of these words, and prints what comes of it.
pub fn show(rt: &HostRuntime, t: &Table, table: &ResumeTable, words: Vec<Word>) -> Result<()>
    requires some { 3 ≤ length words.items }
    requires few { length words.items ≤ 2 ^ 21 }
{
    let mut arena = ArenaWords::new(words, 24);
    let mut out = Rebuilt::new(rt.alloc())?;
    out.adopt(t)?;
    match rebuild_at(t, table, &mut arena, &mut out)? {
        Came::NotTried => println!(rt; "not tried")?,
        Came::TooFew(full) => {
            let asked = full.asked;
            let left = full.left;
            println!(rt; "full: {asked} asked, {left} left")?;
        }
        Came::Rebuilt => println!(rt; "rebuilt")?,
    }
    print_frames(rt, &out)?;
    print_objects(rt, t, &arena)
}
