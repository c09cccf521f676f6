//! Writes exits, with the places of their boxes.
ghost use Rattle.std.specs.Prelude.{◌≡◌, ◌++◌, OnOk};
ghost use Rattle.image_text.specs.Texts.{register_text, place_text, standing_text, more_places, places_text, leave_text, exit_text, exits_text};

use crate::puts::{put_box, put_piece_name, put_told};
use guard_exit::ExitRow;
use std::alloc::AllocError;
use target_base::Place;
use trace_ops::{BoxId, TraceSet};

#[tactic(auto, unfolding(crate::specs::Texts::register_text))]
fn put_register(out: &mut Vec<u8>, number: u8) -> Result<(), AllocError>
    ensures { OnOk result (out.new.items ≡ out.old.items ++ register_text number) }
{
    if number == 0 {
        return out.extend_from_slice(b"rax");
    }
    if number == 1 {
        return out.extend_from_slice(b"rcx");
    }
    if number == 2 {
        return out.extend_from_slice(b"rdx");
    }
    if number == 3 {
        return out.extend_from_slice(b"rbx");
    }
    if number == 4 {
        return out.extend_from_slice(b"rsp");
    }
    if number == 5 {
        return out.extend_from_slice(b"rbp");
    }
    if number == 6 {
        return out.extend_from_slice(b"rsi");
    }
    if number == 7 {
        return out.extend_from_slice(b"rdi");
    }
    put_told(out, b"r", u64::from(number))
}

#[tactic(auto, unfolding(crate::specs::Texts::place_text))]
fn put_place(out: &mut Vec<u8>, place: Place) -> Result<(), AllocError>
    ensures { OnOk result (out.new.items ≡ out.old.items ++ place_text place) }
{
    match place {
        Place::In(r) => put_register(out, r.0),
        Place::Word(k) => put_told(out, b"w", u64::from(k)),
    }
}

#[tactic(auto, unfolding(crate::specs::Texts::standing_text))]
fn put_standing(out: &mut Vec<u8>, standing: (BoxId, Place)) -> Result<(), AllocError>
    ensures { OnOk result (out.new.items ≡ out.old.items ++ standing_text standing) }
{
    put_box(out, standing.0)?;
    out.push(b'=')?;
    put_place(out, standing.1)
}

fn put_more_places(out: &mut Vec<u8>, places: &[(BoxId, Place)]) -> Result<(), AllocError>
    ensures { OnOk result (out.new.items ≡ out.old.items ++ more_places places.now) }
{
    for standing in places {
        out.extend_from_slice(b", ")?;
        put_standing(out, *standing)?;
    }
    Ok(())
}

#[tactic(auto, unfolding(crate::specs::Texts::places_text))]
fn put_places(out: &mut Vec<u8>, places: &[(BoxId, Place)]) -> Result<(), AllocError>
    ensures { OnOk result (out.new.items ≡ out.old.items ++ places_text places.now) }
{
    match places {
        [] => Ok(()),
        [first, more @ ..] => {
            put_standing(out, *first)?;
            put_more_places(out, more)
        }
    }
}

// How an exit is left: by a guard whose displacement has a place, or by a finish.
#[tactic(auto, unfolding(crate::specs::Texts::leave_text))]
fn put_leave(out: &mut Vec<u8>, guard: Option<u32>, at: u32) -> Result<(), AllocError>
    ensures { OnOk result (out.new.items ≡ out.old.items ++ leave_text guard at) }
{
    match guard {
        None => out.extend_from_slice(b" finish ["),
        Some(guard) => {
            put_told(out, b"/", u64::from(guard))?;
            put_told(out, b" at ", u64::from(at))?;
            out.extend_from_slice(b" [")
        }
    }
}

#[tactic(auto, unfolding(crate::specs::Texts::exit_text))]
fn put_exit(out: &mut Vec<u8>, set: &TraceSet, row: &ExitRow) -> Result<(), AllocError>
    ensures { OnOk result (out.new.items ≡ out.old.items ++ exit_text set.now row.now) }
{
    put_told(out, b"exit ", u64::from(row.exit))?;
    out.push(b' ')?;
    put_piece_name(out, set, row.id)?;
    put_leave(out, row.guard, row.at)?;
    put_places(out, row.places.items())?;
    out.extend_from_slice(b"]\n")
}

/// Adds exits, a line each: the number, the piece, its guard with the place of the displacement or that it is a finish, and
/// the boxes that are seen there with their places.
pub fn put_exits(out: &mut Vec<u8>, set: &TraceSet, rows: &[ExitRow]) -> Result<(), AllocError>
    ensures { OnOk result (out.new.items ≡ out.old.items ++ exits_text set.now rows.now) }
{
    for row in rows {
        put_exit(out, set, row)?;
    }
    Ok(())
}
