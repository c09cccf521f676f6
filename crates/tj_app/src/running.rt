//! The answer of `run` to an input.
ghost use Rattle.std.specs.Prelude.{◌≡◌, ◌≤◌, ◌++◌, [], length, IfOk, OnOk, MatchResult};
ghost use Rattle.std.specs.List.{All};
ghost use Rattle.session_text.specs.Fits.{FitsSet};
ghost use Rattle.session_seen.specs.Keeping.{AttachesNone};
ghost use Rattle.tj_app.specs.Asking.{AreBytes, AreCount};
ghost use Rattle.tj_app.specs.Running.{IsRunText, AreSeenOf, seen_section};
ghost use Rattle.tj_app.specs.Telling.{IsUntold};

use crate::imaging::put_printed;
use crate::refusal::Fault;
use crate::telling::{Told, read_usable};
use crate::words::Command;
use image_shows::compiled_images_show;
use opt_promise::made_pieces_promise;
use opt_set::{pieces_are_made, pieces_are_sound};
use run_session::Session;
use session_seen::{lines_are_a_run, put_lines};
use session_text::SessionText;
use set_in_image::snapshots_have_words;
use std::alloc::{AllocError, Global};
use trace_check::Checked;
use trace_text::{text_laws, write_opt};

/// The pieces of an input's loops, their image, and what is seen of its session over that, with arenas of so many bytes and so
/// many registers; or why there is none.
pub fn run_text(alloc: Global, arena: u32, registers: u8, bytes: &[u8]) -> Result<Vec<u8>, Fault>
    requires within { length bytes.now ≤ 16777216 }
    requires arena { AreBytes arena }
    requires registers { AreCount registers }
    ensures { MatchResult result (λ text. IsRunText arena registers bytes.now text.items) (IsUntold (Command.Run arena registers) bytes.now) }
{
    text_laws();
    made_pieces_promise();
    pieces_are_made();
    pieces_are_sound();
    compiled_images_show();
    lines_are_a_run();
    let command = Command::Run { arena, registers };
    let Told { checked, session } = read_usable(alloc, command, bytes)?;
    match text_of(alloc, checked, &session, arena, registers) {
        Ok(text) => Ok(text),
        Err(_) => Err(Fault::Memory),
    }
}

// The texts of the pieces of all loops, of their image, and of what is seen of the session.
fn text_of(
    alloc: Global,
    checked: Checked,
    session: &SessionText,
    arena: u32,
    registers: u8,
) -> Result<Vec<u8>, AllocError>
    requires arena { AreBytes arena }
    requires registers { AreCount registers }
    requires fits { FitsSet checked session.now }
    requires none { All AttachesNone session.now.lines }
    ensures { IfOk result (λ text. AreSeenOf arena registers checked session.now text.items) }
{
    let mut live = Session::new(alloc, checked, registers, u64::from(arena))?;
    snapshots_have_words(live.opt());
    let mut seen = Vec::new(alloc);
    put_lines(
        &mut seen,
        &mut live,
        session.names.items(),
        session.lines.items(),
    )?;
    let mut out = write_opt(alloc, live.set(), live.opt())?;
    put_printed(&mut out, live.set(), live.image())?;
    put_seen(&mut out, &seen)?;
    Ok(out)
}

// Adds the section of what is seen.
fn put_seen(out: &mut Vec<u8>, seen: &[u8]) -> Result<(), AllocError>
    ensures { OnOk result (out.new.items ≡ out.old.items ++ seen_section seen.now) }
{
    out.extend_from_slice(b"%seen\n")?;
    out.extend_from_slice(seen)
}
