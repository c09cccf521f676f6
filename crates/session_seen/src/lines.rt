//! What is seen of the lines of a session.

ghost use Rattle.std.specs.Prelude.{◌≡◌, ◌≢◌, ◌+◌, ◌*◌, ◌^◌, ◌<◌, ◌≤◌, true, false, [], ◌∷◌, length, OnOk};
ghost use Rattle.std.specs.List.{All};
ghost use Rattle.session_text.specs.declared.session.Line.TheVariants as line_of;
ghost use Rattle.session_text.specs.Fits.{LinesFit, LineFits, IsStart, starts_behind, with_start_of};
ghost use Rattle.run_session.specs.declared.now.Now.TheVariants as now_of;
ghost use Rattle.run_session.specs.Calls.{IsNow};
ghost use Rattle.session_seen.specs.Lines.{name_of};
ghost use Rattle.session_seen.specs.Keeping.{AttachesNone, HaveMade, PutsLine, PutsLines, PutsMoves, most_of_line};

use crate::shown::put_activation;
use run_session::{Now, Session};
use seen_text::{put_ended, put_started};
use session_text::Line;
use std::alloc::AllocError;
use trace_meaning::{Answer, Value};
use trace_ops::{List, Text};

fn name_of(names: &[Text], activation: u32) -> &[u8]
    ensures { result.now ≡ name_of names.now activation }
{
    match names.get(activation as usize) {
        None => &[],
        Some(name) => name.bytes(),
    }
}

fn has_ended(now: Now) -> bool
    ensures ended { result ≡ true → now ≢ now_of.Going }
    ensures going { result ≡ false → now ≡ now_of.Going }
{
    match now {
        Now::Going => false,
        _ => true,
    }
}

// A start, which fits.
fn put_start(
    out: &mut Vec<u8>,
    session: &mut Session,
    names: &[Text],
    activation: u32,
    trace: u32,
    inputs: &List<Value>,
    answers: &List<Answer>,
) -> Result<(), AllocError>
    requires fits { IsStart session.old.set trace inputs.now answers.now }
    requires number { activation ≡ length session.old.activations }
    requires few { length session.old.activations < 16 }
    ensures { OnOk result (PutsLine names.now (line_of.Start activation trace inputs.now answers.now) session.old session.new out.old.items out.new.items) }
{
    let inputs = inputs.copy()?.into_items();
    let answers = answers.copy_each()?.into_items();
    match session.start(trace, inputs, answers) {
        Ok(_number) => put_started(out, name_of(names, activation)),
        Err(_) => Err(AllocError),
    }
}

// At most so many events of an activation that goes on.
fn put_moves(
    out: &mut Vec<u8>,
    session: &mut Session,
    names: &[Text],
    activation: u32,
    most: u64,
) -> Result<(), AllocError>
    requires started { activation < length session.old.activations }
    requires made { HaveMade (2 ^ 62) session.old }
    requires most { most ≤ most_of_line }
    ensures { OnOk result (PutsMoves names.now activation most session.old session.new out.old.items out.new.items) }
{
    let name = name_of(names, activation);
    if has_ended(*session.now(activation)) {
        return put_ended(out, name);
    }
    session.steps(activation, most);
    put_activation(out, session, activation, name)
}

// What is seen of a line that attaches nothing.
fn put_line(
    out: &mut Vec<u8>,
    session: &mut Session,
    names: &[Text],
    line: &Line,
) -> Result<(), AllocError>
    requires fits { LineFits session.old.set (length session.old.activations) line.now }
    requires few { length session.old.activations ≤ 16 }
    requires starts { with_start_of line.now (length session.old.activations) ≤ 16 }
    requires none { AttachesNone line.now }
    requires small { length session.old.image.bytes < 2 ^ 30 }
    requires made { HaveMade (2 ^ 62) session.old }
    ensures { OnOk result (PutsLine names.now line.now session.old session.new out.old.items out.new.items) }
{
    match line {
        Line::Start {
            activation,
            trace,
            inputs,
            answers,
        } => put_start(out, session, names, *activation, *trace, inputs, answers),
        Line::Step { activation, count } => {
            put_moves(out, session, names, *activation, u64::from(*count))
        }
        Line::Run { activation, n } => {
            let most = (u64::from(*n) + 1) * u64::from(session.image().code().len());
            put_moves(out, session, names, *activation, most)
        }
        Line::Attach { .. } => Ok(()),
    }
}

/// Adds what is seen of lines that attach no bridge, one behind the other: that an activation is started; what it shows when a
/// line has moved it on, its state with frames, calls, cells and counts; or that it has ended before.
///
/// # Errors
/// Want of memory, or an activation that can't be listed: there are 2^32 objects.
pub fn put_lines(
    out: &mut Vec<u8>,
    session: &mut Session,
    names: &[Text],
    lines: &[Line],
) -> Result<(), AllocError>
    requires fresh { session.old.activations ≡ [] }
    requires fits { LinesFit session.old.set 0 lines.now }
    requires starts { starts_behind 0 lines.now ≤ 16 }
    requires few { length lines.now ≤ 4096 }
    requires none { All AttachesNone lines.now }
    requires small { length session.old.image.bytes < 2 ^ 30 }
    ensures { OnOk result (PutsLines names.now lines.now session.old session.new out.old.items out.new.items) }
{
    for line in lines {
        put_line(out, session, names, line)?;
    }
    Ok(())
}
