//! What an input tells: a checked set of traces, and the lines of its session.
ghost use Rattle.std.specs.Prelude.{◌≡◌, ◌≤◌, None, Ok, length, MatchResult, IfOk};
ghost use Rattle.trace_ops.specs.InRange.{IsInRange};
ghost use Rattle.trace_text.specs.Sections.{session_part};
ghost use Rattle.session_text.specs.Fits.{FitsSet};
ghost use Rattle.tj_app.specs.Telling.{session_in, session_fault, Tells, IsRefusedSession, IsUnread, IsUntold, IsBuilt};

use crate::checking::checked_set;
use crate::refusal::Fault;
use crate::unbuilt::first_need;
use crate::words::Command;
use session_text::{SessionFault, SessionText, session_of, session_of_all};
use std::alloc::Global;
use text_lines::lines_are_few;
use trace_check::Checked;
use trace_ops::TraceSet;
use trace_text::session_part;

/// A well-formed set, and a session over it.
#[derive(Drop)]
pub struct Told {
    pub checked: Checked,
    pub session: SessionText,
}

/// The set and the session of an input, or why there is none.
pub fn read_told(alloc: Global, bytes: &[u8]) -> Result<Told, Fault>
    requires { length bytes.now ≤ 16777216 }
    ensures { MatchResult result (λ t. Tells bytes.now t.checked t.session × FitsSet t.checked t.session) (IsUnread bytes.now) }
{
    let checked = checked_set(alloc, bytes)?;
    let session = session_over(alloc, bytes, checked.set())?;
    Ok(Told { checked, session })
}

/// The set and the session of an input that a command can use, or why there is none.
pub fn read_usable(alloc: Global, command: Command, bytes: &[u8]) -> Result<Told, Fault>
    requires { length bytes.now ≤ 16777216 }
    ensures { MatchResult result (λ t. IsBuilt command bytes.now t.checked t.session × FitsSet t.checked t.session) (IsUntold command bytes.now) }
{
    let told = read_told(alloc, bytes)?;
    match first_need(command, &told.session) {
        None => Ok(told),
        Some(what) => Err(Fault::NotBuilt { what: what.name() }),
    }
}

// The session of an input over its set.
fn session_over(alloc: Global, bytes: &[u8], set: &TraceSet) -> Result<SessionText, Fault>
    requires within { length bytes.now ≤ 16777216 }
    requires range { IsInRange set.now }
    ensures told { MatchResult result (λ session. session_in set.now (session_part bytes.now) ≡ Ok session) (IsRefusedSession set.now (session_part bytes.now)) }
    ensures fits { IfOk result (FitsSet set.now) }
{
    lines_are_few();
    let Some((text, first_line)) = session_part(bytes) else {
        return whole_session(alloc, set);
    };
    match session_of(alloc, text, first_line, set) {
        Ok(session) => Ok(session),
        Err(why) => Err(session_fault(why)),
    }
}

// The session of an input that has none.
fn whole_session(alloc: Global, set: &TraceSet) -> Result<SessionText, Fault>
    requires { IsInRange set.now }
    ensures told { MatchResult result (λ session. session_in set.now None ≡ Ok session) (IsRefusedSession set.now None) }
    ensures fits { IfOk result (FitsSet set.now) }
{
    match session_of_all(alloc, set) {
        Ok(session) => Ok(session),
        Err(_) => Err(Fault::Memory),
    }
}

fn session_fault(why: SessionFault) -> Fault
    ensures { result ≡ session_fault why }
{
    match why {
        SessionFault::SessionBad { line, reason } => Fault::SessionBad { line, reason },
        SessionFault::Limit { what, count } => Fault::Limit { what, count },
        SessionFault::OutOfMemory => Fault::Memory,
    }
}
