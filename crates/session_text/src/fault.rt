//! Why the lines of a session are refused.

ghost use Rattle.std.specs.Prelude.{◌≡◌};
ghost use Rattle.session_text.specs.Faults.{bad};

use trace_ops::What;

/// What a line is refused for: it has no form; it starts a name again; it names what isn't there; or its
/// inputs are of another number or kind than those of the loop.
#[derive(Clone, Copy, Debug, PartialEq, Eq)]
pub enum Reason {
    Shape,
    Twice,
    Name,
    Inputs,
}

/// Why a text is refused: the first line that is, by its number, or a limit that it passes with the
/// count that passes it.
#[derive(Clone, Copy, Debug, PartialEq, Eq)]
pub enum SessionFault {
    SessionBad { line: u32, reason: Reason },
    Limit { what: What, count: u64 },
    OutOfMemory,
}

/// A refusal at its line.
pub fn bad(line: u32, reason: Reason) -> SessionFault
    ensures { result ≡ bad line reason }
{
    SessionFault::SessionBad { line, reason }
}
