//! What the commands can't do yet, and whether an input asks for it.
ghost use Rattle.std.specs.Prelude.{◌≡◌, ◌≤◌, find, length};
ghost use Rattle.std.specs.List.{list_any};
ghost use Rattle.tj_app.specs.Unbuilt.{name_of, is_gen, attaches, needs, first_need};

use crate::words::Command;
use session_text::{Line, SessionText};
use trace_ops::Text;

/// What isn't built yet, in the order in which it is looked for: a command, and lines of a session that attach a bridge.
#[derive(Clone, Copy, Debug, PartialEq, Eq)]
pub enum Unbuilt {
    Gen,
    Attach,
}

impl Unbuilt {
    /// The word of the fault line.
    pub fn name(self) -> Text
        ensures { result ≡ name_of self }
    {
        Text::new(self.word())
    }

    fn word(self) -> &'static [u8]
        ensures value { result.now ≡ name_of self }
        ensures short { length result.now ≤ 64 }
    {
        match self {
            Unbuilt::Gen => b"gen",
            Unbuilt::Attach => b"attach",
        }
    }
}

/// The first of what isn't built that the command needs, or the session.
pub fn first_need(command: Command, session: &SessionText) -> Option<Unbuilt>
    ensures { result ≡ first_need command session.now }
{
    let order = [Unbuilt::Gen, Unbuilt::Attach];
    first_of(&order, command, session)
}

fn first_of(order: &[Unbuilt], command: Command, session: &SessionText) -> Option<Unbuilt>
    ensures { result ≡ find (needs command session.now) order.now }
{
    for what in order {
        if needs(command, session, *what) {
            return Some(*what);
        }
    }
    None
}

fn needs(command: Command, session: &SessionText, what: Unbuilt) -> bool
    ensures { result ≡ needs command session.now what }
{
    match what {
        Unbuilt::Gen => is_gen(command),
        Unbuilt::Attach => some_attach(session.lines.items()),
    }
}

fn some_attach(lines: &[Line]) -> bool
    ensures { result ≡ list_any attaches lines.now }
{
    lines.iter().any(|line| attaches(line))
}

fn is_gen(command: Command) -> bool
    ensures { result ≡ is_gen command }
{
    match command {
        Command::Gen { number: _, size: _ } => true,
        _ => false,
    }
}

fn attaches(line: &Line) -> bool
    ensures { result ≡ attaches line.now }
{
    match line {
        Line::Attach { bridge: _ } => true,
        _ => false,
    }
}
