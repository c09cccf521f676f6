//! Writes the lines of starts, of ends that lie behind, and of attachments.
ghost use Rattle.std.specs.Prelude.{◌≡◌, ◌++◌, OnOk};
ghost use Rattle.seen_text.specs.Lines.{started_text, ended_text, judged_text, attach_text};

use std::alloc::AllocError;

/// What becomes of an attachment: it is accepted, or refused since the bridge is attached already or its parent is a
/// bridge that isn't attached.
#[derive(Clone, Copy, Debug, PartialEq, Eq)]
pub enum Judged {
    Accepted,
    Already,
    NoParent,
}

/// Adds that the activation of this name is started.
#[tactic(auto, unfolding(crate::specs::Lines::started_text))]
pub fn put_started(out: &mut Vec<u8>, name: &[u8]) -> Result<(), AllocError>
    ensures { OnOk result (out.new.items ≡ out.old.items ++ started_text name.now) }
{
    out.extend_from_slice(name)?;
    out.extend_from_slice(b" started\n")
}

/// Adds that the activation of this name has ended before.
#[tactic(auto, unfolding(crate::specs::Lines::ended_text))]
pub fn put_ended(out: &mut Vec<u8>, name: &[u8]) -> Result<(), AllocError>
    ensures { OnOk result (out.new.items ≡ out.old.items ++ ended_text name.now) }
{
    out.extend_from_slice(name)?;
    out.extend_from_slice(b" ended\n")
}

fn judged_text(judged: Judged) -> &'static [u8]
    ensures { result.now ≡ judged_text judged }
{
    match judged {
        Judged::Accepted => b" attached\n",
        Judged::Already => b" refused Already\n",
        Judged::NoParent => b" refused NoParent\n",
    }
}

/// Adds what becomes of the attachment of the bridge of this name.
pub fn put_attach(out: &mut Vec<u8>, name: &[u8], judged: Judged) -> Result<(), AllocError>
    ensures { OnOk result (out.new.items ≡ out.old.items ++ attach_text name.now judged) }
{
    out.extend_from_slice(name)?;
    out.extend_from_slice(judged_text(judged))
}
