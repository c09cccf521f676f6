//! The answer of `opt` to an input.
ghost use Rattle.std.specs.Prelude.{◌≡◌, ◌≤◌, [], length, IfOk, OnOk, MatchResult};
ghost use Rattle.std.specs.List.{All};
ghost use Rattle.session_text.specs.declared.session.Line.TheVariants as line_of;
ghost use Rattle.loop_peel.specs.Peeling.{IsBridge};
ghost use Rattle.opt_set.specs.Optimised.{IsOptimised};
ghost use Rattle.tj_app.specs.Opting.{Grants, GrantsLine, AttachesBridge, IsTextOf, IsOptText};
ghost use Rattle.tj_app.specs.Telling.{IsUnread};

use crate::refusal::Fault;
use crate::telling::read_told;
use opt_promise::made_pieces_promise;
use opt_set::{AttachFault, OptimisedSet, pieces_are_made, pieces_are_sound};
use session_text::Line;
use std::alloc::Global;
use trace_check::Checked;
use trace_text::{text_laws, write_opt};

/// The text of the optimised pieces of an input's loops and of the bridges that its session attaches, or why there is
/// none.
pub fn opt_text(alloc: Global, bytes: &[u8]) -> Result<Vec<u8>, Fault>
    requires { length bytes.now ≤ 16777216 }
    ensures { MatchResult result (λ text. IsOptText bytes.now text.items) (IsUnread bytes.now) }
{
    text_laws();
    made_pieces_promise();
    pieces_are_made();
    pieces_are_sound();
    let told = read_told(alloc, bytes)?;
    match text_of(alloc, &told.checked, told.session.lines.items()) {
        Ok(text) => Ok(text),
        Err(_) => Err(Fault::Memory),
    }
}

fn text_of(alloc: Global, checked: &Checked, lines: &[Line]) -> Result<Vec<u8>, AttachFault>
    requires { All (AttachesBridge checked.now) lines.now }
    ensures { IfOk result (λ text. IsTextOf checked.now lines.now text.items) }
{
    let pieces = pieces_of(alloc, checked, lines)?;
    match write_opt(alloc, checked.set(), pieces.traces()) {
        Ok(text) => Ok(text),
        Err(_) => Err(AttachFault::OutOfMemory),
    }
}

// The pieces of all loops, and of the bridges that these lines attach.
fn pieces_of(alloc: Global, checked: &Checked, lines: &[Line]) -> Result<OptimisedSet, AttachFault>
    requires { All (AttachesBridge checked.now) lines.now }
    ensures pieces { IfOk result (IsOptimised checked.now) }
    ensures granted { IfOk result (λ pieces. Grants checked.now [] lines.now pieces.attached) }
{
    let Ok(mut pieces) = OptimisedSet::new(alloc, checked) else {
        return Err(AttachFault::OutOfMemory);
    };
    for line in lines {
        attach_line(&mut pieces, alloc, checked, line)?;
    }
    Ok(pieces)
}

// Attaches the bridge of a line, where that can be granted.
fn attach_line(
    pieces: &mut OptimisedSet,
    alloc: Global,
    checked: &Checked,
    line: &Line,
) -> Result<(), AttachFault>
    requires pieces { IsOptimised checked.now pieces.old }
    requires bridge { AttachesBridge checked.now line.now }
    ensures pieces { OnOk result (IsOptimised checked.now pieces.new) }
    ensures granted { OnOk result (GrantsLine checked.now pieces.old.attached line.now pieces.new.attached) }
{
    match line {
        Line::Attach { bridge } => attach_bridge(pieces, alloc, checked, *bridge),
        _ => Ok(()),
    }
}

fn attach_bridge(
    pieces: &mut OptimisedSet,
    alloc: Global,
    checked: &Checked,
    bridge: u32,
) -> Result<(), AttachFault>
    requires pieces { IsOptimised checked.now pieces.old }
    requires bridge { IsBridge checked.now bridge }
    ensures pieces { OnOk result (IsOptimised checked.now pieces.new) }
    ensures granted { OnOk result (GrantsLine checked.now pieces.old.attached (line_of.Attach bridge) pieces.new.attached) }
{
    match pieces.attach(alloc, checked, bridge) {
        Ok(()) => Ok(()),
        Err(AttachFault::OutOfMemory) => Err(AttachFault::OutOfMemory),
        Err(_) => Ok(()),
    }
}
