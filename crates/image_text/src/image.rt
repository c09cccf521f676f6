//! Writes an image.
ghost use Rattle.std.specs.Prelude.{◌≡◌, ◌++◌, OnOk, IfOk};
ghost use Rattle.image_runs.specs.Printed.{Printed};
ghost use Rattle.image_text.specs.Texts.{base_text, entry_text, entries_text, image_text};
ghost use Rattle.image_text.specs.Parted.{parted_text};
ghost use Rattle.image_text.specs.Printing.{IsPrinted};
ghost use Rattle.image_text.specs.Undone.{changes_undone};

use crate::exits::put_exits;
use crate::hex_lines::put_hex;
use crate::parts::{parted, put_changes};
use crate::puts::put_told;
use crate::reading::read_all;
use crate::undoing::undo_changes;
use bridge_patch::Change;
use guard_exit::ExitRow;
use std::alloc::{AllocError, Global};
use target_base::Fetch;
use trace_ops::TraceSet;
use trace_text::trace_name;

/// How many bytes of code and how many exits there were when the loops were compiled.
#[derive(Clone, Copy, Debug, PartialEq, Eq)]
pub struct Compiled {
    pub bytes: u32,
    pub exits: u32,
}

#[tactic(auto, unfolding(crate::specs::Texts::base_text))]
fn put_base(out: &mut Vec<u8>, base: &[u8]) -> Result<(), AllocError>
    ensures { OnOk result (out.new.items ≡ out.old.items ++ base_text base.now) }
{
    put_told(out, b"%image\nversion 1\nbase ", base.len() as u64)?;
    out.push(b'\n')?;
    put_hex(out, base)
}

#[tactic(auto, unfolding(crate::specs::Texts::entry_text))]
fn put_entry(out: &mut Vec<u8>, set: &TraceSet, entry: (u32, u32)) -> Result<(), AllocError>
    ensures { OnOk result (out.new.items ≡ out.old.items ++ entry_text set.now entry) }
{
    out.extend_from_slice(b"entry ")?;
    out.extend_from_slice(trace_name(set, entry.0))?;
    put_told(out, b" ", u64::from(entry.1))?;
    out.push(b'\n')?;
    Ok(())
}

fn put_entries(out: &mut Vec<u8>, set: &TraceSet, entries: &[(u32, u32)]) -> Result<(), AllocError>
    ensures { OnOk result (out.new.items ≡ out.old.items ++ entries_text set.now entries.now) }
{
    for entry in entries {
        put_entry(out, set, *entry)?;
    }
    Ok(())
}

// Adds an image whose bytes are as they were appended.
#[tactic(auto, unfolding(crate::specs::Parted::parted_text))]
fn put_parted(
    out: &mut Vec<u8>,
    set: &TraceSet,
    compiled: Compiled,
    entries: &[(u32, u32)],
    bytes: &[u8],
    exits: &[ExitRow],
    changes: &[Change],
) -> Result<(), AllocError>
    ensures { OnOk result (out.new.items ≡ out.old.items ++ parted_text set.now compiled entries.now bytes.now exits.now changes.now) }
{
    let (base, appended) = parted(bytes, compiled.bytes as usize);
    let (rows, others) = parted(exits, compiled.exits as usize);
    put_base(out, base)?;
    put_entries(out, set, entries)?;
    put_exits(out, set, rows)?;
    put_changes(out, set, appended, others, changes)
}

// The bytes of the code as they were appended, before any change patched them.
fn appended<C: Fetch>(alloc: Global, code: &C, changes: &[Change]) -> Result<Vec<u8>, AllocError>
    ensures { IfOk result (λ bytes. bytes.items ≡ changes_undone changes.now (C.code code.now)) }
{
    let mut bytes = read_all(alloc, code)?;
    undo_changes(bytes.as_mut_slice(), changes);
    Ok(bytes)
}

/// Adds the text of the image, version 1: the code as it was when the loops were compiled, their entries and their exits;
/// then for each attachment the bytes that it appended, as they were then, its exits, and its patches. The image is told by
/// how much of it was compiled, the traces and places of its entries, the present code, all exits by number, and what each
/// attachment changed. It takes the time of the code's length and of the patches, and memory for one copy of the code.
///
/// # Errors
/// Want of memory.
pub fn put_image<C: Fetch>(
    out: &mut Vec<u8>,
    set: &TraceSet,
    compiled: Compiled,
    entries: &[(u32, u32)],
    code: &C,
    exits: &[ExitRow],
    changes: &[Change],
) -> Result<(), AllocError>
    ensures { (im : Printed) → IsPrinted im compiled entries.now (C.code code.now) exits.now changes.now → OnOk result (out.new.items ≡ out.old.items ++ image_text set.now im) }
{
    let bytes = appended(*out.allocator(), code, changes)?;
    put_parted(
        out,
        set,
        compiled,
        entries,
        bytes.as_slice(),
        exits,
        changes,
    )
}
