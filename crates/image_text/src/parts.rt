//! Writes what attachments appended and patched.
ghost use Rattle.std.specs.Prelude.{◌≡◌, ◌++◌, take, drop, OnOk};
ghost use Rattle.image_text.specs.Texts.{patch_text, attach_text};
ghost use Rattle.image_text.specs.Parted.{run_of, changed_patches, change_text, changes_text};

use crate::exits::put_exits;
use crate::hex_lines::put_hex;
use crate::puts::put_told;
use bridge_patch::Change;
use guard_exit::ExitRow;
use std::alloc::AllocError;
use text_lines::put_integer;
use trace_ops::TraceSet;
use trace_text::trace_name;

/// The first so many, and those behind; all and none where there are fewer.
pub fn parted<T>(items: &[T], count: usize) -> (&[T], &[T])
    ensures front { result.0.now ≡ take count items.now }
    ensures behind { result.1.now ≡ drop count items.now }
{
    if items.len() < count {
        return (items, &[]);
    }
    items.split_at(count)
}

// How many rows in front are of this trace.
fn run_of(bridge: u32, rows: &[ExitRow]) -> usize
    ensures { result ≡ run_of bridge rows.now }
{
    for k in 0..rows.len() {
        if rows[k].id.trace != bridge {
            return k;
        }
    }
    rows.len()
}

#[tactic(auto, unfolding(crate::specs::Texts::patch_text))]
fn put_patch(out: &mut Vec<u8>, at: u32, value: i32) -> Result<(), AllocError>
    ensures { OnOk result (out.new.items ≡ out.old.items ++ patch_text at value) }
{
    put_told(out, b"patch ", u64::from(at))?;
    out.push(b' ')?;
    put_integer(out, i64::from(value))?;
    out.push(b'\n')?;
    Ok(())
}

fn put_patches(out: &mut Vec<u8>, patches: &[(u32, i32, i32)]) -> Result<(), AllocError>
    ensures { OnOk result (out.new.items ≡ out.old.items ++ changed_patches patches.now) }
{
    for patch in patches {
        put_patch(out, patch.0, patch.2)?;
    }
    Ok(())
}

#[tactic(auto, unfolding(crate::specs::Texts::attach_text))]
fn put_attach(out: &mut Vec<u8>, name: &[u8], at: u32, count: usize) -> Result<(), AllocError>
    ensures { OnOk result (out.new.items ≡ out.old.items ++ attach_text name.now at count) }
{
    out.extend_from_slice(b"attach ")?;
    out.extend_from_slice(name)?;
    put_told(out, b" from ", u64::from(at))?;
    put_told(out, b" ", count as u64)?;
    out.push(b'\n')?;
    Ok(())
}

#[tactic(auto, unfolding(crate::specs::Parted::change_text))]
fn put_change(
    out: &mut Vec<u8>,
    set: &TraceSet,
    change: &Change,
    bytes: &[u8],
    rows: &[ExitRow],
) -> Result<(), AllocError>
    ensures { OnOk result (out.new.items ≡ out.old.items ++ change_text set.now change.now bytes.now rows.now) }
{
    put_attach(
        out,
        trace_name(set, change.bridge),
        change.from,
        bytes.len(),
    )?;
    put_hex(out, bytes)?;
    put_exits(out, set, rows)?;
    put_patches(out, change.patches.items())
}

/// Adds what each attachment appended and patched; `bytes` are those that were appended, and `rows` the exits, part by part.
pub fn put_changes(
    out: &mut Vec<u8>,
    set: &TraceSet,
    bytes: &[u8],
    rows: &[ExitRow],
    changes: &[Change],
) -> Result<(), AllocError>
    ensures { OnOk result (out.new.items ≡ out.old.items ++ changes_text set.now bytes.now rows.now changes.now) }
{
    let mut rest = bytes;
    let mut later = rows;
    for change in changes {
        let (appended, more) = parted(rest, change.len as usize);
        let (exits, others) = parted(later, run_of(change.bridge, later));
        put_change(out, set, change, appended, exits)?;
        rest = more;
        later = others;
    }
    Ok(())
}
