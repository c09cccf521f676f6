//! Undoes patches: the bytes of code as they were appended.
ghost use Rattle.std.specs.Prelude.{◌≡◌, ◌+◌, ◌≤◌, length};
ghost use Rattle.image_runs.specs.Printed.{patched};
ghost use Rattle.image_text.specs.Undone.{put_back, all_undone, changes_undone};

use bridge_patch::Change;
use byteorder::{ByteOrder, LittleEndian};

// Four bytes at a place are this displacement.
fn patch(bytes: &mut [u8], at: usize, displacement: i32)
    requires { at + 4 ≤ length bytes.old }
    ensures { bytes.new ≡ patched at displacement bytes.old }
{
    let mut four = [0; 4];
    LittleEndian::write_i32(&mut four, displacement);
    bytes[at..at + 4].copy_from_slice(&four);
}

// The displacement at a place is again what it was, if it lies in the code.
#[tactic(auto, unfolding(crate::specs::Undone::put_back))]
fn put_back(bytes: &mut [u8], at: u32, before: i32)
    ensures { bytes.new ≡ put_back at before bytes.old }
{
    let at = at as usize;
    if at + 4 <= bytes.len() {
        patch(bytes, at, before);
    }
}

// Undoes patches, the last one first.
fn undo_all(bytes: &mut [u8], patches: &[(u32, i32, i32)])
    ensures { bytes.new ≡ all_undone patches.now bytes.old }
{
    match patches {
        [] => {}
        [first, more @ ..] => {
            undo_all(bytes, more);
            put_back(bytes, first.0, first.1);
        }
    }
}

/// Undoes the patches of changes, those of the last one first: each byte is again what it was when it was appended.
pub fn undo_changes(bytes: &mut [u8], changes: &[Change])
    ensures { bytes.new ≡ changes_undone changes.now bytes.old }
{
    match changes {
        [] => {}
        [first, more @ ..] => {
            undo_changes(bytes, more);
            undo_all(bytes, first.patches.items());
        }
    }
}
