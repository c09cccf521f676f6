// An attachment: what it changes, in memory that is all taken first.
#![tactic(auto)]

ghost use Rattle.std.specs.Prelude.{◌≡◌, ◌+◌, ◌<◌, ◌≤◌, ◌^◌, ◌++◌, ◌∷◌, [], length, IfOk, OnOk, OnErr};
ghost use Rattle.std.specs.Int.{to_le_bytes, cast_unsigned, w32};
ghost use Rattle.trace_ops.specs.declared.piece.PieceId.{PieceId as PieceName};
ghost use Rattle.code_layout.specs.Leading.{way};
ghost use Rattle.bridge_patch.specs.Attached.{StandsAt, IsPatch, begin_among, all_patched};
ghost use Rattle.bridge_patch.specs.Bridging.{ArePatches, AreWithin, PatchesWithin, copies_by};

use crate::bridged::is_copy;
use crate::image::{Change, Image, PieceHere};
use crate::laying::Laid;
use code_region::Region;
use guard_exit::ExitRow;
use std::alloc::{AllocError, Global};
use target_base::Fetch;
use trace_ops::{List, PieceId};

// The displacement of these bytes, the lowest first.
fn displacement_of(a: u8, b: u8, c: u8, d: u8) -> i32
    ensures { to_le_bytes w32 (cast_unsigned w32 result) ≡ a ∷ b ∷ c ∷ d ∷ [] }
{
    i32::from_le_bytes([a, b, c, d])
}

// The displacement whose bytes stand at a place.
fn displacement_at(code: &Region, at: u32) -> i32
    requires { at + 4 ≤ length code.now.bytes }
    ensures { StandsAt code.now.bytes at result }
{
    let mut bytes = [0u8; 16];
    let _count = code.fetch(at, &mut bytes);
    displacement_of(bytes[0], bytes[1], bytes[2], bytes[3])
}

// Where what stands in front of the piece of this name begins.
fn begin_among(heres: &[PieceHere], id: PieceId) -> u32
    ensures { result ≡ begin_among heres.now id }
{
    for here in heres {
        if id == here.id {
            return here.at;
        }
    }
    0
}

// The displacement of a jump, from the place behind it.
fn way(from: u32, to: u32) -> i32
    requires from { from < 2 ^ 31 }
    requires to { to < 2 ^ 31 }
    ensures { result ≡ way from to }
{
    to as i32 - from as i32
}

// The patch of a copy of a guard.
fn patch_of(code: &Region, row: &ExitRow, bridge: u32, heres: &[PieceHere]) -> (u32, i32, i32)
    requires within { row.now.at + 4 ≤ length code.now.bytes }
    requires small { length code.now.bytes < 2 ^ 31 }
    requires begins { (q : PieceName) → begin_among heres.now q < 2 ^ 31 }
    ensures { IsPatch bridge code.now.bytes heres.now row.now result }
{
    let id = PieceId {
        trace: bridge,
        half: row.id.half,
    };
    let before = displacement_at(code, row.at);
    let after = way(row.at + 4, begin_among(heres, id));
    (row.at, before, after)
}

// The patches of the copies of a guard, which lead to the bridge's pieces of the same halves.
pub(crate) fn patches(
    alloc: Global,
    code: &Region,
    rows: &[ExitRow],
    source: Option<(usize, u32)>,
    bridge: u32,
    heres: &[PieceHere],
) -> Result<List<(u32, i32, i32)>, AllocError>
    requires within { AreWithin (length code.now.bytes) (copies_by source rows.now) }
    requires small { length code.now.bytes < 2 ^ 31 }
    requires begins { (q : PieceName) → begin_among heres.now q < 2 ^ 31 }
    ensures { IfOk result (λ ps. ArePatches bridge code.now.bytes heres.now (copies_by source rows.now) ps) }
{
    let mut patches = Vec::new(alloc);
    for row in rows {
        if is_copy(source, row) {
            patches.push(patch_of(code, row, bridge, heres))?;
        }
    }
    Ok(List::of(patches))
}

// Makes patches, in order.
fn patch_all(code: &mut Region, patches: &[(u32, i32, i32)])
    requires { PatchesWithin (length code.old.bytes) patches.now }
    ensures bytes { code.new.bytes ≡ all_patched patches.now code.old.bytes }
{
    for patch in patches {
        code.patch4(patch.0, patch.2);
    }
}

impl Image {
    // Appends what is laid out and patches the copies of the guard, when all memory is there.
    pub(crate) fn extend(
        &mut self,
        bridge: u32,
        laid: Laid,
        patches: List<(u32, i32, i32)>,
    ) -> Result<(), AllocError>
        requires room { length self.old.bytes + length laid.bytes.items < 2 ^ 31 }
        requires within { PatchesWithin (length self.old.bytes + length laid.bytes.items) patches }
        ensures registers { self.new.registers ≡ self.old.registers }
        ensures bytes { OnOk result (self.new.bytes ≡ all_patched patches (self.old.bytes ++ laid.bytes.items)) }
        ensures exits { OnOk result (self.new.exits ≡ self.old.exits ++ laid.exits.items) }
        ensures pieces { OnOk result (self.new.pieces ≡ self.old.pieces ++ laid.pieces.items) }
        ensures attached { OnOk result (self.new.attached ≡ self.old.attached ++ bridge ∷ []) }
        ensures changes { OnOk result (self.new.changes ≡ self.old.changes ++ (record { bridge = bridge; from = length self.old.bytes; len = length laid.bytes.items; patches = patches }) ∷ []) }
        ensures err { OnErr result (self.new ≡ self.old) }
    {
        let Laid {
            bytes,
            mut exits,
            mut pieces,
        } = laid;
        let len = bytes.len() as u32;
        self.code.reserve(len)?;
        self.exits.reserve(exits.len())?;
        self.pieces.reserve(pieces.len())?;
        self.attached.reserve(1)?;
        self.changes.reserve(1)?;
        let from = self.code.append(&bytes);
        patch_all(&mut self.code, patches.items());
        let change = Change {
            bridge,
            from,
            len,
            patches,
        };
        let exits_in = self.exits.append(&mut exits).is_ok();
        let pieces_in = self.pieces.append(&mut pieces).is_ok();
        let attached_in = self.attached.push(bridge).is_ok();
        let change_in = self.changes.push(change).is_ok();
        prove!(exits_in && pieces_in && attached_in && change_in);
        Ok(())
    }
}
