//! The image of a trace set.
#![tactic(auto)]

ghost use Rattle.std.specs.Prelude.{◌≡◌, ◌≢◌, ◌<◌, ◌^◌, List as Items, [], length, map, IfOk, IfErr, OnOk, OnErr, IfSome, IfNone};
ghost use Rattle.std.specs.List.{All, Contains};
ghost use Rattle.opt_meaning.specs.Pieces.{all_pieces, preamble};
ghost use Rattle.bridge_patch.specs.declared.image.PieceHere.{PieceHere};
ghost use Rattle.bridge_patch.specs.Pieces.{Placed};
ghost use Rattle.bridge_patch.specs.Image.{CanCompile, IsImage, entry_in};
ghost use Rattle.bridge_patch.specs.Bridged.{IsBridge, LacksParent, IsRefused};
ghost use Rattle.bridge_patch.specs.Attached.{IsImageOf, AreOfBridge, CanAttach, IsChanged, IsGrown};

use crate::attaching::patches;
use crate::bridged::{Refusal, attachable, source_of};
use crate::bridging::lay_out_bridge;
use crate::flat::add_pieces;
use crate::laying::{Laid, lay_out_all};
use asm_select::labels_serve;
use code_layout::{chosen_jumps, jumps_are_patched, slots_are_emitted};
use code_region::Region;
use guard_exit::ExitRow;
use linear_scan::boxes_live;
use resume_numbering::ResumeTable;
use std::alloc::{AllocError, Global};
use std::marker::Model;
use target_base::Place;
use trace_ops::{Half, List, OptTrace, PieceId, TraceSet, same_piece_id};

/// What the attachment of a bridge changed: the place and the number of the bytes that were appended, and for each patch
/// the place of the displacement, and the displacement before and after it.
#[derive(Debug, PartialEq, Eq, Hash, Drop)]
pub struct Change {
    pub bridge: u32,
    pub from: u32,
    pub len: u32,
    pub patches: List<(u32, i32, i32)>,
}

/// A piece in the code: where what stands in front of it begins, where its first operation stands, the places of its label,
/// and what its guards need to go on.
#[derive(Debug, PartialEq, Eq, Hash, Drop)]
pub struct PieceHere {
    pub id: PieceId,
    pub at: u32,
    pub start: u32,
    pub label: List<Place>,
    pub table: ResumeTable,
}

/// The code of a set's pieces, with the rows of its exits.
#[derive(Drop)]
pub struct Image {
    pub(crate) alloc: Global,
    pub(crate) registers: u8,
    pub(crate) code: Region,
    pub(crate) pieces: Vec<PieceHere>,
    pub(crate) exits: Vec<ExitRow>,
    pub(crate) attached: Vec<u32>,
    pub(crate) changes: Vec<Change>,
}

impl Model for Image {
    ghost use Rattle.bridge_patch.specs.Image.{Imaged};

    ghost Value = { Imaged };

    ghost view = { λ m. record { registers = m.registers; bytes = m.code.bytes; pieces = m.pieces.items; exits = m.exits.items; attached = m.attached.items; changes = m.changes.items } };
}

// The image of code that is laid out, to which no bridge is attached.
fn assembled(alloc: Global, registers: u8, laid: Laid) -> Result<Image, AllocError>
    requires { length laid.bytes.items < 2 ^ 31 }
    ensures registers { IfOk result (λ image. image.registers ≡ registers) }
    ensures bytes { IfOk result (λ image. image.bytes ≡ laid.bytes.items) }
    ensures pieces { IfOk result (λ image. image.pieces ≡ laid.pieces.items) }
    ensures exits { IfOk result (λ image. image.exits ≡ laid.exits.items) }
    ensures attached { IfOk result (λ image. image.attached ≡ []) }
    ensures changes { IfOk result (λ image. image.changes ≡ []) }
{
    let mut code = Region::new(alloc)?;
    code.reserve(laid.bytes.len() as u32)?;
    code.append(&laid.bytes);
    let Laid { exits, pieces, .. } = laid;
    Ok(Image {
        alloc,
        registers,
        code,
        pieces,
        exits,
        attached: Vec::new(alloc),
        changes: Vec::new(alloc),
    })
}

impl Image {
    /// The image of the optimised loops of a set, in which each operation's box is in one of the first `registers` registers for
    /// values or in a frame word. The set is in range and not too heavy; there is one trace of pieces a loop, in order, with the
    /// loop's preamble and then its body or nothing; these are sound, lead to one another and keep no guard on an exception.
    pub fn compile(
        alloc: Global,
        set: &TraceSet,
        loops: &[OptTrace],
        registers: u8,
    ) -> Result<Image, AllocError>
        requires { CanCompile set.now loops.now registers }
        ensures image { IfOk result (λ image. IsImage set.now (all_pieces loops.now) image) }
        ensures placed { IfOk result (λ image. (placed : Items Placed) × (map (λ (pl : Placed). pl.piece) placed ≡ all_pieces loops.now) × IsImageOf set.now placed image) }
        ensures both { IfOk result (λ image. (z : IsImage set.now (all_pieces loops.now) image) × IsImageOf set.now z.placed image) }
        ensures registers { IfOk result (λ image. image.registers ≡ registers) }
        ensures attached { IfOk result (λ image. image.attached ≡ []) }
        ensures changes { IfOk result (λ image. image.changes ≡ []) }
    {
        let mut pieces = Vec::new(alloc);
        for one in loops {
            add_pieces(&mut pieces, one.pieces.items())?;
        }
        let laid = lay_out_all(alloc, set, &pieces, registers)?;
        let image = assembled(alloc, registers, laid)?;
        Ok(image)
    }

    /// Whether a bridge of the set may be attached: it isn't attached yet, and its parent is a loop or an attached bridge. The set
    /// is the one that was compiled.
    pub fn attachable(&self, set: &TraceSet, bridge: u32) -> Result<(), Refusal>
        requires { IsBridge set.now bridge }
        ensures ok { IfOk result (λ u. (¬ Contains self.now.attached bridge) × (¬ LacksParent set.now self.now.attached bridge)) }
        ensures err { IfErr result (λ e. IsRefused set.now self.now.attached bridge e) }
    {
        attachable(&self.attached, set, bridge)
    }

    /// Attaches the pieces of a bridge: their code is appended, and each copy of the guard is patched to lead in front of the piece of
    /// its half, where the guard's boxes are moved to the places of the label. The set is the one that was compiled, and the bridge is
    /// [`Image::attachable`]; there is one sound piece for each half in which the guard is kept, whose label has the guard's boxes,
    /// and each piece to which one of them jumps is in the image. All memory is taken first: where it is refused, the image is as
    /// before.
    pub fn attach(&mut self, set: &TraceSet, bridge: u32, opt: &OptTrace) -> Result<(), AllocError>
        requires { CanAttach set.now self.old bridge opt.now.pieces }
        ensures changed { OnOk result (IsChanged set.now bridge opt.now.pieces self.old self.new) }
        ensures placed { OnOk result ((placed : Items Placed) → IsImageOf set.now placed self.old → AreOfBridge set.now placed bridge opt.now.pieces → IsGrown set.now bridge opt.now.pieces placed self.old self.new) }
        ensures err { OnErr result (self.new ≡ self.old) }
    {
        boxes_live();
        labels_serve();
        slots_are_emitted();
        chosen_jumps();
        jumps_are_patched();
        let source = source_of(set, bridge);
        let laid = lay_out_bridge(self, set, source, opt.pieces.items())?;
        let patches = patches(
            self.alloc,
            &self.code,
            &self.exits,
            source,
            bridge,
            &laid.pieces,
        )?;
        self.extend(bridge, laid, patches)
    }

    /// The code: the common exit, and behind it the pieces.
    pub fn code(&self) -> &Region
        ensures { result.now.bytes ≡ self.now.bytes }
    {
        &self.code
    }

    /// The rows of all exits, by number.
    pub fn exits(&self) -> &[ExitRow]
        ensures { result.now ≡ self.now.exits }
    {
        self.exits.as_slice()
    }

    /// The attached bridges, in order.
    pub fn attached(&self) -> &[u32]
        ensures { result.now ≡ self.now.attached }
    {
        self.attached.as_slice()
    }

    /// What each attachment changed.
    pub fn changes(&self) -> &[Change]
        ensures { result.now ≡ self.now.changes }
    {
        self.changes.as_slice()
    }

    /// Where the loop at this place of the set is entered.
    pub fn entry(&self, trace: u32) -> u32
        ensures { result ≡ entry_in self.now.pieces (preamble trace) }
    {
        let id = PieceId {
            trace,
            half: Half::Pre,
        };
        for here in self.pieces.as_slice() {
            if id == here.id {
                return here.at;
            }
        }
        0
    }

    /// What the guards of a piece need to go on. None exactly where that piece isn't in the image.
    pub fn resume(&self, id: PieceId) -> Option<&ResumeTable>
        ensures some { IfSome result (λ table. (here : PieceHere) × Contains self.now.pieces here × (here.id ≡ id) × (here.table ≡ table.now)) }
        ensures none { IfNone result (All (λ (here : PieceHere). here.id ≢ id) self.now.pieces) }
    {
        let here = self.pieces.iter().find(|here| same_piece_id(here.id, id))?;
        Some(&here.table)
    }
}
