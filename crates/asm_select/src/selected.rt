// The instructions of a piece.
#![tactic(auto)]

ghost use Rattle.std.specs.Prelude.{◌≡◌, ◌+◌, ◌<◌, ◌^◌, length, IfOk};
ghost use Rattle.asm_select.specs.Drafting.{setting};
ghost use Rattle.asm_select.specs.Selecting.{CanSelect, AllTell, IsCodeOf, IsSelected};
ghost use Rattle.asm_select.specs.Fitting.{IsShort};

use crate::context::Context;
use crate::draft::Draft;
use crate::known_table::KnownTable;
use crate::plan::plan_moves;
use crate::told::{Told, told_by};
use linear_scan::{Live, Places, boxes_live, numbered_boxes_are_defined, ranges};
use std::alloc::{AllocError, Global};
use target_base::Place;
use trace_ops::{List, OptOp, Piece, TraceSet};
use x64_encode::{Instr, spellings_are_short};

/// Instructions; the first instruction of each operation; and (instruction, operation) of each jump whose target is
/// still to be set.
#[derive(Drop)]
pub struct Selected {
    pub instrs: List<Instr>,
    pub starts: List<u32>,
    pub jumps: List<(u32, u32)>,
}

// The instructions of operations, one behind the other.
fn choose(alloc: Global, c: &Context, lives: &[Live], ops: &[OptOp]) -> Result<Selected, AllocError>
    requires few { length ops.now + 1 < 2 ^ 32 }
    requires tell { AllTell lives.now ops.now }
    ensures { IfOk result (λ s. IsCodeOf (setting c.now) ops.now s) }
{
    let mut draft = Draft::new(alloc);
    let mut told = Told::Nothing;
    for k in 0..ops.len() {
        let rest = ops.split_at(k + 1).1;
        draft.add(c, lives, k as u32, told, &ops[k], rest)?;
        told = told_by(&ops[k], rest);
    }
    Ok(draft.finish())
}

/// The instructions of a sound piece of a set, over the places that [`linear_scan::allocate`] gave for it. `to` has the
/// places of the label to which its jump goes, and is empty without a jump: they are distinct, registers for values or
/// frame words from 16 on, and these and those of `places` are together at most 1,048,320. A finish is a jump to its
/// exit's stub. With the stubs of its exits, a piece has at most 32 bytes for each unit of its size. Takes time linear in
/// the piece and in the table.
pub fn select(
    alloc: Global,
    set: &TraceSet,
    piece: &Piece,
    places: &Places,
    to: &[Place],
) -> Result<Selected, AllocError>
    requires { CanSelect set.now piece.now places.now to.now }
    ensures code { IfOk result (λ s. IsSelected set.now piece.now places.now to.now s) }
    ensures short { IfOk result (λ s. IsShort set.now piece.now s) }
{
    numbered_boxes_are_defined();
    boxes_live();
    spellings_are_short();
    let at = places.at.items();
    let ops = piece.ops.items();
    let lives = ranges(alloc, piece)?;
    let plan = plan_moves(alloc, at, to, ops)?;
    let table = KnownTable::new(alloc, &set.table)?;
    let context = Context {
        table: &table,
        at,
        to,
        plan: &plan,
    };
    choose(alloc, &context, &lives, ops)
}
