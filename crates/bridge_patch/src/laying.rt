// The code and the rows of all pieces of loops, one behind the other.
#![tactic(auto)]

ghost use Rattle.std.specs.Prelude.{◌≡◌, ℕ, ◌+◌, ◌*◌, ◌<◌, ◌≤◌, ◌^◌, ◌++◌, map, length, IfOk, OnOk};
ghost use Rattle.trace_ops.specs.Pieces.{size_of};
ghost use Rattle.asm_select.specs.Given.{where_in};
ghost use Rattle.code_layout.specs.Emitting.{noted, listed};
ghost use Rattle.bridge_patch.specs.Pieces.{exits_in, place_among, rows_from, spelled};
ghost use Rattle.bridge_patch.specs.Laid.{IsLaid};
ghost use Rattle.std.specs.Borrow.{Bor};
ghost use Rattle.trace_ops.specs.declared.piece.Piece.{Piece};
ghost use Rattle.guard_exit.specs.Codes.{common_code};
ghost use Rattle.resume_numbering.specs.Conditions.{CanNumber};
ghost use Rattle.bridge_patch.specs.Planning.{IsReady, StartsBelow, start_listed, starts_of, targets_from, laid_bytes, IsHereOf, can_all, room_for};

use crate::image::PieceHere;
use crate::layout::{exits_in, lay_out, targets};
use crate::plan::Plan;
use crate::planning::plan_all;
use crate::rows::{add_rows, displacements};
use asm_select::{exits_have_rows, labels_serve};
use code_layout::{Draft, slots_are_emitted};
use guard_exit::{ExitRow, common_exit};
use resume_numbering::{number, sound_pieces_can_be_numbered};
use std::alloc::{AllocError, Global};
use trace_ops::{Piece, PieceId, TraceSet};
use x64_encode::spellings_are_short;

// Adds the code and the rows of a piece that is planned to begin here.
pub(crate) fn add_piece(
    alloc: Global,
    draft: &mut Draft,
    rows: &mut Vec<ExitRow>,
    starts: &[(PieceId, u32)],
    plan: &Plan,
    piece: &Piece,
) -> Result<(), AllocError>
    requires ready { IsReady piece.now plan.now }
    requires starts { StartsBelow starts.now }
    requires place { draft.old.from + length draft.old.bytes.items ≡ plan.now.at }
    requires room { plan.now.at + 64 + 32 * size_of piece.now + 64 < 2 ^ 31 }
    requires few { 16 * plan.now.exit ≤ plan.now.at }
    ensures from { draft.new.from ≡ draft.old.from }
    ensures bytes { OnOk result (draft.new.bytes.items ≡ draft.old.bytes.items ++ laid_bytes plan.now.at (listed (targets_from (start_listed starts.now) plan.now.stubs piece.now.ops)) plan.now (exits_in piece.now.ops)) }
    ensures rows { OnOk result (rows.new.items ≡ rows.old.items ++ rows_from (where_in plan.now.places.at) plan.now.id (λ k. place_among k 0 (noted plan.now.start 0 plan.now.selected.instrs plan.now.selected.jumps)) plan.now.exit 0 piece.now.ops) }
{
    spellings_are_short();
    let ops = piece.ops.items();
    let exits = exits_in(ops);
    let to = targets(alloc, starts, plan.stubs, ops)?;
    lay_out(draft, plan, &to, exits)?;
    let ats = displacements(alloc, &draft.jumps, ops.len())?;
    add_rows(alloc, rows, plan, ops, &ats)?;
    Ok(())
}

// How many bytes the common exit has.
const COMMON_BYTES: u32 = 49;

// The bytes of the code, the rows of exits, and what is kept of each piece.
#[derive(Drop)]
pub(crate) struct Laid {
    pub(crate) bytes: Vec<u8>,
    pub(crate) exits: Vec<ExitRow>,
    pub(crate) pieces: Vec<PieceHere>,
}

// The code of the common exit.
fn common_draft(alloc: Global) -> Result<Draft, AllocError>
    ensures from { IfOk result (λ draft. draft.from ≡ 0) }
    ensures bytes { IfOk result (λ draft. draft.bytes.items ≡ spelled common_code) }
{
    exits_have_rows();
    let common = common_exit(alloc)?;
    let mut draft = Draft {
        from: 0,
        bytes: Vec::new(alloc),
        jumps: Vec::new(alloc),
    };
    draft.add_all(common.items(), &[], &[])?;
    Ok(draft)
}

// What is kept of a piece that is laid out as it is planned.
pub(crate) fn here_of(alloc: Global, plan: &Plan, piece: &Piece) -> Result<PieceHere, AllocError>
    requires { CanNumber piece.now }
    ensures { IfOk result (λ here. IsHereOf piece.now plan.now here) }
{
    let label = plan.label.copy()?;
    let table = number(alloc, piece)?;
    Ok(PieceHere {
        id: plan.id,
        at: plan.at,
        start: plan.start,
        label,
        table,
    })
}

// Where the pieces start that are planned.
fn starts_of(alloc: Global, plans: &[Plan]) -> Result<Vec<(PieceId, u32)>, AllocError>
    ensures { IfOk result (λ starts. starts.items ≡ starts_of plans.now) }
{
    let mut starts = Vec::new(alloc);
    for plan in plans {
        starts.push((plan.id, plan.start))?;
    }
    Ok(starts)
}

// The pieces of loops, laid out behind the common exit.
pub(crate) fn lay_out_all(
    alloc: Global,
    set: &TraceSet,
    pieces: &[&Piece],
    registers: u8,
) -> Result<Laid, AllocError>
    requires can { can_all set.now registers (map (λ (b : Bor Piece). b.now) pieces.now) }
    requires room { 49 + room_for (map (λ (b : Bor Piece). b.now) pieces.now) < 2 ^ 30 }
    ensures { IfOk result (λ laid. IsLaid set.now registers (map (λ (b : Bor Piece). b.now) pieces.now) laid) }
{
    sound_pieces_can_be_numbered();
    slots_are_emitted();
    labels_serve();
    let plans = plan_all(alloc, set, pieces, registers, COMMON_BYTES)?;
    let starts = starts_of(alloc, &plans)?;
    let mut draft = common_draft(alloc)?;
    let mut exits = Vec::new(alloc);
    let mut heres = Vec::new(alloc);
    for k in 0..pieces.len() {
        let piece = pieces[k];
        add_piece(alloc, &mut draft, &mut exits, &starts, &plans[k], piece)?;
        heres.push(here_of(alloc, &plans[k], piece)?)?;
    }
    Ok(Laid {
        bytes: draft.bytes,
        exits,
        pieces: heres,
    })
}
