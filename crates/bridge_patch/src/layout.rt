// The code of a piece that is planned: what stands in front, its operations, and the stubs of its exits.
#![tactic(auto)]

ghost use Rattle.std.specs.Prelude.{◌≡◌, ℕ, ◌+◌, ◌*◌, ◌<◌, ◌≤◌, ◌^◌, ◌++◌, ◌∷◌, [], length, All, IfOk, OnOk, if◌then◌else◌};
ghost use Rattle.guard_exit.specs.Codes.{stub_code};
ghost use Rattle.code_layout.specs.Leading.{way};
ghost use Rattle.code_layout.specs.Emitting.{AllHaveRows, KeysBelow, total_size, emitted, noted, listed};
ghost use Rattle.asm_select.specs.Laid.{has_stub};
ghost use Rattle.bridge_patch.specs.Pieces.{exits_in, spelled, stubs_from};
ghost use Rattle.bridge_patch.specs.Planning.{start_listed, target_of, targets_from, StartsBelow, laid_bytes};

use crate::plan::Plan;
use asm_select::exits_have_rows;
use code_layout::Draft;
use guard_exit::stub;
use std::alloc::{AllocError, Global};
use trace_ops::{OptOp, PieceId};
use x64_encode::Instr;

// Whether an operation has an exit: 1 or 0.
pub(crate) fn exit_count(op: &OptOp) -> u32
    ensures { result ≡ (if has_stub op.now then 1 else 0) }
{
    match op {
        OptOp::Guard { .. } | OptOp::Exit { .. } | OptOp::Finish { .. } => 1,
        OptOp::Plain { .. } | OptOp::Jump { .. } => 0,
    }
}

// How many of the operations have an exit.
pub(crate) fn exits_in(ops: &[OptOp]) -> u32
    requires { length ops.now < 2 ^ 32 }
    ensures { result ≡ exits_in ops.now }
{
    let mut count = 0;
    for op in ops {
        count += exit_count(op);
    }
    count
}

// Where the first operation of the piece of this name stands, by pairs of names and places.
fn start_listed(starts: &[(PieceId, u32)], id: PieceId) -> u32
    ensures { result ≡ start_listed starts.now id }
{
    for start in starts {
        if id == start.0 {
            return start.1;
        }
    }
    0
}

// Where the jump of an operation leads, whose stub is at this place if it has one.
fn target_of(starts: &[(PieceId, u32)], stub: u32, op: &OptOp) -> u32
    ensures { result ≡ target_of (start_listed starts.now) stub op.now }
{
    match op {
        OptOp::Plain { .. } => 0,
        OptOp::Jump { to, .. } => start_listed(starts, *to),
        OptOp::Guard { .. } | OptOp::Exit { .. } | OptOp::Finish { .. } => stub,
    }
}

// Where the jump of each operation leads, the first stub being at this place.
pub(crate) fn targets(
    alloc: Global,
    starts: &[(PieceId, u32)],
    stubs: u32,
    ops: &[OptOp],
) -> Result<Vec<u32>, AllocError>
    requires { stubs + 16 * exits_in ops.now < 2 ^ 31 }
    ensures { IfOk result (λ to. to.items ≡ targets_from (start_listed starts.now) stubs ops.now) }
{
    let mut to = Vec::new(alloc);
    let mut stub = stubs;
    for op in ops {
        to.push(target_of(starts, stub, op))?;
        stub += 16 * exit_count(op);
    }
    Ok(to)
}

// The stub of an exit, which ends at this place.
fn stub_before(exit: u32, end: u32) -> [Instr; 3]
    requires { end < 2 ^ 31 }
    ensures { result ≡ stub_code (way end 0) exit }
{
    let mut code = stub(exit);
    code[2] = Instr::Jmp(-(end as i32));
    code
}

// Adds so many stubs, the first of them that of this exit.
fn add_stubs(draft: &mut Draft, exit: u32, count: u32) -> Result<(), AllocError>
    requires few { exit + count < 2 ^ 31 }
    requires room { draft.old.from + length draft.old.bytes.items + 16 * count + 64 < 2 ^ 31 }
    ensures from { draft.new.from ≡ draft.old.from }
    ensures bytes { OnOk result (draft.new.bytes.items ≡ draft.old.bytes.items ++ spelled (stubs_from (draft.old.from + length draft.old.bytes.items) exit count)) }
    ensures jumps { OnOk result (draft.new.jumps.items ≡ draft.old.jumps.items) }
{
    exits_have_rows();
    for k in 0..count {
        let end = draft.from + draft.bytes.len() as u32 + 16;
        draft.add_all(&stub_before(exit + k, end), &[], &[])?;
    }
    Ok(())
}

// Adds the code of a piece, whose operations' jumps lead to these places; the places of their displacements are noted.
pub(crate) fn lay_out(
    draft: &mut Draft,
    plan: &Plan,
    to: &[u32],
    exits: u32,
) -> Result<(), AllocError>
    requires front { AllHaveRows plan.now.front }
    requires rows { AllHaveRows plan.now.selected.instrs }
    requires keys { KeysBelow (length to.now) plan.now.selected.jumps }
    requires near { All (λ place. place < 2 ^ 31) to.now }
    requires short { (length plan.now.front < 2 ^ 27) × (length plan.now.selected.instrs < 2 ^ 27) }
    requires room { draft.old.from + length draft.old.bytes.items + total_size plan.now.front + total_size plan.now.selected.instrs + 16 * exits + 64 < 2 ^ 31 }
    requires few { plan.now.exit + exits < 2 ^ 31 }
    ensures from { draft.new.from ≡ draft.old.from }
    ensures bytes { OnOk result (draft.new.bytes.items ≡ draft.old.bytes.items ++ laid_bytes (draft.old.from + length draft.old.bytes.items) (listed to.now) plan.now exits) }
    ensures jumps { OnOk result (draft.new.jumps.items ≡ noted (draft.old.from + length draft.old.bytes.items + total_size plan.now.front) 0 plan.now.selected.instrs plan.now.selected.jumps) }
{
    draft.jumps.clear();
    draft.add_all(plan.front.items(), &[], to)?;
    draft.add_all(
        plan.selected.instrs.items(),
        plan.selected.jumps.items(),
        to,
    )?;
    add_stubs(draft, plan.exit, exits)?;
    Ok(())
}
