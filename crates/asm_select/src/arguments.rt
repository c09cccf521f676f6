// Instructions that move a jump's arguments, and a call's.
#![tactic(auto)]

ghost use Rattle.std.specs.Prelude.{◌≡◌, ◌++◌, ◌∷◌, [], OnOk};
ghost use Rattle.guard_exit.specs.Codes.{register};
ghost use Rattle.target_base.specs.declared.place.Place.TheVariants.{In, Word};
ghost use Rattle.asm_select.specs.declared.operand.Operand.TheVariants.{Imm};
ghost use Rattle.asm_select.specs.Chosen.{load_code, put_code, reg_or, copy_code, swap_by, swap_code, move_code, moves_code, set_code, set_operand, constants_code, operand_of};
ghost use Rattle.asm_select.specs.Drafting.{setting};

use crate::context::Context;
use crate::moves::{frame_mem, push, push_load, push_put, reg_or};
use crate::operand::Operand;
use parallel_move::Move;
use std::alloc::AllocError;
use target_base::{Place, Reg};
use trace_ops::Arg;
use x64_encode::Instr;

// By r11 where both are words.
fn push_copy(out: &mut Vec<Instr>, target: Place, source: Place) -> Result<(), AllocError>
    ensures { OnOk result (out.new.items ≡ out.old.items ++ copy_code target source) }
{
    match target {
        Place::In(r) => push_load(out, r, source),
        Place::Word(_) => push_copy_word(out, target, source),
    }
}

fn push_copy_word(out: &mut Vec<Instr>, target: Place, source: Place) -> Result<(), AllocError>
    ensures { OnOk result (out.new.items ≡ out.old.items ++ (load_code (reg_or 11 source) source ++ put_code target (reg_or 11 source))) }
{
    let w = reg_or(11, source);
    push_load(out, w, source)?;
    push_put(out, target, w)
}

// By r11, and by r15 too where both are words.
fn push_swap_by(out: &mut Vec<Instr>, one: Place, other: Place) -> Result<(), AllocError>
    ensures { OnOk result (out.new.items ≡ out.old.items ++ swap_by one other) }
{
    let w = reg_or(15, one);
    push_load(out, Reg(11), other)?;
    push_load(out, w, one)?;
    push_put(out, other, w)?;
    push_put(out, one, Reg(11))
}

fn push_exchange(out: &mut Vec<Instr>, a: Reg, b: Reg) -> Result<(), AllocError>
    ensures { OnOk result (out.new.items ≡ out.old.items ++ swap_code (In a) (In b)) }
{
    if a.0 == b.0 {
        Ok(())
    } else {
        push(out, Instr::Xchg(a, b))
    }
}

fn push_swap(out: &mut Vec<Instr>, one: Place, other: Place) -> Result<(), AllocError>
    ensures { OnOk result (out.new.items ≡ out.old.items ++ swap_code one other) }
{
    match (one, other) {
        (Place::In(a), Place::In(b)) => push_exchange(out, a, b),
        (Place::In(_), Place::Word(_)) => push_swap_by(out, one, other),
        (Place::Word(_), Place::In(_)) => push_swap_by(out, other, one),
        (Place::Word(_), Place::Word(_)) => push_swap_by(out, one, other),
    }
}

fn push_move(out: &mut Vec<Instr>, m: Move) -> Result<(), AllocError>
    ensures { OnOk result (out.new.items ≡ out.old.items ++ move_code m) }
{
    match m {
        Move::Copy(target, source) => push_copy(out, target, source),
        Move::Swap(one, other) => push_swap(out, one, other),
    }
}

fn push_moves(out: &mut Vec<Instr>, moves: &[Move]) -> Result<(), AllocError>
    ensures { OnOk result (out.new.items ≡ out.old.items ++ moves_code moves.now) }
{
    for m in moves {
        push_move(out, *m)?;
    }
    Ok(())
}

// A constant comes to a place, by r11 where it has no room in the instruction.
fn push_set(out: &mut Vec<Instr>, target: Place, v: i64) -> Result<(), AllocError>
    ensures { OnOk result (out.new.items ≡ out.old.items ++ set_code target v) }
{
    match target {
        Place::In(r) => push(out, Instr::MovImm(r, v)),
        Place::Word(k) => push_set_word(out, k, v),
    }
}

fn push_set_word(out: &mut Vec<Instr>, k: u32, v: i64) -> Result<(), AllocError>
    ensures { OnOk result (out.new.items ≡ out.old.items ++ set_code (Word k) v) }
{
    let mem = frame_mem(k)?;
    if let Ok(short) = i32::try_from(v) {
        push(out, Instr::StoreImm(mem, short))
    } else {
        push(out, Instr::MovImm(Reg(11), v))?;
        push(out, Instr::Store(mem, Reg(11)))
    }
}

fn push_operand(out: &mut Vec<Instr>, target: Place, o: Operand) -> Result<(), AllocError>
    ensures { OnOk result (out.new.items ≡ out.old.items ++ set_operand target o) }
{
    match o {
        Operand::At(_) => Ok(()),
        Operand::Imm(v) => push_set(out, target, v),
    }
}

fn push_arg(out: &mut Vec<Instr>, c: &Context, target: Place, arg: Arg) -> Result<(), AllocError>
    ensures { OnOk result (out.new.items ≡ out.old.items ++ set_operand target (operand_of (setting c.now) arg)) }
{
    let o = c.operand(arg)?;
    push_operand(out, target, o)
}

// The constants among the arguments, each at its target.
fn push_constants(
    out: &mut Vec<Instr>,
    c: &Context,
    args: &[Arg],
    targets: &[Place],
) -> Result<(), AllocError>
    ensures { OnOk result (out.new.items ≡ out.old.items ++ constants_code (setting c.now) args.now targets.now) }
{
    for k in 0..args.len() {
        if k < targets.len() {
            push_arg(out, c, targets[k], args[k])?;
        }
    }
    Ok(())
}

/// Those of the arguments that stand at places are moved, all at once; then constants are set.
pub fn push_args(
    out: &mut Vec<Instr>,
    c: &Context,
    moves: &[Move],
    args: &[Arg],
    targets: &[Place],
) -> Result<(), AllocError>
    ensures { OnOk result (out.new.items ≡ out.old.items ++ (moves_code moves.now ++ constants_code (setting c.now) args.now targets.now)) }
{
    push_moves(out, moves)?;
    push_constants(out, c, args, targets)
}
