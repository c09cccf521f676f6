// Instructions that bring words to registers and places, and operations of a register with an operand.
#![tactic(auto)]

ghost use Rattle.std.specs.Prelude.{◌≡◌, ◌++◌, ◌∷◌, [], IfOk, OnOk};
ghost use Rattle.asm_select.specs.Chosen.{same_place, stands_at, reg_or, home_of, load_code, take_code, put_code, alu_code, product_code, arith_code, work_of};
ghost use Rattle.guard_exit.specs.Codes.{register, frame_mem};

use crate::form::Arith;
use crate::operand::Operand;
use crate::table_numbers::as_short;
use std::alloc::AllocError;
use target_base::{Place, Reg};
use x64_encode::{AluOp, Instr, Mem};

/// Appends an instruction.
pub fn push(out: &mut Vec<Instr>, i: Instr) -> Result<(), AllocError>
    ensures { OnOk result (out.new.items ≡ out.old.items ++ i ∷ []) }
{
    out.push(i)?;
    Ok(())
}

fn same_place(one: Place, other: Place) -> bool
    ensures { result ≡ same_place one other }
{
    match (one, other) {
        (Place::In(a), Place::In(b)) => a.0 == b.0,
        (Place::Word(j), Place::Word(k)) => j == k,
        _ => false,
    }
}

/// Whether the operand stands at the place.
pub fn stands_at(d: Place, b: Operand) -> bool
    ensures { result ≡ stands_at d b }
{
    match b {
        Operand::At(place) => same_place(d, place),
        Operand::Imm(_) => false,
    }
}

/// The place's own register, or this one for a frame word.
pub fn reg_or(n: u8, place: Place) -> Reg
    ensures { result ≡ reg_or n place }
{
    match place {
        Place::In(r) => r,
        Place::Word(_) => Reg(n),
    }
}

/// The operand's own register, or this one.
pub fn home_of(n: u8, o: Operand) -> Reg
    ensures { result ≡ home_of n o }
{
    match o {
        Operand::At(place) => reg_or(n, place),
        Operand::Imm(_) => Reg(n),
    }
}

/// The register in which a result is made.
pub fn work_of(d: Place, b: Operand) -> Reg
    ensures { result ≡ work_of d b }
{
    if stands_at(d, b) {
        Reg(11)
    } else {
        reg_or(11, d)
    }
}

/// A frame word, as rbp leads to word 16.
pub fn frame_mem(k: u32) -> Result<Mem, AllocError>
    ensures { IfOk result (λ m. m ≡ frame_mem k) }
{
    let at = as_short(8 * i64::from(k) - 128)?;
    Ok(Mem::At(Reg(5), at))
}

/// Brings a place into a register.
pub fn push_load(out: &mut Vec<Instr>, w: Reg, place: Place) -> Result<(), AllocError>
    ensures { OnOk result (out.new.items ≡ out.old.items ++ load_code w place) }
{
    match place {
        Place::In(r) => if r.0 == w.0 {
            Ok(())
        } else {
            push(out, Instr::MovReg(w, r))
        },
        Place::Word(k) => {
            let mem = frame_mem(k)?;
            push(out, Instr::Load(w, mem))
        }
    }
}

/// Brings an operand into a register.
pub fn push_take(out: &mut Vec<Instr>, w: Reg, o: Operand) -> Result<(), AllocError>
    ensures { OnOk result (out.new.items ≡ out.old.items ++ take_code w o) }
{
    match o {
        Operand::At(place) => push_load(out, w, place),
        Operand::Imm(v) => push(out, Instr::MovImm(w, v)),
    }
}

/// Brings a register to a place.
pub fn push_put(out: &mut Vec<Instr>, d: Place, w: Reg) -> Result<(), AllocError>
    ensures { OnOk result (out.new.items ≡ out.old.items ++ put_code d w) }
{
    match d {
        Place::In(r) => if r.0 == w.0 {
            Ok(())
        } else {
            push(out, Instr::MovReg(r, w))
        },
        Place::Word(k) => {
            let mem = frame_mem(k)?;
            push(out, Instr::Store(mem, w))
        }
    }
}

/// An operation of a register with an operand.
pub fn push_alu(out: &mut Vec<Instr>, op: AluOp, w: Reg, b: Operand) -> Result<(), AllocError>
    ensures { OnOk result (out.new.items ≡ out.old.items ++ alu_code op w b) }
{
    match b {
        Operand::At(place) => push_place_alu(out, op, w, place),
        Operand::Imm(v) => push_const_alu(out, op, w, v),
    }
}

fn push_place_alu(out: &mut Vec<Instr>, op: AluOp, w: Reg, place: Place) -> Result<(), AllocError>
    ensures { OnOk result (out.new.items ≡ out.old.items ++ alu_code op w (Operand.At place)) }
{
    let h = reg_or(15, place);
    push_load(out, h, place)?;
    push(out, Instr::Alu(op, w, h))
}

fn push_const_alu(out: &mut Vec<Instr>, op: AluOp, w: Reg, v: i64) -> Result<(), AllocError>
    ensures { OnOk result (out.new.items ≡ out.old.items ++ alu_code op w (Operand.Imm v)) }
{
    if let Ok(short) = i32::try_from(v) {
        push(out, Instr::AluImm(op, w, short))
    } else {
        push(out, Instr::MovImm(Reg(15), v))?;
        push(out, Instr::Alu(op, w, Reg(15)))
    }
}

fn push_product(out: &mut Vec<Instr>, w: Reg, b: Operand) -> Result<(), AllocError>
    ensures { OnOk result (out.new.items ≡ out.old.items ++ product_code w b) }
{
    let h = home_of(15, b);
    push_take(out, h, b)?;
    push(out, Instr::Imul(w, h))
}

/// The sum, product or the like of a register and an operand, in the register.
pub fn push_arith(out: &mut Vec<Instr>, m: Arith, w: Reg, b: Operand) -> Result<(), AllocError>
    ensures { OnOk result (out.new.items ≡ out.old.items ++ arith_code m w b) }
{
    match m {
        Arith::By(op) => push_alu(out, op, w, b),
        Arith::Product => push_product(out, w, b),
    }
}
