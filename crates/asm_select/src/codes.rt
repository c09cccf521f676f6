// The instructions of operations of integers and references, appended to those before them.
#![tactic(auto)]

ghost use Rattle.std.specs.Prelude.{◌≡◌, ◌++◌, ◌∷◌, [], OnOk};
ghost use Rattle.trace_ops.specs.Words.{shift_of};
ghost use Rattle.guard_exit.specs.Codes.{register};
ghost use Rattle.asm_select.specs.Chosen.{reg_or, two_code, commuting_code, shift_code, truth_code, truth_unless, compare_code, test_code, clamp_code, one_code, unary_code, binary_code};

use crate::form::{Arith, Binary, Unary};
use crate::moves::{
    home_of, push, push_alu, push_arith, push_load, push_put, push_take, reg_or, stands_at, work_of,
};
use crate::operand::Operand;
use std::alloc::AllocError;
use target_base::{Place, Reg};
use x64_encode::{AluOp, Cc, Instr, ShiftOp};

fn push_two(
    out: &mut Vec<Instr>,
    m: Arith,
    d: Place,
    a: Operand,
    b: Operand,
) -> Result<(), AllocError>
    ensures { OnOk result (out.new.items ≡ out.old.items ++ two_code m d a b) }
{
    let w = work_of(d, b);
    push_take(out, w, a)?;
    push_arith(out, m, w, b)?;
    push_put(out, d, w)
}

fn push_commuting(
    out: &mut Vec<Instr>,
    m: Arith,
    d: Place,
    a: Operand,
    b: Operand,
) -> Result<(), AllocError>
    ensures { OnOk result (out.new.items ≡ out.old.items ++ commuting_code m d a b) }
{
    if stands_at(d, b) {
        push_two(out, m, d, b, a)
    } else {
        push_two(out, m, d, a, b)
    }
}

fn push_shift(
    out: &mut Vec<Instr>,
    op: ShiftOp,
    d: Place,
    a: Operand,
    b: Operand,
) -> Result<(), AllocError>
    ensures { OnOk result (out.new.items ≡ out.old.items ++ shift_code op d a b) }
{
    match b {
        Operand::Imm(v) => push_shift_by(out, op, d, a, v),
        Operand::At(place) => push_shift_cl(out, op, d, a, place),
    }
}

fn push_shift_by(
    out: &mut Vec<Instr>,
    op: ShiftOp,
    d: Place,
    a: Operand,
    v: i64,
) -> Result<(), AllocError>
    ensures { OnOk result (out.new.items ≡ out.old.items ++ shift_code op d a (Operand.Imm v)) }
{
    let w = reg_or(11, d);
    push_take(out, w, a)?;
    push(out, Instr::ShiftImm(op, w, low_six(v)))?;
    push_put(out, d, w)
}

// The low six bits.
fn low_six(v: i64) -> u8
    ensures { result ≡ shift_of v }
{
    (v.cast_unsigned() % 64) as u8
}

// By way of rcx, whose word r15 keeps meanwhile.
fn push_shift_cl(
    out: &mut Vec<Instr>,
    op: ShiftOp,
    d: Place,
    a: Operand,
    place: Place,
) -> Result<(), AllocError>
    ensures { OnOk result (out.new.items ≡ out.old.items ++ shift_code op d a (Operand.At place)) }
{
    push_take(out, Reg(11), a)?;
    push_load(out, Reg(15), place)?;
    push(out, Instr::Xchg(Reg(1), Reg(15)))?;
    push(out, Instr::ShiftCl(op, Reg(11)))?;
    push(out, Instr::Xchg(Reg(1), Reg(15)))?;
    push_put(out, d, Reg(11))
}

fn push_truth(out: &mut Vec<Instr>, cond: Cc, d: Place) -> Result<(), AllocError>
    ensures { OnOk result (out.new.items ≡ out.old.items ++ truth_code cond d) }
{
    let w = reg_or(11, d);
    push(out, Instr::Set(cond, w))?;
    push(out, Instr::Movzx(w, w))?;
    push_put(out, d, w)
}

/// The flags of a comparison.
pub fn push_compare(out: &mut Vec<Instr>, a: Operand, b: Operand) -> Result<(), AllocError>
    ensures { OnOk result (out.new.items ≡ out.old.items ++ compare_code a b) }
{
    let w = home_of(11, a);
    push_take(out, w, a)?;
    push_alu(out, AluOp::Cmp, w, b)
}

/// The flags of a test of a word.
pub fn push_test(out: &mut Vec<Instr>, a: Operand) -> Result<(), AllocError>
    ensures { OnOk result (out.new.items ≡ out.old.items ++ test_code a) }
{
    let w = home_of(11, a);
    push_take(out, w, a)?;
    push(out, Instr::Alu(AluOp::Test, w, w))
}

// Unless the flags are all that is asked for.
fn push_truth_unless(out: &mut Vec<Instr>, lone: bool, cond: Cc, d: Place) -> Result<(), AllocError>
    ensures { OnOk result (out.new.items ≡ out.old.items ++ truth_unless lone cond d) }
{
    if lone {
        Ok(())
    } else {
        push_truth(out, cond, d)
    }
}

fn push_tested(
    out: &mut Vec<Instr>,
    lone: bool,
    cond: Cc,
    d: Place,
    a: Operand,
) -> Result<(), AllocError>
    ensures { OnOk result (out.new.items ≡ out.old.items ++ (test_code a ++ truth_unless lone cond d)) }
{
    push_test(out, a)?;
    push_truth_unless(out, lone, cond, d)
}

fn push_compared(
    out: &mut Vec<Instr>,
    lone: bool,
    cond: Cc,
    d: Place,
    a: Operand,
    b: Operand,
) -> Result<(), AllocError>
    ensures { OnOk result (out.new.items ≡ out.old.items ++ (compare_code a b ++ truth_unless lone cond d)) }
{
    push_compare(out, a, b)?;
    push_truth_unless(out, lone, cond, d)
}

// Keeps what isn't below 0.
fn push_clamp(out: &mut Vec<Instr>, w: Reg) -> Result<(), AllocError>
    ensures { OnOk result (out.new.items ≡ out.old.items ++ clamp_code w) }
{
    push(out, Instr::MovReg(Reg(15), w))?;
    push(out, Instr::ShiftImm(ShiftOp::Sar, Reg(15), 63))?;
    push(out, Instr::Not(Reg(15)))?;
    push(out, Instr::Alu(AluOp::And, w, Reg(15)))
}

fn push_negate(out: &mut Vec<Instr>, d: Place, a: Operand) -> Result<(), AllocError>
    ensures { OnOk result (out.new.items ≡ out.old.items ++ one_code d a (Instr.Neg (reg_or 11 d) ∷ [])) }
{
    let w = reg_or(11, d);
    push_take(out, w, a)?;
    push(out, Instr::Neg(w))?;
    push_put(out, d, w)
}

fn push_invert(out: &mut Vec<Instr>, d: Place, a: Operand) -> Result<(), AllocError>
    ensures { OnOk result (out.new.items ≡ out.old.items ++ one_code d a (Instr.Not (reg_or 11 d) ∷ [])) }
{
    let w = reg_or(11, d);
    push_take(out, w, a)?;
    push(out, Instr::Not(w))?;
    push_put(out, d, w)
}

fn push_clamped(out: &mut Vec<Instr>, d: Place, a: Operand) -> Result<(), AllocError>
    ensures { OnOk result (out.new.items ≡ out.old.items ++ one_code d a (clamp_code (reg_or 11 d))) }
{
    let w = reg_or(11, d);
    push_take(out, w, a)?;
    push_clamp(out, w)?;
    push_put(out, d, w)
}

fn push_copy(out: &mut Vec<Instr>, d: Place, a: Operand) -> Result<(), AllocError>
    ensures { OnOk result (out.new.items ≡ out.old.items ++ one_code d a []) }
{
    let w = reg_or(11, d);
    push_take(out, w, a)?;
    push_put(out, d, w)
}

/// An operation of one integer or reference. `lone` says that only the flags of a comparison are asked for.
pub fn push_unary(
    out: &mut Vec<Instr>,
    lone: bool,
    form: Option<Unary>,
    d: Place,
    a: Operand,
) -> Result<(), AllocError>
    ensures { OnOk result (out.new.items ≡ out.old.items ++ unary_code lone form d a) }
{
    match form {
        Some(Unary::Test(cond)) => push_tested(out, lone, cond, d, a),
        Some(Unary::Negate) => push_negate(out, d, a),
        Some(Unary::Invert) => push_invert(out, d, a),
        Some(Unary::Clamp) => push_clamped(out, d, a),
        Some(Unary::Copy) => push_copy(out, d, a),
        None => Ok(()),
    }
}

/// An operation of two integers or references, likewise.
pub fn push_binary(
    out: &mut Vec<Instr>,
    lone: bool,
    form: Option<Binary>,
    d: Place,
    a: Operand,
    b: Operand,
) -> Result<(), AllocError>
    ensures { OnOk result (out.new.items ≡ out.old.items ++ binary_code lone form d a b) }
{
    match form {
        Some(Binary::Commuting(m)) => push_commuting(out, m, d, a, b),
        Some(Binary::Ordered(m)) => push_two(out, m, d, a, b),
        Some(Binary::Shift(op)) => push_shift(out, op, d, a, b),
        Some(Binary::Compare(cond)) => push_compared(out, lone, cond, d, a, b),
        None => Ok(()),
    }
}
