// Instructions of operations on objects.
#![tactic(auto)]

ghost use Rattle.std.specs.Prelude.{◌≡◌, ◌++◌, ◌∷◌, [], pos, length, IfOk, OnOk, ℕ};
ghost use Rattle.trace_ops.specs.declared.table.Table.{Table};
ghost use Rattle.guard_exit.specs.Codes.{register};
ghost use Rattle.x64_encode.specs.Form.{spelling};
ghost use Rattle.asm_select.specs.declared.operand.Operand.TheVariants.{At, Imm};
ghost use Rattle.asm_select.specs.Slots.{sizes_of, puts};
ghost use Rattle.asm_select.specs.Chosen.{read_code, write_code, read_item_code, write_item_code, item_code, set_item_code, class_code, header_code, nonnull_class_code, new_code, new_array_code, call_code};

use crate::moves::{home_of, push, push_put, push_take, reg_or};
use crate::operand::Operand;
use crate::table_numbers::item_offset;
use std::alloc::AllocError;
use target_base::{Place, Reg};
use x64_encode::{AluOp, Cc, Instr, Mem, encode, has_row};

/// A spot that is known before the run is read.
pub fn push_read(out: &mut Vec<Instr>, d: Place, a: Operand, offset: i32) -> Result<(), AllocError>
    ensures { OnOk result ((k : ℕ) → offset ≡ pos k → out.new.items ≡ out.old.items ++ read_code d a k) }
{
    let base = home_of(11, a);
    let w = reg_or(11, d);
    push_take(out, base, a)?;
    push(out, Instr::Load(w, Mem::At(base, offset)))?;
    push_put(out, d, w)
}

/// Such a spot is written.
pub fn push_write(
    out: &mut Vec<Instr>,
    a: Operand,
    offset: i32,
    b: Operand,
) -> Result<(), AllocError>
    ensures { OnOk result ((k : ℕ) → offset ≡ pos k → out.new.items ≡ out.old.items ++ write_code a k b) }
{
    match b {
        Operand::At(place) => push_write_place(out, a, offset, place),
        Operand::Imm(v) => push_write_const(out, a, offset, v),
    }
}

fn push_write_place(
    out: &mut Vec<Instr>,
    a: Operand,
    offset: i32,
    place: Place,
) -> Result<(), AllocError>
    ensures { OnOk result ((k : ℕ) → offset ≡ pos k → out.new.items ≡ out.old.items ++ write_code a k (At place)) }
{
    let base = home_of(11, a);
    let w = reg_or(15, place);
    push_take(out, base, a)?;
    push_take(out, w, Operand::At(place))?;
    push(out, Instr::Store(Mem::At(base, offset), w))
}

fn push_write_const(out: &mut Vec<Instr>, a: Operand, offset: i32, v: i64) -> Result<(), AllocError>
    ensures { OnOk result ((k : ℕ) → offset ≡ pos k → out.new.items ≡ out.old.items ++ write_code a k (Imm v)) }
{
    let base = home_of(11, a);
    push_take(out, base, a)?;
    if let Ok(short) = i32::try_from(v) {
        push(out, Instr::StoreImm(Mem::At(base, offset), short))
    } else {
        push(out, Instr::MovImm(Reg(15), v))?;
        push(out, Instr::Store(Mem::At(base, offset), Reg(15)))
    }
}

fn push_read_item(out: &mut Vec<Instr>, d: Place, a: Operand, i: Operand) -> Result<(), AllocError>
    ensures { OnOk result (out.new.items ≡ out.old.items ++ read_item_code d a i) }
{
    let base = home_of(11, a);
    let index = home_of(15, i);
    let w = reg_or(11, d);
    push_take(out, base, a)?;
    push_take(out, index, i)?;
    push(out, Instr::Load(w, Mem::Item(base, index, 16)))?;
    push_put(out, d, w)
}

// The address goes to r11, so that r15 is free for the value.
fn push_write_item(
    out: &mut Vec<Instr>,
    a: Operand,
    i: Operand,
    b: Operand,
) -> Result<(), AllocError>
    ensures { OnOk result (out.new.items ≡ out.old.items ++ write_item_code a i b) }
{
    let base = home_of(11, a);
    let index = home_of(15, i);
    let w = home_of(15, b);
    push_take(out, base, a)?;
    push_take(out, index, i)?;
    push(out, Instr::Lea(Reg(11), Mem::Item(base, index, 16)))?;
    push_take(out, w, b)?;
    push(out, Instr::Store(Mem::At(Reg(11), 0), w))
}

/// An item is read.
pub fn push_item(out: &mut Vec<Instr>, d: Place, a: Operand, i: Operand) -> Result<(), AllocError>
    ensures { OnOk result ((t : Table) (x : ℕ) → out.new.items ≡ out.old.items ++ item_code t x d a i) }
{
    match i {
        Operand::At(_) => push_read_item(out, d, a, i),
        Operand::Imm(v) => push_item_at(out, d, a, v),
    }
}

fn push_item_at(out: &mut Vec<Instr>, d: Place, a: Operand, v: i64) -> Result<(), AllocError>
    ensures { OnOk result ((t : Table) (x : ℕ) → out.new.items ≡ out.old.items ++ item_code t x d a (Imm v)) }
{
    match item_offset(v) {
        Some(offset) => push_read(out, d, a, offset),
        None => push_read_item(out, d, a, Operand::Imm(v)),
    }
}

/// An item is written.
pub fn push_set_item(
    out: &mut Vec<Instr>,
    a: Operand,
    i: Operand,
    b: Operand,
) -> Result<(), AllocError>
    ensures { OnOk result ((t : Table) (x : ℕ) → out.new.items ≡ out.old.items ++ set_item_code t x a i b) }
{
    match i {
        Operand::At(_) => push_write_item(out, a, i, b),
        Operand::Imm(v) => push_set_item_at(out, a, v, b),
    }
}

fn push_set_item_at(out: &mut Vec<Instr>, a: Operand, v: i64, b: Operand) -> Result<(), AllocError>
    ensures { OnOk result ((t : Table) (x : ℕ) → out.new.items ≡ out.old.items ++ set_item_code t x a (Imm v) b) }
{
    match item_offset(v) {
        Some(offset) => push_write(out, a, offset, b),
        None => push_write_item(out, a, Operand::Imm(v), b),
    }
}

/// The header is compared with a class.
pub fn push_class(out: &mut Vec<Instr>, a: Operand, header: i32) -> Result<(), AllocError>
    ensures { OnOk result ((n : ℕ) → header ≡ pos n → out.new.items ≡ out.old.items ++ class_code a n) }
{
    let base = home_of(11, a);
    push_take(out, base, a)?;
    push(out, Instr::Load(Reg(11), Mem::At(base, 0)))?;
    push(out, Instr::AluImm(AluOp::Cmp, Reg(11), header))
}

// How many bytes an instruction has. One without a row counts as a want of memory.
fn size_of(instr: &Instr) -> Result<i32, AllocError>
    ensures { IfOk result (λ n. n ≡ pos (length (spelling instr.now))) }
{
    if !has_row(instr) {
        return Err(AllocError);
    }
    let mut bytes = [0u8; 16];
    Ok(encode(instr, &mut bytes) as i32)
}

/// The same of what may be null: of null, which is below 1 and not equal to it, no header is loaded.
pub fn push_nonnull_class(out: &mut Vec<Instr>, a: Operand, header: i32) -> Result<(), AllocError>
    ensures { OnOk result ((n : ℕ) → header ≡ pos n → out.new.items ≡ out.old.items ++ nonnull_class_code a n) }
{
    let base = home_of(11, a);
    let load = Instr::Load(Reg(11), Mem::At(base, 0));
    let compare = Instr::AluImm(AluOp::Cmp, Reg(11), header);
    let over = size_of(&load)?;
    let rest = size_of(&compare)?;
    let Some(over) = over.checked_add(rest) else {
        return Err(AllocError);
    };
    push_take(out, base, a)?;
    push(out, Instr::AluImm(AluOp::Cmp, base, 1))?;
    push(out, Instr::Jcc(Cc::B, over))?;
    push(out, load)?;
    push(out, compare)
}

/// A structure is asked for, up to the call.
pub fn push_new(out: &mut Vec<Instr>, header: i32) -> Result<(), AllocError>
    ensures { OnOk result ((n : ℕ) → header ≡ pos n → out.new.items ≡ out.old.items ++ new_code n) }
{
    push(out, Instr::MovImm(Reg(7), i64::from(header)))?;
    push(out, Instr::MovImm(Reg(11), 0x3000_0010))
}

/// An array is asked for, up to the call.
pub fn push_new_array(out: &mut Vec<Instr>, header: i32, many: Operand) -> Result<(), AllocError>
    ensures { OnOk result ((n : ℕ) → header ≡ pos n → out.new.items ≡ out.old.items ++ new_array_code n many) }
{
    push_take(out, Reg(6), many)?;
    push(out, Instr::MovImm(Reg(7), i64::from(header)))?;
    push(out, Instr::MovImm(Reg(11), 0x3000_0020))
}

/// The call, and its result.
pub fn push_call(out: &mut Vec<Instr>, d: Place) -> Result<(), AllocError>
    ensures { OnOk result (out.new.items ≡ out.old.items ++ call_code d) }
{
    push(out, Instr::CallReg(Reg(11)))?;
    push_put(out, d, Reg(0))
}
