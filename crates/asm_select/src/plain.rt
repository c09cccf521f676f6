// The instructions of plain operations.
#![tactic(auto)]

ghost use Rattle.std.specs.Prelude.{◌≡◌, ◌++◌, ◌∷◌, [], List, pos, Some, None, IfSome, OnOk};
ghost use Rattle.trace_ops.specs.declared.trace.Arg.TheVariants as arg;
ghost use Rattle.trace_ops.specs.declared.trace.Descr.TheVariants as descr;
ghost use Rattle.guard_exit.specs.Codes.{register};
ghost use Rattle.asm_select.specs.declared.form.Access.TheVariants as access;
ghost use Rattle.trace_ops.specs.declared.piece.Spot.TheVariants as spot;
ghost use Rattle.trace_ops.specs.declared.table.ShapeOf.TheVariants.{Size, Array};
ghost use Rattle.arena_objects.specs.Layout.{header_of};
ghost use Rattle.arena_objects.specs.Spots.{spot_offset};
ghost use Rattle.asm_select.specs.Chosen.{read_code, write_code, item_code, set_item_code, new_code, new_array_code, word_code, access_code, call_if, is_host_call, plain_code, access_form, function_code, for_call, jump_code, is_lone, unary_code, binary_code, operand_of, result_place, unary_form, binary_form};
ghost use Rattle.trace_ops.specs.declared.piece.OptOp.{OptOp};
ghost use Rattle.asm_select.specs.Drafting.{setting, Tells};

use crate::accesses::{
    push_call, push_item, push_new, push_new_array, push_read, push_set_item, push_write,
};
use crate::arguments::push_args;
use crate::codes::{push_binary, push_unary};
use crate::context::Context;
use crate::form::{Access, access_form, binary_form, unary_form};
use crate::lone::is_lone;
use crate::moves::push;
use crate::table_numbers::function_entry;
use linear_scan::Live;
use std::alloc::AllocError;
use target_base::{Place, Reg};
use trace_ops::{Arg, BoxId, Descr, OpCode, OptOp, ShapeOf};
use x64_encode::Instr;

/// The registers of a function's arguments.
pub const ARG_PLACES: [Place; 6] = [
    Place::In(Reg(7)),
    Place::In(Reg(6)),
    Place::In(Reg(2)),
    Place::In(Reg(1)),
    Place::In(Reg(8)),
    Place::In(Reg(9)),
];

fn push_get_field(
    out: &mut Vec<Instr>,
    c: &Context,
    r: BoxId,
    a: Arg,
    f: u32,
) -> Result<(), AllocError>
    ensures { OnOk result (out.new.items ≡ out.old.items ++ read_code ((setting c.now).at r.number) (operand_of (setting c.now) a) (spot_offset c.now.table (spot.Field f))) }
{
    let base = c.operand(a)?;
    let offset = c.table.field_offset(f)?;
    push_read(out, c.place(r), base, offset)
}

fn push_set_field(
    out: &mut Vec<Instr>,
    c: &Context,
    a: Arg,
    b: Arg,
    f: u32,
) -> Result<(), AllocError>
    ensures { OnOk result (out.new.items ≡ out.old.items ++ write_code (operand_of (setting c.now) a) (spot_offset c.now.table (spot.Field f)) (operand_of (setting c.now) b)) }
{
    let base = c.operand(a)?;
    let value = c.operand(b)?;
    let offset = c.table.field_offset(f)?;
    push_write(out, base, offset, value)
}

fn push_get_item(
    out: &mut Vec<Instr>,
    c: &Context,
    r: BoxId,
    a: Arg,
    i: Arg,
    x: u32,
) -> Result<(), AllocError>
    ensures { OnOk result (out.new.items ≡ out.old.items ++ item_code c.now.table x ((setting c.now).at r.number) (operand_of (setting c.now) a) (operand_of (setting c.now) i)) }
{
    let base = c.operand(a)?;
    let index = c.operand(i)?;
    push_item(out, c.place(r), base, index)
}

fn push_put_item(
    out: &mut Vec<Instr>,
    c: &Context,
    a: Arg,
    i: Arg,
    b: Arg,
    x: u32,
) -> Result<(), AllocError>
    ensures { OnOk result (out.new.items ≡ out.old.items ++ set_item_code c.now.table x (operand_of (setting c.now) a) (operand_of (setting c.now) i) (operand_of (setting c.now) b)) }
{
    let base = c.operand(a)?;
    let index = c.operand(i)?;
    let value = c.operand(b)?;
    push_set_item(out, base, index, value)
}

fn push_length(
    out: &mut Vec<Instr>,
    c: &Context,
    r: BoxId,
    a: Arg,
    x: u32,
) -> Result<(), AllocError>
    ensures { OnOk result (out.new.items ≡ out.old.items ++ read_code ((setting c.now).at r.number) (operand_of (setting c.now) a) 8) }
{
    let base = c.operand(a)?;
    push_read(out, c.place(r), base, 8)
}

fn push_structure(out: &mut Vec<Instr>, c: &Context, r: BoxId, n: u32) -> Result<(), AllocError>
    ensures { OnOk result (out.new.items ≡ out.old.items ++ new_code (header_of c.now.table (Size n))) }
{
    let header = c.table.header_of(ShapeOf::Size(n))?;
    push_new(out, header)
}

fn push_array(out: &mut Vec<Instr>, c: &Context, r: BoxId, a: Arg, x: u32) -> Result<(), AllocError>
    ensures { OnOk result (out.new.items ≡ out.old.items ++ new_array_code (header_of c.now.table (Array x)) (operand_of (setting c.now) a)) }
{
    let many = c.operand(a)?;
    let header = c.table.header_of(ShapeOf::Array(x))?;
    push_new_array(out, header, many)
}

// A function's arguments come to their registers.
fn push_passed(out: &mut Vec<Instr>, c: &Context, k: u32, args: &[Arg]) -> Result<(), AllocError>
    ensures { OnOk result (out.new.items ≡ out.old.items ++ jump_code (for_call (setting c.now) k args.now) args.now) }
{
    push_args(out, c, c.call_moves(k), args, &ARG_PLACES)
}

// Then the number of the call's row and the entry.
fn push_function(
    out: &mut Vec<Instr>,
    c: &Context,
    k: u32,
    f: u32,
    args: &[Arg],
    row: u32,
) -> Result<(), AllocError>
    ensures { OnOk result (out.new.items ≡ out.old.items ++ function_code (setting c.now) k f args.now row) }
{
    push_passed(out, c, k, args)?;
    push(out, Instr::MovImm(Reg(10), i64::from(row)))?;
    push(out, Instr::MovImm(Reg(11), function_entry(f)))
}

// Operation k on objects, up to the host's call where there is one.
fn push_access(
    out: &mut Vec<Instr>,
    c: &Context,
    k: u32,
    form: Access,
    r: Option<BoxId>,
    args: &[Arg],
    d: Descr,
) -> Result<(), AllocError>
    ensures { OnOk result (out.new.items ≡ out.old.items ++ access_code (setting c.now) k form r args.now d) }
{
    match form {
        Access::GetField => push_field_read(out, c, k, r, args, d),
        Access::SetField => push_field_write(out, c, k, r, args, d),
        Access::GetItem => push_item_read(out, c, k, r, args, d),
        Access::SetItem => push_item_write(out, c, k, r, args, d),
        Access::Length => push_length_read(out, c, k, r, args, d),
        Access::Structure => push_structure_asked(out, c, k, r, args, d),
        Access::Array => push_array_asked(out, c, k, r, args, d),
        Access::Call => push_call_asked(out, c, k, r, args, d),
    }
}

fn push_field_read(
    out: &mut Vec<Instr>,
    c: &Context,
    k: u32,
    r: Option<BoxId>,
    args: &[Arg],
    d: Descr,
) -> Result<(), AllocError>
    ensures { OnOk result (out.new.items ≡ out.old.items ++ access_code (setting c.now) k access.GetField r args.now d) }
{
    match r {
        Some(r) => match args {
            [a] => match d {
                Descr::Field(x) => push_get_field(out, c, r, *a, x),
                _ => Ok(()),
            },
            _ => Ok(()),
        },
        None => Ok(()),
    }
}

fn push_field_write(
    out: &mut Vec<Instr>,
    c: &Context,
    k: u32,
    r: Option<BoxId>,
    args: &[Arg],
    d: Descr,
) -> Result<(), AllocError>
    ensures { OnOk result (out.new.items ≡ out.old.items ++ access_code (setting c.now) k access.SetField r args.now d) }
{
    match r {
        None => match args {
            [a, b] => match d {
                Descr::Field(x) => push_set_field(out, c, *a, *b, x),
                _ => Ok(()),
            },
            _ => Ok(()),
        },
        Some(_) => Ok(()),
    }
}

fn push_item_read(
    out: &mut Vec<Instr>,
    c: &Context,
    k: u32,
    r: Option<BoxId>,
    args: &[Arg],
    d: Descr,
) -> Result<(), AllocError>
    ensures { OnOk result (out.new.items ≡ out.old.items ++ access_code (setting c.now) k access.GetItem r args.now d) }
{
    match r {
        Some(r) => match args {
            [a, i] => match d {
                Descr::Array(x) => push_get_item(out, c, r, *a, *i, x),
                _ => Ok(()),
            },
            _ => Ok(()),
        },
        None => Ok(()),
    }
}

fn push_item_write(
    out: &mut Vec<Instr>,
    c: &Context,
    k: u32,
    r: Option<BoxId>,
    args: &[Arg],
    d: Descr,
) -> Result<(), AllocError>
    ensures { OnOk result (out.new.items ≡ out.old.items ++ access_code (setting c.now) k access.SetItem r args.now d) }
{
    match r {
        None => match args {
            [a, i, b] => match d {
                Descr::Array(x) => push_put_item(out, c, *a, *i, *b, x),
                _ => Ok(()),
            },
            _ => Ok(()),
        },
        Some(_) => Ok(()),
    }
}

fn push_length_read(
    out: &mut Vec<Instr>,
    c: &Context,
    k: u32,
    r: Option<BoxId>,
    args: &[Arg],
    d: Descr,
) -> Result<(), AllocError>
    ensures { OnOk result (out.new.items ≡ out.old.items ++ access_code (setting c.now) k access.Length r args.now d) }
{
    match r {
        Some(r) => match args {
            [a] => match d {
                Descr::Array(x) => push_length(out, c, r, *a, x),
                _ => Ok(()),
            },
            _ => Ok(()),
        },
        None => Ok(()),
    }
}

fn push_structure_asked(
    out: &mut Vec<Instr>,
    c: &Context,
    k: u32,
    r: Option<BoxId>,
    args: &[Arg],
    d: Descr,
) -> Result<(), AllocError>
    ensures { OnOk result (out.new.items ≡ out.old.items ++ access_code (setting c.now) k access.Structure r args.now d) }
{
    match r {
        Some(r) => match args {
            [] => match d {
                Descr::Size(x) => push_structure(out, c, r, x),
                _ => Ok(()),
            },
            _ => Ok(()),
        },
        None => Ok(()),
    }
}

fn push_array_asked(
    out: &mut Vec<Instr>,
    c: &Context,
    k: u32,
    r: Option<BoxId>,
    args: &[Arg],
    d: Descr,
) -> Result<(), AllocError>
    ensures { OnOk result (out.new.items ≡ out.old.items ++ access_code (setting c.now) k access.Array r args.now d) }
{
    match r {
        Some(r) => match args {
            [a] => match d {
                Descr::Array(x) => push_array(out, c, r, *a, x),
                _ => Ok(()),
            },
            _ => Ok(()),
        },
        None => Ok(()),
    }
}

fn push_call_asked(
    out: &mut Vec<Instr>,
    c: &Context,
    k: u32,
    r: Option<BoxId>,
    args: &[Arg],
    d: Descr,
) -> Result<(), AllocError>
    ensures { OnOk result (out.new.items ≡ out.old.items ++ access_code (setting c.now) k access.Call r args.now d) }
{
    match args {
        [Arg::Func(f), rest @ ..] => match d {
            Descr::Call(x) => push_function(out, c, k, *f, rest, x),
            _ => Ok(()),
        },
        _ => Ok(()),
    }
}

fn push_one(
    out: &mut Vec<Instr>,
    c: &Context,
    code: OpCode,
    lone: bool,
    r: BoxId,
    a: Arg,
) -> Result<(), AllocError>
    ensures { OnOk result (out.new.items ≡ out.old.items ++ unary_code lone (unary_form code) ((setting c.now).at r.number) (operand_of (setting c.now) a)) }
{
    let a = c.operand(a)?;
    push_unary(out, lone, unary_form(code), c.place(r), a)
}

fn push_two(
    out: &mut Vec<Instr>,
    c: &Context,
    code: OpCode,
    lone: bool,
    r: BoxId,
    a: Arg,
    b: Arg,
) -> Result<(), AllocError>
    ensures { OnOk result (out.new.items ≡ out.old.items ++ binary_code lone (binary_form code) ((setting c.now).at r.number) (operand_of (setting c.now) a) (operand_of (setting c.now) b)) }
{
    let a = c.operand(a)?;
    let b = c.operand(b)?;
    push_binary(out, lone, binary_form(code), c.place(r), a, b)
}

// An operation of words or references. `lone` says that only the flags of a comparison are asked for.
fn push_word(
    out: &mut Vec<Instr>,
    c: &Context,
    code: OpCode,
    lone: bool,
    r: BoxId,
    args: &[Arg],
) -> Result<(), AllocError>
    ensures { OnOk result ((ops : List OptOp) → lone ≡ is_lone r ops → out.new.items ≡ out.old.items ++ word_code (setting c.now) code (Some r) args.now ops) }
{
    match args {
        [a] => push_one(out, c, code, lone, r, *a),
        [a, b] => push_two(out, c, code, lone, r, *a, *b),
        _ => Ok(()),
    }
}

fn push_call_if(
    out: &mut Vec<Instr>,
    c: &Context,
    form: Access,
    r: Option<BoxId>,
) -> Result<(), AllocError>
    ensures { OnOk result (out.new.items ≡ out.old.items ++ call_if (is_host_call form) (result_place (setting c.now) r)) }
{
    match form {
        Access::Structure | Access::Array | Access::Call => push_call(out, c.result(r)),
        _ => Ok(()),
    }
}

fn push_on_objects(
    out: &mut Vec<Instr>,
    c: &Context,
    k: u32,
    form: Access,
    r: Option<BoxId>,
    args: &[Arg],
    d: Descr,
) -> Result<(), AllocError>
    ensures { OnOk result (out.new.items ≡ out.old.items ++ (access_code (setting c.now) k form r args.now d ++ call_if (is_host_call form) (result_place (setting c.now) r))) }
{
    push_access(out, c, k, form, r, args, d)?;
    push_call_if(out, c, form, r)
}

fn push_words(
    out: &mut Vec<Instr>,
    c: &Context,
    lives: &[Live],
    k: u32,
    code: OpCode,
    r: Option<BoxId>,
    args: &[Arg],
    rest: &[OptOp],
) -> Result<(), AllocError>
    requires tell { IfSome r (Tells lives.now k rest.now) }
    ensures { OnOk result (out.new.items ≡ out.old.items ++ word_code (setting c.now) code r args.now rest.now) }
{
    match r {
        Some(r) => {
            let lone = is_lone(lives, k, r, rest);
            push_word(out, c, code, lone, r, args)
        }
        None => Ok(()),
    }
}

/// The instructions of operation k, a plain one, in front of these.
pub fn push_plain(
    out: &mut Vec<Instr>,
    c: &Context,
    lives: &[Live],
    k: u32,
    code: OpCode,
    r: Option<BoxId>,
    args: &[Arg],
    d: Descr,
    rest: &[OptOp],
) -> Result<(), AllocError>
    requires tell { IfSome r (Tells lives.now k rest.now) }
    ensures { OnOk result (out.new.items ≡ out.old.items ++ plain_code (setting c.now) k code (access_form code) r args.now d rest.now) }
{
    match access_form(code) {
        Some(form) => push_on_objects(out, c, k, form, r, args, d),
        None => push_words(out, c, lives, k, code, r, args, rest),
    }
}
