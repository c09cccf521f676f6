// A piece's instructions while they are chosen.
#![tactic(auto)]

ghost use Rattle.std.specs.Prelude.{◌≡◌, [], ◌∷◌, length, pos, IfOk, OnOk};
ghost use Rattle.trace_ops.specs.declared.table.ShapeOf.TheVariants.{Size};
ghost use Rattle.x64_encode.specs.declared.instr.Cc.TheVariants as cc_is;
ghost use Rattle.x64_encode.specs.declared.instr.Instr.TheVariants.{Jmp};
ghost use Rattle.arena_objects.specs.Layout.{header_of};
ghost use Rattle.asm_select.specs.Drafting.{setting, with_start, with_instrs, with_jump, with_leave, with_leave_false, with_leave_true, with_bare, with_one, with_value, with_class, with_nonnull_class, with_two, with_guard, with_body, with_op, LivesTell};
ghost use Rattle.asm_select.specs.Chosen.{operand_of, test_code, class_code, nonnull_class_code, jump_code};

use crate::accesses::{push_class, push_nonnull_class};
use crate::arguments::push_args;
use crate::codes::{push_compare, push_test};
use crate::context::Context;
use crate::plain::push_plain;
use crate::selected::Selected;
use crate::told::{Told, opposite, tells};
use linear_scan::Live;
use std::alloc::{AllocError, Global};
use std::marker::Model;
use trace_ops::{Arg, List, OpCode, OptOp, ShapeOf};
use x64_encode::{Cc, Instr};

// What is chosen so far.
#[derive(Drop)]
pub struct Draft {
    instrs: Vec<Instr>,
    starts: Vec<u32>,
    jumps: Vec<(u32, u32)>,
}

impl Model for Draft {
    ghost use Rattle.asm_select.specs.Drafting.{Drafted};

    ghost Value = { Drafted };

    ghost view = { λ d. record { instrs = d.instrs.items; starts = d.starts.items; jumps = d.jumps.items } };
}

impl Draft {
    pub fn new(alloc: Global) -> Draft
        ensures { result ≡ record { instrs = []; starts = []; jumps = [] } }
    {
        Draft {
            instrs: Vec::new(alloc),
            starts: Vec::new(alloc),
            jumps: Vec::new(alloc),
        }
    }

    // The next operation starts here.
    fn begin(&mut self) -> Result<(), AllocError>
        ensures { OnOk result (self.new ≡ with_start self.old) }
    {
        let first = as_number(self.instrs.len())?;
        self.starts.push(first)?;
        Ok(())
    }

    // A jump of operation k, whose target is still to be set.
    fn jump(&mut self, instr: Instr, k: u32) -> Result<(), AllocError>
        ensures { OnOk result (self.new ≡ with_jump instr k self.old) }
    {
        let n = as_number(self.instrs.len())?;
        self.jumps.push((n, k))?;
        self.instrs.push(instr)?;
        Ok(())
    }

    // Operation k is left on a condition.
    fn leave(&mut self, cond: Cc, k: u32) -> Result<(), AllocError>
        ensures { OnOk result (self.new ≡ with_leave cond k self.old) }
    {
        self.jump(Instr::Jcc(cond, 0), k)
    }

    // A word is tested, and operation k left on a condition.
    fn test(&mut self, c: &Context, k: u32, cond: Cc, a: Arg) -> Result<(), AllocError>
        ensures { OnOk result (self.new ≡ with_leave cond k (with_instrs (test_code (operand_of (setting c.now) a)) self.old)) }
    {
        let o = c.operand(a)?;
        push_test(&mut self.instrs, o)?;
        self.leave(cond, k)
    }

    fn leave_false(
        &mut self,
        c: &Context,
        k: u32,
        told: Option<Cc>,
        a: Arg,
    ) -> Result<(), AllocError>
        ensures { OnOk result (self.new ≡ with_leave_false (setting c.now) k told a self.old) }
    {
        match told {
            Some(cond) => self.leave(opposite(cond), k),
            None => self.test(c, k, Cc::E, a),
        }
    }

    fn leave_true(
        &mut self,
        c: &Context,
        k: u32,
        told: Option<Cc>,
        a: Arg,
    ) -> Result<(), AllocError>
        ensures { OnOk result (self.new ≡ with_leave_true (setting c.now) k told a self.old) }
    {
        match told {
            Some(cond) => self.leave(cond, k),
            None => self.test(c, k, Cc::Ne, a),
        }
    }

    fn value(&mut self, c: &Context, k: u32, a: Arg, b: Arg) -> Result<(), AllocError>
        ensures { OnOk result (self.new ≡ with_value (setting c.now) k a b self.old) }
    {
        let a = c.operand(a)?;
        let b = c.operand(b)?;
        push_compare(&mut self.instrs, a, b)?;
        self.leave(Cc::Ne, k)
    }

    fn class(&mut self, c: &Context, k: u32, a: Arg, n: u32) -> Result<(), AllocError>
        ensures { OnOk result (self.new ≡ with_leave cc_is.Ne k (with_instrs (class_code (operand_of (setting c.now) a) (header_of c.now.table (Size n))) self.old)) }
    {
        let o = c.operand(a)?;
        let header = c.table.header_of(ShapeOf::Size(n))?;
        push_class(&mut self.instrs, o, header)?;
        self.leave(Cc::Ne, k)
    }

    fn nonnull_class(&mut self, c: &Context, k: u32, a: Arg, n: u32) -> Result<(), AllocError>
        ensures { OnOk result (self.new ≡ with_leave cc_is.Ne k (with_instrs (nonnull_class_code (operand_of (setting c.now) a) (header_of c.now.table (Size n))) self.old)) }
    {
        let o = c.operand(a)?;
        let header = c.table.header_of(ShapeOf::Size(n))?;
        push_nonnull_class(&mut self.instrs, o, header)?;
        self.leave(Cc::Ne, k)
    }

    // A guard on a class; another second argument is none.
    fn class_guard(&mut self, c: &Context, k: u32, a: Arg, b: Arg) -> Result<(), AllocError>
        ensures { OnOk result (self.new ≡ with_class (setting c.now) k a b self.old) }
    {
        match b {
            Arg::Class(n) => self.class(c, k, a, n),
            _ => Ok(()),
        }
    }

    fn nonnull_class_guard(&mut self, c: &Context, k: u32, a: Arg, b: Arg) -> Result<(), AllocError>
        ensures { OnOk result (self.new ≡ with_nonnull_class (setting c.now) k a b self.old) }
    {
        match b {
            Arg::Class(n) => self.nonnull_class(c, k, a, n),
            _ => Ok(()),
        }
    }

    fn one_arg_guard(
        &mut self,
        c: &Context,
        k: u32,
        told: Told,
        code: OpCode,
        a: Arg,
    ) -> Result<(), AllocError>
        ensures { OnOk result (self.new ≡ with_one (setting c.now) k told code a self.old) }
    {
        match code {
            OpCode::GuardTrue => self.leave_false(c, k, tells(told, a), a),
            OpCode::GuardFalse => self.leave_true(c, k, tells(told, a), a),
            OpCode::GuardNonnull => self.leave_false(c, k, None, a),
            OpCode::GuardIsnull => self.leave_true(c, k, None, a),
            OpCode::GuardNoOverflow => self.leave(Cc::O, k),
            OpCode::GuardOverflow => self.leave(Cc::No, k),
            _ => Ok(()),
        }
    }

    fn two_arg_guard(
        &mut self,
        c: &Context,
        k: u32,
        code: OpCode,
        a: Arg,
        b: Arg,
    ) -> Result<(), AllocError>
        ensures { OnOk result (self.new ≡ with_two (setting c.now) k code a b self.old) }
    {
        match code {
            OpCode::GuardValue => self.value(c, k, a, b),
            OpCode::GuardClass => self.class_guard(c, k, a, b),
            OpCode::GuardNonnullClass => self.nonnull_class_guard(c, k, a, b),
            OpCode::GuardNoOverflow => self.leave(Cc::O, k),
            OpCode::GuardOverflow => self.leave(Cc::No, k),
            _ => Ok(()),
        }
    }

    // A guard on overflow, whatever its arguments are.
    fn bare_guard(&mut self, k: u32, code: OpCode) -> Result<(), AllocError>
        ensures { OnOk result (self.new ≡ with_bare k code self.old) }
    {
        match code {
            OpCode::GuardNoOverflow => self.leave(Cc::O, k),
            OpCode::GuardOverflow => self.leave(Cc::No, k),
            _ => Ok(()),
        }
    }

    fn guard(
        &mut self,
        c: &Context,
        k: u32,
        told: Told,
        code: OpCode,
        args: &[Arg],
    ) -> Result<(), AllocError>
        ensures { OnOk result (self.new ≡ with_guard (setting c.now) k told code args.now self.old) }
    {
        match args {
            [a] => self.one_arg_guard(c, k, told, code, *a),
            [a, b] => self.two_arg_guard(c, k, code, *a, *b),
            _ => self.bare_guard(k, code),
        }
    }

    // The moves of the jump, and the jump.
    fn go(&mut self, c: &Context, k: u32, args: &[Arg]) -> Result<(), AllocError>
        ensures { OnOk result (self.new ≡ with_jump (Jmp (pos 0)) k (with_instrs (jump_code (setting c.now) args.now) self.old)) }
    {
        push_args(&mut self.instrs, c, c.jump_moves(), args, c.to)?;
        self.jump(Instr::Jmp(0), k)
    }

    fn body(
        &mut self,
        c: &Context,
        lives: &[Live],
        k: u32,
        told: Told,
        op: &OptOp,
        rest: &[OptOp],
    ) -> Result<(), AllocError>
        requires tell { LivesTell lives.now k op.now rest.now }
        ensures { OnOk result (self.new ≡ with_body (setting c.now) k told op.now rest.now self.old) }
    {
        match op {
            OptOp::Plain {
                code,
                result,
                args,
                descr,
            } => push_plain(
                &mut self.instrs,
                c,
                lives,
                k,
                *code,
                *result,
                args.items(),
                *descr,
                rest,
            ),
            OptOp::Guard { code, args, .. } => self.guard(c, k, told, *code, args.items()),
            OptOp::Exit { .. } => self.jump(Instr::Jmp(0), k),
            OptOp::Jump { args, .. } => self.go(c, k, args.items()),
            OptOp::Finish { .. } => self.jump(Instr::Jmp(0), k),
        }
    }

    /// The instructions of operation k, in front of these; the flags tell this. The lives are those of the piece.
    pub fn add(
        &mut self,
        c: &Context,
        lives: &[Live],
        k: u32,
        told: Told,
        op: &OptOp,
        rest: &[OptOp],
    ) -> Result<(), AllocError>
        requires tell { LivesTell lives.now k op.now rest.now }
        ensures { OnOk result (self.new ≡ with_op (setting c.now) k told op.now rest.now self.old) }
    {
        self.begin()?;
        self.body(c, lives, k, told, op, rest)
    }

    pub fn finish(self) -> Selected
        ensures instrs { result.instrs ≡ self.instrs }
        ensures starts { result.starts ≡ self.starts }
        ensures jumps { result.jumps ≡ self.jumps }
    {
        let Draft {
            instrs,
            starts,
            jumps,
        } = self;
        Selected {
            instrs: List::of(instrs),
            starts: List::of(starts),
            jumps: List::of(jumps),
        }
    }
}

// A count as a number of 32 bits. One that doesn't fit counts as a want of memory.
fn as_number(n: usize) -> Result<u32, AllocError>
    ensures { IfOk result (λ k. k ≡ n) }
{
    match u32::try_from(n) {
        Ok(k) => Ok(k),
        Err(_) => Err(AllocError),
    }
}
