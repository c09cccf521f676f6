// What a piece's instructions are chosen by.
#![tactic(auto)]

ghost use Rattle.std.specs.Prelude.{◌≡◌, IfOk};
ghost use Rattle.trace_ops.specs.declared.trace.Arg.TheVariants as arg;
ghost use Rattle.asm_select.specs.Chosen.{operand_of, result_place};
ghost use Rattle.asm_select.specs.Drafting.{setting};

use crate::known_table::KnownTable;
use crate::operand::Operand;
use crate::table_numbers::function_entry;
use parallel_move::Move;
use std::alloc::AllocError;
use std::marker::Model;
use target_base::{Place, Reg};
use trace_ops::{Arg, BoxId, List, ShapeOf};

/// The table; the place of each box by number; the places of the label that the jump goes to; and the moves of each
/// operation.
#[derive(Drop)]
pub struct Context<'a> {
    pub table: &'a KnownTable<'a>,
    pub at: &'a [Place],
    pub to: &'a [Place],
    pub plan: &'a [List<Move>],
}

impl<'a> Model for Context<'a> {
    ghost use Rattle.asm_select.specs.Drafting.{Scene};

    ghost Value = { Scene };

    ghost view = { λ c. record { table = c.table.now; at = c.at.now; to = c.to.now; plan = c.plan.now } };
}

impl<'a> Context<'a> {
    /// The place of a box.
    pub fn place(&self, b: BoxId) -> Place
        ensures { result ≡ (setting self.now).at b.number }
    {
        self.at
            .get(b.number as usize)
            .copied()
            .unwrap_or(Place::Word(16))
    }

    /// The place of a box, or the number of a constant or of a row of the table.
    pub fn operand(&self, arg: Arg) -> Result<Operand, AllocError>
        ensures { IfOk result (λ o. o ≡ operand_of (setting self.now) arg) }
    {
        match arg {
            Arg::Of(b) => Ok(Operand::At(self.place(b))),
            Arg::Const(w) => Ok(Operand::Imm(w)),
            Arg::Null => Ok(Operand::Imm(0)),
            Arg::Class(n) => self.class(n),
            Arg::Func(f) => Ok(Operand::Imm(function_entry(f))),
            Arg::Ptr(k) => self.prebuilt(k),
        }
    }

    fn class(&self, n: u32) -> Result<Operand, AllocError>
        ensures { IfOk result (λ o. o ≡ operand_of (setting self.now) (arg.Class n)) }
    {
        let number = self.table.header_of(ShapeOf::Size(n))?;
        Ok(Operand::Imm(i64::from(number)))
    }

    fn prebuilt(&self, k: u32) -> Result<Operand, AllocError>
        ensures { IfOk result (λ o. o ≡ operand_of (setting self.now) (arg.Ptr k)) }
    {
        let address = self.table.address_in(k)?;
        Ok(Operand::Imm(address))
    }

    /// The place of a result; where there is none, the register in which the host gives it.
    pub fn result(&self, r: Option<BoxId>) -> Place
        ensures { result ≡ result_place (setting self.now) r }
    {
        match r {
            Some(r) => self.place(r),
            None => Place::In(Reg(0)),
        }
    }

    /// The moves of operation k.
    pub fn call_moves(&self, k: u32) -> &[Move]
        ensures { result.now ≡ (setting self.now).call_moves k }
    {
        match self.plan.get(k as usize) {
            Some(moves) => moves.items(),
            None => &[],
        }
    }

    /// The moves of the jump.
    pub fn jump_moves(&self) -> &[Move]
        ensures { result.now ≡ (setting self.now).moves }
    {
        match self.plan.last() {
            Some(moves) => moves.items(),
            None => &[],
        }
    }
}
