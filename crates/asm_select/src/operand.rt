// Operands of instructions.
#![tactic(auto)]

use target_base::Place;

/// What an instruction works on: what stands at a place, or a constant.
#[derive(Clone, Copy)]
pub enum Operand {
    At(Place),
    Imm(i64),
}
