// Where values stand while code runs.
#![tactic(auto)]

ghost use Rattle.std.specs.Prelude.{◌≡◌, ◌↔◌, IsTrue};

use crate::reg::Reg;

/// Where a value stands while code runs: in a register, or in a frame word, counted from 0.
#[derive(Clone, Copy, PartialEq, Eq, Hash, Debug)]
pub enum Place {
    In(Reg),
    Word(u32),
}

/// Whether two places are the same.
pub fn same_place(a: Place, b: Place) -> bool
    ensures { IsTrue result ↔ (a ≡ b) }
{
    a == b
}
