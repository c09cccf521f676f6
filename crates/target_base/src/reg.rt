// Registers of a processor.
#![tactic(auto)]

ghost use Rattle.std.specs.Prelude.{◌≡◌, ◌↔◌, IsTrue};

/// A register by its number. On x86-64: rax, rcx, rdx, rbx, rsp, rbp, rsi, rdi, r8 to r15.
#[derive(Clone, Copy, PartialEq, Eq, Hash, Debug)]
pub struct Reg(pub u8);

/// Whether two registers are the same.
pub fn same_reg(a: Reg, b: Reg) -> bool
    ensures { IsTrue result ↔ (a ≡ b) }
{
    a == b
}
