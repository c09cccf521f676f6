//! Encodings of the manual, and bytes that are none.

use std::test::*;
use x64_encode::*;

const RAX: Reg = Reg(0);

const RCX: Reg = Reg(1);

const RBP: Reg = Reg(5);

const R8: Reg = Reg(8);

const R11: Reg = Reg(11);

#[test]
fn encodings_are_those_of_the_manual(rt: HostRuntime) {
    let rows: [(Instr, &[u8]); 12] = [
        (Instr::Alu(AluOp::Add, RAX, RCX), b"\x48\x01\xC8"),
        (Instr::Imul(RAX, RCX), b"\x48\x0F\xAF\xC1"),
        (Instr::ShiftCl(ShiftOp::Sar, RAX), b"\x48\xD3\xF8"),
        (Instr::Store(Mem::At(RAX, 8), RCX), b"\x48\x89\x48\x08"),
        (Instr::Load(R8, Mem::At(RBP, 16)), b"\x4C\x8B\x45\x10"),
        (Instr::Set(Cc::E, RAX), b"\x0F\x94\xC0"),
        (Instr::Movzx(RAX, RAX), b"\x0F\xB6\xC0"),
        (Instr::AluImm(AluOp::Cmp, RAX, 5), b"\x48\x83\xF8\x05"),
        (Instr::CallReg(R11), b"\x41\xFF\xD3"),
        (Instr::Ret, b"\xC3"),
        (Instr::Load(RAX, Mem::At(RAX, 0)), b"\x48\x8B\x00"),
        (Instr::Jmp(-5), b"\xE9\xFB\xFF\xFF\xFF"),
    ];
    for (instr, bytes) in rows {
        assert!(rt; has_row(&instr), "{instr:?}");
        let mut spelled = [0; 16];
        let n = encode(&instr, &mut spelled);
        assert_eq!(rt; &spelled[..n], bytes, "{instr:?}");
        assert_eq!(rt; decode(bytes), Some((instr, bytes.len())), "{instr:?}");
    }
}

#[test]
fn bytes_outside_the_table_are_refused(rt: HostRuntime) {
    assert_eq!(rt; decode(b"\x48\x81\xF8\x05\x00\x00\x00"), None);
    assert_eq!(rt; decode(b"\x48\x83\xF8"), None);
    assert_eq!(rt; decode(b""), None);
    assert!(rt; !has_row(&Instr::AluImm(AluOp::Test, RAX, 1)));
    assert!(rt; !has_row(&Instr::Lea(RAX, Mem::Item(RAX, Reg(4), 0))));
    assert!(rt; !has_row(&Instr::Not(Reg(16))));
}
