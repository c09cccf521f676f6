//! Single steps, the start by the memory map, and a host call that is resumed.

use std::alloc::AllocError;
use std::test::*;
use x64_encode::{PlainCode, Reg};
use x64_machine::*;

const CODE: u64 = 0x4000_0000;

fn one_step(rt: &HostRuntime, bytes: &[u8]) -> Result<(Turn, Machine), AllocError> {
    let mut machine = Machine::start(rt.alloc(), 65536, &[], 0, &[])?;
    let mut code = Vec::new(rt.alloc());
    if bytes.len() < 16 {
        code.extend_from_slice(bytes)?;
        let code = PlainCode::new(code);
        let turn = machine.step(&code);
        return Ok((turn, machine));
    }
    Ok((Turn::Went, machine))
}

#[test]
fn single_steps_stop_by_their_causes(rt: HostRuntime) -> Result<(), Fail> {
    let none = Stop::BadAddress { at: CODE };
    let no_code = Stop::BadCode { at: CODE };
    let no_flag = Stop::UndefinedFlag { at: CODE };
    let rows: [(&[u8], Turn); 9] = [
        (b"", Turn::Stopped(none)),
        (b"\x48\x81\xF8\x05\x00\x00\x00", Turn::Stopped(no_code)),
        (b"\x48\x83\xF8", Turn::Stopped(no_code)),
        (b"\x0F\x90\xC0", Turn::Stopped(no_flag)),
        (b"\x0F\x84\x00\x00\x00\x00", Turn::Stopped(no_flag)),
        (b"\x48\x8B\x00", Turn::Stopped(Stop::BadAddress { at: 0 })),
        (b"\x48\x8B\x04\x24", Turn::Went),
        (b"\xE9\xFB\xFF\xFF\xFF", Turn::Went),
        (b"\xC3", Turn::Stopped(Stop::Returned)),
    ];
    for (bytes, want) in rows {
        let (turn, machine) = one_step(&rt, bytes)?;
        assert_eq!(rt; turn, want, "{bytes:?}");
        let made = machine.counts().instructions;
        assert_eq!(rt; made, u64::from(want == Turn::Went), "{bytes:?}");
    }
    let (_, loaded) = one_step(&rt, b"\x48\x8B\x04\x24")?;
    assert_eq!(rt; loaded.reg(Reg(0)), 805306368);
    let (_, jumped) = one_step(&rt, b"\xE9\xFB\xFF\xFF\xFF")?;
    assert_eq!(rt; jumped.at(), 1073741824);
    Ok(())
}

#[test]
fn a_machine_starts_by_the_memory_map(rt: HostRuntime) -> Result<(), Fail> {
    let mut machine = Machine::start(rt.alloc(), 65536, &[1, 5], 7, &[-3])?;
    assert_eq!(rt; machine.at(), CODE + 7);
    assert_eq!(rt; machine.reg(Reg(4)), 0x207F_FFF8);
    assert_eq!(rt; machine.reg(Reg(5)), 0x2000_0000);
    assert_eq!(rt; machine.reg(Reg(0)), 0);
    assert_eq!(rt; machine.flags().zf, None);
    assert_eq!(rt; machine.frame().len(), 1048576);
    assert_eq!(rt; machine.frame().get(16).copied(), Some(-3));
    assert_eq!(rt; machine.frame().get(1048575).copied(), Some(0x3000_0000));
    assert_eq!(rt; machine.arena().read(0x1000_0008), Some(5));
    assert_eq!(rt; machine.arena().taken(), 16);
    assert_eq!(rt; machine.arena().size(), 65536);
    assert_eq!(rt; machine.arena_mut().take(8), Some(0x1000_0010));
    assert_eq!(rt; machine.arena().taken(), 24);
    Ok(())
}

#[test]
fn a_host_call_is_resumed(rt: HostRuntime) -> Result<(), Fail> {
    let mut machine = Machine::start(rt.alloc(), 65536, &[], 0, &[])?;
    // mov r11, 0x30000010; call r11
    let bytes: &[u8] = b"\x49\xC7\xC3\x10\x00\x00\x30\x41\xFF\xD3";
    let mut code = Vec::new(rt.alloc());
    code.extend_from_slice(bytes)?;
    let code = PlainCode::new(code);
    let first = machine.step(&code);
    assert_eq!(rt; first, Turn::Went);
    assert!(rt; machine.counts().instructions < 100);
    let turn = machine.step(&code);
    assert_eq!(rt; turn, Turn::Stopped(Stop::HostCall { entry: 1 }));
    assert_eq!(rt; machine.counts().instructions, 2);
    if let Turn::Stopped(Stop::HostCall { entry: _ }) = turn {
        machine.resume(9, 4);
    }
    assert_eq!(rt; machine.reg(Reg(0)), 9);
    assert_eq!(rt; machine.reg(Reg(11)), 4);
    assert_eq!(rt; machine.reg(Reg(4)), 0x207F_FFF8);
    assert_eq!(rt; machine.at(), CODE + 10);
    Ok(())
}
