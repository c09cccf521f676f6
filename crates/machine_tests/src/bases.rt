//! Code that is fetched, an arena that is taken, read and written, and places that are compared.

use std::test::*;
use target_base::*;

#[test]
fn code_is_fetched_up_to_its_end(rt: HostRuntime) -> Result<(), Fail> {
    let code = PlainCode::new(vec![in rt.alloc(); 0xC3u8, 0xE9]?);
    let mut window = [0; 16];
    assert_eq!(rt; code.fetch(1, &mut window), 1);
    assert_eq!(rt; window[0], 0xE9);
    assert_eq!(rt; code.fetch(2, &mut window), 0);
    Ok(())
}

#[test]
fn an_arena_is_taken_read_and_written(rt: HostRuntime) -> Result<(), Fail> {
    let mut arena = ArenaWords::new(vec![in rt.alloc(); 7i64, 0, 0]?, 8);
    assert_eq!(rt; arena.size(), 24);
    assert_eq!(rt; arena.read(0x1000_0000), Some(7));
    assert_eq!(rt; arena.read(0x1000_0004), None);
    assert_eq!(rt; arena.read(0x1000_0018), None);
    assert_eq!(rt; arena.read(0x0FFF_FFF8), None);
    assert_eq!(rt; arena.take(16), Some(0x1000_0008));
    assert_eq!(rt; arena.take(8), None);
    assert_eq!(rt; arena.taken(), 24);
    assert!(rt; arena.write(0x1000_0010, -1));
    assert_eq!(rt; arena.read(0x1000_0010), Some(-1));
    assert!(rt; !arena.write(0x1000_0018, 1));
    Ok(())
}

#[test]
fn places_are_compared(rt: HostRuntime) {
    assert!(rt; same_place(Place::In(Reg(0)), Place::In(Reg(0))));
    assert!(rt; !same_place(Place::In(Reg(0)), Place::Word(0)));
    assert!(rt; !same_reg(Reg(0), Reg(1)));
}
