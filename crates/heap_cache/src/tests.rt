//! The worked example of a cache, and what forgetting does.

use super::*;
use std::test::*;
use trace_ops::{Arg, BoxId, Kind, Pending, Spot, Val};

// The box of an object.
fn object(number: u32) -> Arg {
    Arg::Of(BoxId {
        kind: Kind::Ref,
        number,
    })
}

// A known word.
fn word(w: i64) -> Val {
    Val::Known(Arg::Const(w))
}

#[test]
fn late_stores_come_out_before_another_base(rt: HostRuntime) -> Result<(), Fail> {
    let x = Spot::Field(0);
    let mut cache = Cache::new(rt.alloc())?;
    cache.write_late(object(0), x, word(5))?;
    assert_eq!(rt; cache.read(object(0), x), Some(word(5)));
    assert_eq!(rt; cache.read(object(1), x), None);
    let out = cache.write_late(object(1), x, word(6))?;
    let first = Pending {
        base: object(0),
        spot: x,
        value: word(5),
    };
    assert_eq!(rt; out.as_slice(), [first].as_slice());
    assert_eq!(rt; cache.read(object(0), x), None);
    let out = cache.flush([x].as_slice())?;
    let second = Pending {
        base: object(1),
        spot: x,
        value: word(6),
    };
    assert_eq!(rt; out.as_slice(), [second].as_slice());
    assert_eq!(rt; cache.read(object(1), x), Some(word(6)));
    assert_eq!(rt; cache.flush_all()?.is_empty(), true);
    assert_eq!(rt; cache.pending().is_empty(), true);
    Ok(())
}

#[test]
fn a_later_store_replaces_one_to_its_base_and_spot(rt: HostRuntime) -> Result<(), Fail> {
    let x = Spot::Field(0);
    let mut cache = Cache::new(rt.alloc())?;
    cache.write_late(object(0), x, word(5))?;
    let out = cache.write_late(object(0), x, word(7))?;
    assert_eq!(rt; out.is_empty(), true);
    let last = Pending {
        base: object(0),
        spot: x,
        value: word(7),
    };
    assert_eq!(rt; cache.pending(), [last].as_slice());
    Ok(())
}

#[test]
fn notes_are_read_until_forgotten(rt: HostRuntime) -> Result<(), Fail> {
    let y = Spot::Field(1);
    let mut cache = Cache::new(rt.alloc())?;
    cache.note(object(1), y, word(3))?;
    assert_eq!(rt; cache.read(object(1), y), Some(word(3)));
    cache.forget([1u32].as_slice());
    assert_eq!(rt; cache.read(object(1), y), None);
    let item = Spot::Item(0, 2);
    cache.note(object(1), item, word(4))?;
    cache.forget_items(0);
    assert_eq!(rt; cache.read(object(1), item), None);
    Ok(())
}

#[test]
fn items_are_flushed_and_what_is_known_is_listed(rt: HostRuntime) -> Result<(), Fail> {
    let x = Spot::Field(0);
    let item = Spot::Item(3, 1);
    let mut cache = Cache::new(rt.alloc())?;
    cache.write_late(object(0), x, word(5))?;
    cache.write_late(object(0), item, word(6))?;
    cache.note(object(1), x, word(7))?;
    let out = cache.flush_items(3)?;
    let store = Pending {
        base: object(0),
        spot: item,
        value: word(6),
    };
    assert_eq!(rt; out.as_slice(), [store].as_slice());
    assert_eq!(rt; cache.pending().len(), 1);
    let known = cache.known()?;
    assert_eq!(rt; known.len(), 3);
    assert_eq!(rt; known.as_slice().last().map(|known| known.1), Some(word(7)));
    Ok(())
}
