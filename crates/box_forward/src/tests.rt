use crate::{Forward, Pure};
use std::test::Fail;
use trace_ops::{Arg, BoxId, Kind, OpCode};

const FIRST: Arg = Arg::Of(BoxId {
    kind: Kind::Int,
    number: 1,
});

const SECOND: Arg = Arg::Of(BoxId {
    kind: Kind::Int,
    number: 2,
});

#[test]
fn a_box_follows_to_the_constant_of_its_equal(rt: HostRuntime) -> Result<(), Fail> {
    let mut forward = Forward::new(rt.alloc(), 3)?;
    forward.make_equal(2, FIRST);
    forward.make_constant(1, Arg::Const(7));
    assert_eq!(rt; forward.follow(SECOND), Arg::Const(7));
    Ok(())
}

#[test]
fn the_last_noted_value_is_found(rt: HostRuntime) -> Result<(), Fail> {
    let mut known = Pure::new(rt.alloc())?;
    known.note(OpCode::IntAdd, &[FIRST, Arg::Const(1)], SECOND)?;
    assert_eq!(rt;
        known.look_up(OpCode::IntAdd, &[FIRST, Arg::Const(1)]),
        Some(SECOND)
    );
    assert_eq!(rt;
        known.look_up(OpCode::IntAdd, &[FIRST, Arg::Const(2)]),
        None
    );
    Ok(())
}
