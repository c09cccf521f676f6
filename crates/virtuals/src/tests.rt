//! A cycle is made once, filled, and forced to a box.

use super::*;
use std::test::*;
use trace_ops::{Arg, BoxId, Kind, ShapeOf, Val};

#[test]
fn a_cycle_is_made_once(rt: HostRuntime) -> Result<(), Fail> {
    let mut virtuals = Virtuals::new(rt.alloc())?;
    let kinds = [Kind::Int, Kind::Ref];
    let a = virtuals.make(ShapeOf::Size(0), kinds.as_slice())?;
    let b = virtuals.make(ShapeOf::Size(0), kinds.as_slice())?;
    virtuals.set(a, 1, Val::Virtual(b));
    virtuals.set(b, 1, Val::Virtual(a));
    virtuals.set(b, 0, Val::Known(Arg::Const(7)));
    assert_eq!(rt; virtuals.get(a, 0), Val::Known(Arg::Const(0)));
    let order = virtuals.force_order(a)?;
    let expected = [
        Forced::Make(0),
        Forced::Make(1),
        Forced::Fill(0, 1, Val::Virtual(1)),
        Forced::Fill(1, 0, Val::Known(Arg::Const(7))),
        Forced::Fill(1, 1, Val::Virtual(0)),
    ];
    assert_eq!(rt; order.as_slice(), expected.as_slice());
    let to = BoxId {
        kind: Kind::Ref,
        number: 3,
    };
    virtuals.forced(a, to);
    assert_eq!(rt; virtuals.get(b, 1), Val::Known(Arg::Of(to)));
    assert_eq!(rt; virtuals.shape(b).of, ShapeOf::Size(0));
    Ok(())
}
