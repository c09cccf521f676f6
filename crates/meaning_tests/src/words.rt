//! Folded words, weights of sets, and the boxes of snapshots.

use std::alloc::{AllocError, Global};
use std::test::*;
use trace_ops::*;

// A code, two words, and their result by Python's unbounded integers.
static OF_TWO: [(OpCode, Word, Word, Word); 114] = [
    (OpCode::IntAdd, i64::MIN, -1, i64::MAX),
    (OpCode::IntAdd, i64::MAX, 1, i64::MIN),
    (OpCode::IntAdd, 5, 67, 72),
    (OpCode::IntAdd, -7, 2, -5),
    (OpCode::IntAdd, 0, i64::MIN, i64::MIN),
    (OpCode::IntAdd, -1, 63, 62),
    (OpCode::IntSub, i64::MIN, -1, -9223372036854775807),
    (OpCode::IntSub, i64::MAX, 1, 9223372036854775806),
    (OpCode::IntSub, 5, 67, -62),
    (OpCode::IntSub, -7, 2, -9),
    (OpCode::IntSub, 0, i64::MIN, i64::MIN),
    (OpCode::IntSub, -1, 63, -64),
    (OpCode::IntMul, i64::MIN, -1, i64::MIN),
    (OpCode::IntMul, i64::MAX, 1, i64::MAX),
    (OpCode::IntMul, 5, 67, 335),
    (OpCode::IntMul, -7, 2, -14),
    (OpCode::IntMul, 0, i64::MIN, 0),
    (OpCode::IntMul, -1, 63, -63),
    (OpCode::IntAnd, i64::MIN, -1, i64::MIN),
    (OpCode::IntAnd, i64::MAX, 1, 1),
    (OpCode::IntAnd, 5, 67, 1),
    (OpCode::IntAnd, -7, 2, 0),
    (OpCode::IntAnd, 0, i64::MIN, 0),
    (OpCode::IntAnd, -1, 63, 63),
    (OpCode::IntOr, i64::MIN, -1, -1),
    (OpCode::IntOr, i64::MAX, 1, i64::MAX),
    (OpCode::IntOr, 5, 67, 71),
    (OpCode::IntOr, -7, 2, -5),
    (OpCode::IntOr, 0, i64::MIN, i64::MIN),
    (OpCode::IntOr, -1, 63, -1),
    (OpCode::IntXor, i64::MIN, -1, i64::MAX),
    (OpCode::IntXor, i64::MAX, 1, 9223372036854775806),
    (OpCode::IntXor, 5, 67, 70),
    (OpCode::IntXor, -7, 2, -5),
    (OpCode::IntXor, 0, i64::MIN, i64::MIN),
    (OpCode::IntXor, -1, 63, -64),
    (OpCode::IntLshift, i64::MIN, -1, 0),
    (OpCode::IntLshift, i64::MAX, 1, -2),
    (OpCode::IntLshift, 5, 67, 40),
    (OpCode::IntLshift, -7, 2, -28),
    (OpCode::IntLshift, 0, i64::MIN, 0),
    (OpCode::IntLshift, -1, 63, i64::MIN),
    (OpCode::IntRshift, i64::MIN, -1, -1),
    (OpCode::IntRshift, i64::MAX, 1, 4611686018427387903),
    (OpCode::IntRshift, 5, 67, 0),
    (OpCode::IntRshift, -7, 2, -2),
    (OpCode::IntRshift, 0, i64::MIN, 0),
    (OpCode::IntRshift, -1, 63, -1),
    (OpCode::UintRshift, i64::MIN, -1, 1),
    (OpCode::UintRshift, i64::MAX, 1, 4611686018427387903),
    (OpCode::UintRshift, 5, 67, 0),
    (OpCode::UintRshift, -7, 2, 4611686018427387902),
    (OpCode::UintRshift, 0, i64::MIN, 0),
    (OpCode::UintRshift, -1, 63, 1),
    (OpCode::IntLt, i64::MIN, -1, 1),
    (OpCode::IntLt, i64::MAX, 1, 0),
    (OpCode::IntLt, 5, 67, 1),
    (OpCode::IntLt, -7, 2, 1),
    (OpCode::IntLt, 0, i64::MIN, 0),
    (OpCode::IntLt, -1, 63, 1),
    (OpCode::IntLe, i64::MIN, -1, 1),
    (OpCode::IntLe, i64::MAX, 1, 0),
    (OpCode::IntLe, 5, 67, 1),
    (OpCode::IntLe, -7, 2, 1),
    (OpCode::IntLe, 0, i64::MIN, 0),
    (OpCode::IntLe, -1, 63, 1),
    (OpCode::IntEq, i64::MIN, -1, 0),
    (OpCode::IntEq, i64::MAX, 1, 0),
    (OpCode::IntEq, 5, 67, 0),
    (OpCode::IntEq, -7, 2, 0),
    (OpCode::IntEq, 0, i64::MIN, 0),
    (OpCode::IntEq, -1, 63, 0),
    (OpCode::IntNe, i64::MIN, -1, 1),
    (OpCode::IntNe, i64::MAX, 1, 1),
    (OpCode::IntNe, 5, 67, 1),
    (OpCode::IntNe, -7, 2, 1),
    (OpCode::IntNe, 0, i64::MIN, 1),
    (OpCode::IntNe, -1, 63, 1),
    (OpCode::IntGt, i64::MIN, -1, 0),
    (OpCode::IntGt, i64::MAX, 1, 1),
    (OpCode::IntGt, 5, 67, 0),
    (OpCode::IntGt, -7, 2, 0),
    (OpCode::IntGt, 0, i64::MIN, 1),
    (OpCode::IntGt, -1, 63, 0),
    (OpCode::IntGe, i64::MIN, -1, 0),
    (OpCode::IntGe, i64::MAX, 1, 1),
    (OpCode::IntGe, 5, 67, 0),
    (OpCode::IntGe, -7, 2, 0),
    (OpCode::IntGe, 0, i64::MIN, 1),
    (OpCode::IntGe, -1, 63, 0),
    (OpCode::UintLt, i64::MIN, -1, 1),
    (OpCode::UintLt, i64::MAX, 1, 0),
    (OpCode::UintLt, 5, 67, 1),
    (OpCode::UintLt, -7, 2, 0),
    (OpCode::UintLt, 0, i64::MIN, 1),
    (OpCode::UintLt, -1, 63, 0),
    (OpCode::UintLe, i64::MIN, -1, 1),
    (OpCode::UintLe, i64::MAX, 1, 0),
    (OpCode::UintLe, 5, 67, 1),
    (OpCode::UintLe, -7, 2, 0),
    (OpCode::UintLe, 0, i64::MIN, 1),
    (OpCode::UintLe, -1, 63, 0),
    (OpCode::UintGt, i64::MIN, -1, 0),
    (OpCode::UintGt, i64::MAX, 1, 1),
    (OpCode::UintGt, 5, 67, 0),
    (OpCode::UintGt, -7, 2, 1),
    (OpCode::UintGt, 0, i64::MIN, 0),
    (OpCode::UintGt, -1, 63, 1),
    (OpCode::UintGe, i64::MIN, -1, 0),
    (OpCode::UintGe, i64::MAX, 1, 1),
    (OpCode::UintGe, 5, 67, 0),
    (OpCode::UintGe, -7, 2, 1),
    (OpCode::UintGe, 0, i64::MIN, 0),
    (OpCode::UintGe, -1, 63, 1),
];

// A code, a word, and its result.
static OF_ONE: [(OpCode, Word, Word); 30] = [
    (OpCode::IntIsZero, i64::MIN, 0),
    (OpCode::IntIsZero, -1, 0),
    (OpCode::IntIsZero, 0, 1),
    (OpCode::IntIsZero, 1, 0),
    (OpCode::IntIsZero, i64::MAX, 0),
    (OpCode::IntIsTrue, i64::MIN, 1),
    (OpCode::IntIsTrue, -1, 1),
    (OpCode::IntIsTrue, 0, 0),
    (OpCode::IntIsTrue, 1, 1),
    (OpCode::IntIsTrue, i64::MAX, 1),
    (OpCode::IntNeg, i64::MIN, i64::MIN),
    (OpCode::IntNeg, -1, 1),
    (OpCode::IntNeg, 0, 0),
    (OpCode::IntNeg, 1, -1),
    (OpCode::IntNeg, i64::MAX, -9223372036854775807),
    (OpCode::IntInvert, i64::MIN, i64::MAX),
    (OpCode::IntInvert, -1, 0),
    (OpCode::IntInvert, 0, -1),
    (OpCode::IntInvert, 1, -2),
    (OpCode::IntInvert, i64::MAX, i64::MIN),
    (OpCode::IntForceGeZero, i64::MIN, 0),
    (OpCode::IntForceGeZero, -1, 0),
    (OpCode::IntForceGeZero, 0, 0),
    (OpCode::IntForceGeZero, 1, 1),
    (OpCode::IntForceGeZero, i64::MAX, i64::MAX),
    (OpCode::SameAsI, i64::MIN, i64::MIN),
    (OpCode::SameAsI, -1, -1),
    (OpCode::SameAsI, 0, 0),
    (OpCode::SameAsI, 1, 1),
    (OpCode::SameAsI, i64::MAX, i64::MAX),
];

#[test]
fn lists_and_texts(rt: HostRuntime) -> Result<(), Fail> {
    let mut list = List::of(Vec::new(rt.alloc()));
    list.push(7u32)?;
    let copy = list.copy()?;
    assert_eq!(rt; copy.items(), [7u32].as_slice());
    let text = Text::new(b"loop");
    assert_eq!(rt; text.bytes(), b"loop".as_slice());
    Ok(())
}

#[test]
fn folds_edge_words(rt: HostRuntime) {
    for (code, a, b, want) in OF_TWO {
        assert_eq!(rt; fold(code, &[a, b]), Some(want));
    }
    for (code, a, want) in OF_ONE {
        assert_eq!(rt; fold(code, &[a]), Some(want));
    }
}

#[test]
fn folds_nothing_else(rt: HostRuntime) {
    assert_eq!(rt; fold(OpCode::IntAddOvf, &[1, 2]), None);
    assert_eq!(rt; fold(OpCode::IntAdd, &[1]), None);
    assert_eq!(rt; fold(OpCode::NewArrayClear, &[1]), None);
    assert_eq!(rt; fold(OpCode::PtrEq, &[1, 1]), None);
    assert!(rt; add_overflows(i64::MAX, 1));
    assert!(rt; mul_overflows(i64::MIN, -1));
    assert!(rt; !sub_overflows(i64::MIN, 0));
}

fn int_box(number: u32) -> Arg {
    Arg::Of(BoxId {
        kind: Kind::Int,
        number,
    })
}

fn op(
    alloc: Global,
    code: OpCode,
    args: &[Arg],
    descr: Descr,
    snapshot: Vec<Frame>,
) -> Result<Op, AllocError> {
    Ok(Op {
        code,
        result: None,
        args: List::of(Vec::from_slice(alloc, args)?),
        descr,
        snapshot: List::of(snapshot),
    })
}

fn frame(alloc: Global, slots: &[Arg]) -> Result<Frame, AllocError> {
    Ok(Frame {
        name: Text::new(b"f"),
        pc: 0,
        slots: List::of(Vec::from_slice(alloc, slots)?),
    })
}

// A table with one size of two fields.
fn table(alloc: Global) -> Result<Table, AllocError> {
    let fields = List::of(Vec::from_slice(alloc, &[0, 1])?);
    let size = SizeRow {
        name: Text::new(b"pair"),
        vtable: None,
        fields,
    };
    Ok(Table {
        shapes: List::of(Vec::new(alloc)),
        sizes: List::of(vec![in alloc; size]?),
        fields: List::of(Vec::new(alloc)),
        arrays: List::of(Vec::new(alloc)),
        calls: List::of(Vec::new(alloc)),
        functions: List::of(Vec::new(alloc)),
        prebuilts: List::of(Vec::new(alloc)),
    })
}

fn named(alloc: Global, name: Text, origin: Origin, ops: Vec<Op>) -> Trace {
    Trace {
        name,
        origin,
        label: false,
        inputs: List::of(Vec::new(alloc)),
        ops: List::of(ops),
    }
}

// A sum of two integers.
fn sum(alloc: Global, name: Text, origin: Origin) -> Result<Trace, AllocError> {
    let add = op(
        alloc,
        OpCode::IntAdd,
        &[int_box(0), int_box(1)],
        Descr::No,
        Vec::new(alloc),
    )?;
    let finish = op(
        alloc,
        OpCode::Finish,
        &[int_box(2)],
        Descr::No,
        Vec::new(alloc),
    )?;
    let ops = vec![in alloc; add, finish]?;
    Ok(named(alloc, name, origin, ops))
}

#[test]
fn a_sum_weighs_five(rt: HostRuntime) -> Result<(), Fail> {
    let alloc = rt.alloc();
    let trace = sum(alloc, Text::new(b"sum"), Origin::Loop)?;
    let set = TraceSet {
        table: table(alloc)?,
        traces: List::of(vec![in alloc; trace]?),
    };
    assert_eq!(rt; weight(&set), 5);
    let copy = set.copy()?;
    assert!(rt; copy == set);
    Ok(())
}

#[test]
fn a_bridge_weighs_its_parent_too(rt: HostRuntime) -> Result<(), Fail> {
    let alloc = rt.alloc();
    let name = Text::new(b"sum");
    let above = sum(alloc, name, Origin::Loop)?;
    let from = Origin::Bridge {
        parent: name,
        guard: 0,
    };
    let below = sum(alloc, Text::new(b"side"), from)?;
    let set = TraceSet {
        table: table(alloc)?,
        traces: List::of(vec![in alloc; below, above]?),
    };
    assert_eq!(rt; weight(&set), 15);
    Ok(())
}

// A call of 35, an allocation of 3, a guard with two frames of 5.
#[test]
fn calls_allocations_and_frames_weigh_more(rt: HostRuntime) -> Result<(), Fail> {
    let alloc = rt.alloc();
    let call = op(
        alloc,
        OpCode::CallN,
        &[Arg::Func(0), int_box(0)],
        Descr::Call(0),
        Vec::new(alloc),
    )?;
    let new = op(alloc, OpCode::New, &[], Descr::Size(0), Vec::new(alloc))?;
    let outer = frame(alloc, &[int_box(0), int_box(1)])?;
    let inner = frame(alloc, &[Arg::Null])?;
    let frames = vec![in alloc; outer, inner]?;
    let guard = op(alloc, OpCode::GuardTrue, &[int_box(0)], Descr::No, frames)?;
    let ops = vec![in alloc; call, new, guard]?;
    let set = TraceSet {
        table: table(alloc)?,
        traces: List::of(vec![in alloc; named(alloc, Text::new(b"t"), Origin::Loop, ops)]?),
    };
    assert_eq!(rt; weight(&set), 43);
    Ok(())
}

fn int_of(number: u32) -> BoxId {
    BoxId {
        kind: Kind::Int,
        number,
    }
}

fn known(number: u32) -> Val {
    Val::Known(int_box(number))
}

#[test]
fn parts_come_in_order(rt: HostRuntime) -> Result<(), Fail> {
    let alloc = rt.alloc();
    let slots = List::of(Vec::from_slice(alloc, &[known(4), Val::Virtual(0), known(2)])?);
    let parts_of_shape = List::of(Vec::from_slice(alloc, &[known(2), known(9)])?);
    let frame = OptFrame {
        name: Text::new(b"f"),
        pc: 0,
        slots,
    };
    let shape = Shape {
        of: ShapeOf::Size(0),
        parts: parts_of_shape,
    };
    let store = Pending {
        base: int_box(7),
        spot: Spot::Field(0),
        value: known(1),
    };
    let snap = Snapshot {
        frames: List::of(vec![in alloc; frame]?),
        shapes: List::of(vec![in alloc; shape]?),
        pending: List::of(vec![in alloc; store]?),
    };
    let boxes = parts(alloc, &snap)?;
    let want = [int_of(4), int_of(2), int_of(9), int_of(7), int_of(1)];
    assert_eq!(rt; boxes.as_slice(), want.as_slice());
    let copy = snap.copy()?;
    assert!(rt; copy == snap);
    Ok(())
}
