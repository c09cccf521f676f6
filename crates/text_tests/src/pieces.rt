//! Worked pieces, and the lines that write them.

ghost use Rattle.std.specs.Prelude.{◌≤◌, length};

use std::alloc::{AllocError, Global};
use std::test::*;
use text_lines::lines_are_few;
use trace_ops::{
    Arg, BoxId, Descr, Half, Kind, List, OpCode, OptFrame, OptOp, OptTrace, Pending, Piece,
    PieceId, Shape, ShapeOf, Snapshot, Spot, Text, Val,
};
use trace_text::{read_set, write_opt};

const TABLE: &[u8] =
    b"%table\nsize node\nfield x of node i\nfield y of node i\nfield next of node r\narray ia i\n%loop L\n[]\n";

// A box of an integer, and of a reference.
fn int(number: u32) -> BoxId {
    BoxId {
        kind: Kind::Int,
        number,
    }
}

fn reference(number: u32) -> BoxId {
    BoxId {
        kind: Kind::Ref,
        number,
    }
}

fn list<T: Copy>(alloc: Global, items: &[T]) -> Result<List<T>, AllocError> {
    Ok(List::of(Vec::from_slice(alloc, items)?))
}

// One frame of L, and what else a guard needs.
fn snapshot(
    alloc: Global,
    pc: u32,
    slots: &[Val],
    shapes: Vec<Shape>,
    pending: &[Pending],
) -> Result<Snapshot, AllocError> {
    let frame = OptFrame {
        name: Text::new(b"L"),
        pc,
        slots: list(alloc, slots)?,
    };
    let mut frames = Vec::new(alloc);
    frames.push(frame)?;
    Ok(Snapshot {
        frames: List::of(frames),
        shapes: List::of(shapes),
        pending: list(alloc, pending)?,
    })
}

fn shape(alloc: Global, of: ShapeOf, parts: &[Val]) -> Result<Vec<Shape>, AllocError> {
    let mut shapes = Vec::new(alloc);
    shapes.push(Shape {
        of,
        parts: list(alloc, parts)?,
    })?;
    Ok(shapes)
}

fn guard_true(alloc: Global, of: BoxId, guard: u32, snap: Snapshot) -> Result<OptOp, AllocError> {
    Ok(OptOp::Guard {
        code: OpCode::GuardTrue,
        args: list(alloc, &[Arg::Of(of)])?,
        guard,
        snap,
    })
}

fn plain(
    alloc: Global,
    code: OpCode,
    made: Option<BoxId>,
    args: &[Arg],
    descr: Descr,
) -> Result<OptOp, AllocError> {
    Ok(OptOp::Plain {
        code,
        result: made,
        args: list(alloc, args)?,
        descr,
    })
}

fn traced(
    alloc: Global,
    half: Half,
    label: &[BoxId],
    ops: Vec<OptOp>,
) -> Result<OptTrace, AllocError> {
    let mut pieces = Vec::new(alloc);
    pieces.push(Piece {
        id: PieceId { trace: 0, half },
        label: list(alloc, label)?,
        ops: List::of(ops),
    })?;
    Ok(OptTrace {
        pieces: List::of(pieces),
    })
}

// The text of one optimised trace; nothing where the set isn't read.
fn written(alloc: Global, opt: OptTrace) -> Result<Vec<u8>, AllocError> {
    lines_are_few();
    let mut all = Vec::new(alloc);
    all.push(opt)?;
    match read_set(alloc, TABLE) {
        Ok((set, _)) => write_opt(alloc, &set, all.as_slice()),
        Err(_) => Ok(Vec::new(alloc)),
    }
}

// A store that waits behind a guard.
fn late_store(alloc: Global) -> Result<Vec<u8>, AllocError> {
    let parts = [
        Val::Known(Arg::Of(int(1))),
        Val::Known(Arg::Const(0)),
        Val::Known(Arg::Null),
    ];
    let store = Pending {
        base: Arg::Of(reference(0)),
        spot: Spot::Field(2),
        value: Val::Virtual(0),
    };
    let slots = [Val::Known(Arg::Of(reference(0)))];
    let node = shape(alloc, ShapeOf::Size(0), &parts)?;
    let snap = snapshot(alloc, 0, &slots, node, &[store])?;
    let made = [Arg::Of(reference(2)), Arg::Of(int(1))];
    let mut ops = Vec::new(alloc);
    ops.push(guard_true(alloc, int(1), 0, snap)?)?;
    ops.push(plain(alloc, OpCode::SetfieldGc, None, &made, Descr::Field(0))?)?;
    written(
        alloc,
        traced(alloc, Half::Pre, &[reference(0), int(1)], ops)?,
    )
}

#[test]
fn a_virtual_object_and_a_pending_store_stand_behind_the_frames(
    rt: HostRuntime,
) -> Result<(), Fail> {
    let text = late_store(rt.alloc())?;
    assert!(rt;
        text.as_slice()
            == b"%opt\npiece L.a [p0, i1]\nguard_true(i1) L/0 @L:0[p0] where v0=node(i1, 0, NULL) pending p0.next=v0\nsetfield_gc(p2, i1, descr=x)\n".as_slice()
    );
    Ok(())
}

// An array that no object stands for.
fn virtual_array(alloc: Global) -> Result<Vec<u8>, AllocError> {
    let items = [
        Val::Known(Arg::Const(0)),
        Val::Known(Arg::Const(0)),
        Val::Known(Arg::Of(int(0))),
    ];
    let array = shape(alloc, ShapeOf::Array(0), &items)?;
    let snap = snapshot(alloc, 0, &[Val::Virtual(0)], array, &[])?;
    let added = [Arg::Of(int(0)), Arg::Const(3)];
    let mut ops = Vec::new(alloc);
    ops.push(plain(alloc, OpCode::IntAdd, Some(int(1)), &added, Descr::No)?)?;
    ops.push(guard_true(alloc, int(1), 0, snap)?)?;
    ops.push(OptOp::Finish {
        value: Some(Arg::Of(int(1))),
    })?;
    written(alloc, traced(alloc, Half::Pre, &[int(0)], ops)?)
}

#[test]
fn a_virtual_array_has_its_items_in_brackets(rt: HostRuntime) -> Result<(), Fail> {
    let text = virtual_array(rt.alloc())?;
    assert!(rt;
        text.as_slice()
            == b"%opt\npiece L.a [i0]\ni1 = int_add(i0, 3)\nguard_true(i1) L/0 @L:0[v0] where v0=ia[0, 0, i0]\nfinish(i1)\n".as_slice()
    );
    Ok(())
}

// A guard that always fails, and a jump to a body.
fn endings(alloc: Global) -> Result<Vec<u8>, AllocError> {
    let slots = [Val::Known(Arg::Of(int(0)))];
    let snap = snapshot(alloc, 2, &slots, Vec::new(alloc), &[])?;
    let to = PieceId {
        trace: 0,
        half: Half::Body,
    };
    let args = list(alloc, &[Arg::Of(int(2)), Arg::Of(int(1))])?;
    let mut ops = Vec::new(alloc);
    ops.push(OptOp::Exit { guard: 2, snap })?;
    ops.push(OptOp::Jump { to, args })?;
    ops.push(OptOp::Finish { value: None })?;
    written(alloc, traced(alloc, Half::Body, &[int(0), int(1)], ops)?)
}

#[test]
fn a_piece_ends_at_an_exit_a_jump_or_a_finish(rt: HostRuntime) -> Result<(), Fail> {
    let text = endings(rt.alloc())?;
    assert!(rt;
        text.as_slice()
            == b"%opt\npiece L.b [i0, i1]\nexit L/2 @L:2[i0]\njump L.b(i2, i1)\nfinish()\n".as_slice()
    );
    Ok(())
}
