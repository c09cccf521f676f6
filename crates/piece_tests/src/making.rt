//! Tables, traces and pieces of the examples, made part by part.

use std::alloc::{AllocError, Global};
use trace_ops::{
    Arg, BoxId, CallRow, Descr, FieldRow, Half, Initial, Kind, List, OpCode, OptFrame, OptOp,
    Origin, Pending, Piece, PieceId, PrebuiltRow, Shape, ShapeOf, SizeRow, Snapshot, Spot, Table,
    Text, Trace, TraceSet, Val,
};

// Rows of the table: a node has x, y and next, a cell has one number.
pub const NODE: u32 = 0;

pub const CELL: u32 = 1;

pub const X: u32 = 0;

pub const NEXT: u32 = 2;

pub const NUMBER: u32 = 3;

fn field(name: Text, size: u32, kind: Kind) -> FieldRow {
    FieldRow {
        name,
        size,
        kind,
        immutable: false,
    }
}

fn fields(alloc: Global) -> Result<Vec<FieldRow>, AllocError> {
    let mut fields = Vec::new(alloc);
    fields.push(field(Text::new(b"x"), NODE, Kind::Int))?;
    fields.push(field(Text::new(b"y"), NODE, Kind::Int))?;
    fields.push(field(Text::new(b"next"), NODE, Kind::Ref))?;
    fields.push(field(Text::new(b"val"), CELL, Kind::Int))?;
    Ok(fields)
}

fn node(alloc: Global) -> Result<SizeRow, AllocError> {
    let fields = Vec::from_slice(alloc, &[0, 1, 2])?;
    Ok(SizeRow {
        name: Text::new(b"node"),
        vtable: None,
        fields: List::of(fields),
    })
}

fn cell(alloc: Global) -> Result<SizeRow, AllocError> {
    let fields = Vec::from_slice(alloc, &[3])?;
    Ok(SizeRow {
        name: Text::new(b"box"),
        vtable: Some(Text::new(b"W_Int")),
        fields: List::of(fields),
    })
}

fn sizes(alloc: Global) -> Result<Vec<SizeRow>, AllocError> {
    let node = node(alloc)?;
    let cell = cell(alloc)?;
    Ok(vec![in alloc; node, cell]?)
}

// A call of a node, which reads its x and next.
fn calls(alloc: Global) -> Result<Vec<CallRow>, AllocError> {
    let args = vec![in alloc; Kind::Ref]?;
    let reads = Vec::from_slice(alloc, &[X, NEXT])?;
    let row = CallRow {
        name: Text::new(b"fr"),
        args: List::of(args),
        result: None,
        reads: List::of(reads),
        writes: List::of(Vec::new(alloc)),
    };
    Ok(vec![in alloc; row]?)
}

fn root(alloc: Global) -> Result<PrebuiltRow, AllocError> {
    let parts = vec![in alloc; Initial::Int(1), Initial::Int(10), Initial::Null]?;
    Ok(PrebuiltRow {
        name: Text::new(b"root"),
        of: ShapeOf::Size(NODE),
        parts: List::of(parts),
    })
}

fn zero(alloc: Global) -> Result<PrebuiltRow, AllocError> {
    let parts = vec![in alloc; Initial::Int(0)]?;
    Ok(PrebuiltRow {
        name: Text::new(b"zero"),
        of: ShapeOf::Size(CELL),
        parts: List::of(parts),
    })
}

// A node and a cell that hold 1, 10, NULL and 0.
pub fn root_and_zero(alloc: Global) -> Result<Vec<PrebuiltRow>, AllocError> {
    let root = root(alloc)?;
    let zero = zero(alloc)?;
    Ok(vec![in alloc; root, zero]?)
}

pub fn table(alloc: Global, prebuilts: Vec<PrebuiltRow>) -> Result<Table, AllocError> {
    let sizes = sizes(alloc)?;
    let fields = fields(alloc)?;
    let calls = calls(alloc)?;
    let shapes = vec![in alloc; ShapeOf::Size(NODE), ShapeOf::Size(CELL)]?;
    let functions = vec![in alloc; Text::new(b"f")]?;
    Ok(Table {
        shapes: List::of(shapes),
        sizes: List::of(sizes),
        fields: List::of(fields),
        arrays: List::of(Vec::new(alloc)),
        calls: List::of(calls),
        functions: List::of(functions),
        prebuilts: List::of(prebuilts),
    })
}

// A trace by its name and where it comes from: a run of pieces looks at no more of it.
pub fn trace(alloc: Global, name: Text, origin: Origin) -> Trace {
    Trace {
        name,
        origin,
        label: false,
        inputs: List::of(Vec::new(alloc)),
        ops: List::of(Vec::new(alloc)),
    }
}

// A set of one loop.
pub fn loop_alone(alloc: Global, table: Table) -> Result<TraceSet, AllocError> {
    let trace = trace(alloc, Text::new(b"L"), Origin::Loop);
    let traces = vec![in alloc; trace]?;
    Ok(TraceSet {
        table,
        traces: List::of(traces),
    })
}

pub fn integer(number: u32) -> BoxId {
    BoxId {
        kind: Kind::Int,
        number,
    }
}

pub fn reference(number: u32) -> BoxId {
    BoxId {
        kind: Kind::Ref,
        number,
    }
}

pub fn i(number: u32) -> Arg {
    Arg::Of(integer(number))
}

pub fn p(number: u32) -> Arg {
    Arg::Of(reference(number))
}

// An operation of a piece.
pub fn plain(
    alloc: Global,
    code: OpCode,
    made: Option<BoxId>,
    args: &[Arg],
    descr: Descr,
) -> Result<OptOp, AllocError> {
    let args = Vec::from_slice(alloc, args)?;
    Ok(OptOp::Plain {
        code,
        result: made,
        args: List::of(args),
        descr,
    })
}

// One frame with these slots, and shapes and stores that are still to be done.
pub fn snapshot(
    alloc: Global,
    slots: &[Val],
    shapes: Vec<Shape>,
    pending: Vec<Pending>,
) -> Result<Snapshot, AllocError> {
    let slots = Vec::from_slice(alloc, slots)?;
    let frame = OptFrame {
        name: Text::new(b"L"),
        pc: 0,
        slots: List::of(slots),
    };
    let frames = vec![in alloc; frame]?;
    Ok(Snapshot {
        frames: List::of(frames),
        shapes: List::of(shapes),
        pending: List::of(pending),
    })
}

// A guard of a piece.
pub fn tested(
    alloc: Global,
    code: OpCode,
    args: &[Arg],
    guard: u32,
    snap: Snapshot,
) -> Result<OptOp, AllocError> {
    let args = Vec::from_slice(alloc, args)?;
    Ok(OptOp::Guard {
        code,
        args: List::of(args),
        guard,
        snap,
    })
}

pub fn shape(alloc: Global, size: u32, parts: &[Val]) -> Result<Shape, AllocError> {
    let parts = Vec::from_slice(alloc, parts)?;
    Ok(Shape {
        of: ShapeOf::Size(size),
        parts: List::of(parts),
    })
}

pub fn pending(base: Arg, field: u32, value: Val) -> Pending {
    Pending {
        base,
        spot: Spot::Field(field),
        value,
    }
}

pub fn jump(alloc: Global, half: Half, args: &[Arg]) -> Result<OptOp, AllocError> {
    let args = Vec::from_slice(alloc, args)?;
    Ok(OptOp::Jump {
        to: PieceId { trace: 0, half },
        args: List::of(args),
    })
}

// A piece of the loop.
pub fn piece(
    alloc: Global,
    half: Half,
    label: &[BoxId],
    ops: Vec<OptOp>,
) -> Result<Piece, AllocError> {
    let label = Vec::from_slice(alloc, label)?;
    Ok(Piece {
        id: PieceId { trace: 0, half },
        label: List::of(label),
        ops: List::of(ops),
    })
}
