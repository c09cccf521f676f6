//! The loop of an interpreter that calls a helper, counts and ticks, with two bridges: its table and its traces' names.

use crate::making::trace;
use std::alloc::{AllocError, Global};
use trace_ops::{
    CallRow, FieldRow, Initial, Kind, List, Origin, PrebuiltRow, ShapeOf, SizeRow, Table, Text,
    TraceSet,
};

// Rows of its table: a number in a box, and a cell that counts.
pub const W_INT: u32 = 0;

pub const STAT: u32 = 1;

pub const VALUE: u32 = 0;

pub const COUNT: u32 = 1;

// Its prebuilt objects: 0 and 10 in boxes, and a cell.
pub const ZERO: u32 = 0;

pub const TEN: u32 = 1;

pub const CELL: u32 = 2;

fn size(
    alloc: Global,
    name: Text,
    vtable: Option<Text>,
    field: u32,
) -> Result<SizeRow, AllocError> {
    let fields = Vec::from_slice(alloc, &[field])?;
    Ok(SizeRow {
        name,
        vtable,
        fields: List::of(fields),
    })
}

fn sizes(alloc: Global) -> Result<Vec<SizeRow>, AllocError> {
    let number = size(
        alloc,
        Text::new(b"W_Int"),
        Some(Text::new(b"W_Int_vt")),
        VALUE,
    )?;
    let cell = size(alloc, Text::new(b"Cell"), None, COUNT)?;
    Ok(vec![in alloc; number, cell]?)
}

fn field(name: Text, size: u32) -> FieldRow {
    FieldRow {
        name,
        size,
        kind: Kind::Int,
        immutable: false,
    }
}

fn fields(alloc: Global) -> Result<Vec<FieldRow>, AllocError> {
    let value = field(Text::new(b"intval"), W_INT);
    let count = field(Text::new(b"count"), STAT);
    Ok(vec![in alloc; value, count]?)
}

fn calls(alloc: Global) -> Result<Vec<CallRow>, AllocError> {
    let args = vec![in alloc; Kind::Int]?;
    let row = CallRow {
        name: Text::new(b"tickd"),
        args: List::of(args),
        result: Some(Kind::Int),
        reads: List::of(Vec::new(alloc)),
        writes: List::of(Vec::new(alloc)),
    };
    Ok(vec![in alloc; row]?)
}

fn prebuilt(alloc: Global, name: Text, size: u32, value: i64) -> Result<PrebuiltRow, AllocError> {
    let parts = vec![in alloc; Initial::Int(value)]?;
    Ok(PrebuiltRow {
        name,
        of: ShapeOf::Size(size),
        parts: List::of(parts),
    })
}

fn prebuilts(alloc: Global) -> Result<Vec<PrebuiltRow>, AllocError> {
    let zero = prebuilt(alloc, Text::new(b"zero"), W_INT, 0)?;
    let ten = prebuilt(alloc, Text::new(b"ten"), W_INT, 10)?;
    let cell = prebuilt(alloc, Text::new(b"stat"), STAT, 0)?;
    Ok(vec![in alloc; zero, ten, cell]?)
}

fn table_of(alloc: Global) -> Result<Table, AllocError> {
    let sizes = sizes(alloc)?;
    let fields = fields(alloc)?;
    let calls = calls(alloc)?;
    let prebuilts = prebuilts(alloc)?;
    let shapes = vec![in alloc; ShapeOf::Size(W_INT), ShapeOf::Size(STAT)]?;
    let functions = vec![in alloc; Text::new(b"tick")]?;
    Ok(Table {
        shapes: List::of(shapes),
        sizes: List::of(sizes),
        fields: List::of(fields),
        arrays: List::of(Vec::new(alloc)),
        calls: List::of(calls),
        functions: List::of(functions),
        prebuilts: List::of(prebuilts),
    })
}

fn from_main(guard: u32) -> Origin {
    Origin::Bridge {
        parent: Text::new(b"main"),
        guard,
    }
}

/// The loop, and its bridges from the tests that its counter is even and below the limit.
pub fn set(alloc: Global) -> Result<TraceSet, AllocError> {
    let table = table_of(alloc)?;
    let main = trace(alloc, Text::new(b"main"), Origin::Loop);
    let odd = trace(alloc, Text::new(b"odd"), from_main(3));
    let done = trace(alloc, Text::new(b"done"), from_main(2));
    let traces = vec![in alloc; main, odd, done]?;
    Ok(TraceSet {
        table,
        traces: List::of(traces),
    })
}
