//! The table, the words of its arena, and resume tables of one guard.

ghost use Rattle.std.specs.Prelude.{◌≡◌, ◌≤◌, length, IfOk};

use resume_numbering::{FrameRow, GuardRow, PendingRow, ResumeTable, VirtualRow};
use std::alloc::{AllocError, Global};
use trace_ops::{
    Arg, ArrayRow, FieldRow, Initial, Kind, List, PrebuiltRow, ShapeOf, SizeRow, Spot, Table, Text,
    Word,
};

// A node has a number and a next one.
const NODE: ShapeOf = ShapeOf::Size(0);

const NUMBER: Spot = Spot::Field(0);

const NEXT: Spot = Spot::Field(1);

// Tagged numbers: boxes, constants and virtual objects.
const BOX_OF_INTEGER: u32 = 0;

const BOX_OF_ROOT: u32 = 4;

const FIRST_CONST: u32 = 2;

const SECOND_CONST: u32 = 6;

const FIRST_VIRTUAL: u32 = 3;

const SECOND_VIRTUAL: u32 = 7;

// 1, 2 and 9, and any small integer, tagged.
const ONE: u32 = 5;

const TWO: u32 = 9;

const NINE: u32 = 37;

fn small(k: u32) -> u32
    requires { k ≤ 1000 }
{
    4 * k + 1
}

fn field(name: Text, kind: Kind) -> FieldRow {
    FieldRow {
        name,
        size: 0,
        kind,
        immutable: false,
    }
}

fn node(alloc: Global) -> Result<SizeRow, AllocError> {
    let fields = Vec::from_slice(alloc, &[0, 1])?;
    Ok(SizeRow {
        name: Text::new(b"node"),
        vtable: None,
        fields: List::of(fields),
    })
}

fn root(alloc: Global) -> Result<PrebuiltRow, AllocError> {
    let parts = Vec::from_slice(alloc, &[Initial::Int(5), Initial::Null])?;
    Ok(PrebuiltRow {
        name: Text::new(b"root"),
        of: NODE,
        parts: List::of(parts),
    })
}

/// Nodes, arrays of integers, and one prebuilt node.
pub fn table(alloc: Global) -> Result<Table, AllocError> {
    let shapes = Vec::from_slice(alloc, &[NODE, ShapeOf::Array(0)])?;
    let number = field(Text::new(b"number"), Kind::Int);
    let next = field(Text::new(b"next"), Kind::Ref);
    let fields = Vec::from_slice(alloc, &[number, next])?;
    let integers = ArrayRow {
        name: Text::new(b"integers"),
        kind: Kind::Int,
    };
    let arrays = Vec::from_slice(alloc, &[integers])?;
    let node = node(alloc)?;
    let sizes = vec![in alloc; node]?;
    let root = root(alloc)?;
    let prebuilts = vec![in alloc; root]?;
    Ok(Table {
        shapes: List::of(shapes),
        sizes: List::of(sizes),
        fields: List::of(fields),
        arrays: List::of(arrays),
        calls: List::of(Vec::new(alloc)),
        functions: List::of(Vec::new(alloc)),
        prebuilts: List::of(prebuilts),
    })
}

/// So many words, the first three of which are the prebuilt node.
pub fn words(alloc: Global, count: usize) -> Result<Vec<Word>, AllocError>
    requires { 3 ≤ count }
    ensures { IfOk result (λ ws. length ws.items ≡ count) }
{
    let mut words = vec![in alloc; 0i64; count]?;
    words[0] = 1;
    words[1] = 5;
    Ok(words)
}

fn virtual_row(alloc: Global, of: ShapeOf, parts: &[u32]) -> Result<VirtualRow, AllocError> {
    let parts = Vec::from_slice(alloc, parts)?;
    Ok(VirtualRow {
        of,
        parts: List::of(parts),
    })
}

// A frame with these slots.
fn frames(alloc: Global, slots: &[u32]) -> Result<Vec<FrameRow>, AllocError> {
    let slots = Vec::from_slice(alloc, slots)?;
    let row = FrameRow {
        parent: None,
        name: Text::new(b"main"),
        pc: 7,
        slots: List::of(slots),
    };
    let rows = vec![in alloc; row]?;
    Ok(rows)
}

// Guard 0, in the first frame.
fn guards(
    alloc: Global,
    virtuals: &[u32],
    pending: &[PendingRow],
) -> Result<Vec<GuardRow>, AllocError> {
    let virtuals = Vec::from_slice(alloc, virtuals)?;
    let pending = Vec::from_slice(alloc, pending)?;
    let row = GuardRow {
        guard: 0,
        frame: 0,
        virtuals: List::of(virtuals),
        pending: List::of(pending),
    };
    let rows = vec![in alloc; row]?;
    Ok(rows)
}

// Two virtual nodes, each of which leads to the other.
fn two_nodes(alloc: Global) -> Result<Vec<VirtualRow>, AllocError> {
    let mut rows = Vec::new(alloc);
    rows.push(virtual_row(alloc, NODE, &[ONE, SECOND_VIRTUAL])?)?;
    rows.push(virtual_row(alloc, NODE, &[TWO, FIRST_VIRTUAL])?)?;
    Ok(rows)
}

/// Two virtual nodes that lead to each other; the first one stands in two slots.
pub fn cycle(alloc: Global) -> Result<ResumeTable, AllocError> {
    let virtuals = two_nodes(alloc)?;
    let frames = frames(alloc, &[FIRST_VIRTUAL, FIRST_VIRTUAL, SECOND_VIRTUAL])?;
    let guards = guards(alloc, &[0, 1], &[])?;
    Ok(ResumeTable {
        consts: List::of(Vec::new(alloc)),
        frames: List::of(frames),
        virtuals: List::of(virtuals),
        guards: List::of(guards),
    })
}

// The integers below 64, tagged.
fn integers(alloc: Global) -> Result<Vec<u32>, AllocError> {
    let mut numbers = Vec::new(alloc);
    for k in 0..64u32 {
        numbers.push(small(k))?;
    }
    Ok(numbers)
}

/// A virtual array of 64 items.
pub fn items(alloc: Global) -> Result<ResumeTable, AllocError> {
    let parts = integers(alloc)?;
    let row = VirtualRow {
        of: ShapeOf::Array(0),
        parts: List::of(parts),
    };
    let virtuals = vec![in alloc; row]?;
    let frames = frames(alloc, &[FIRST_VIRTUAL])?;
    let guards = guards(alloc, &[0], &[])?;
    Ok(ResumeTable {
        consts: List::of(Vec::new(alloc)),
        frames: List::of(frames),
        virtuals: List::of(virtuals),
        guards: List::of(guards),
    })
}

fn store(base: u32, spot: Spot, value: u32) -> PendingRow {
    PendingRow { base, spot, value }
}

fn stores(alloc: Global) -> Result<Vec<PendingRow>, AllocError> {
    let mut rows = Vec::new(alloc);
    rows.push(store(SECOND_CONST, NEXT, FIRST_VIRTUAL))?;
    rows.push(store(BOX_OF_ROOT, NUMBER, NINE))?;
    rows.push(store(BOX_OF_ROOT, NUMBER, BOX_OF_INTEGER))?;
    Ok(rows)
}

fn one_node(alloc: Global) -> Result<Vec<VirtualRow>, AllocError> {
    let mut rows = Vec::new(alloc);
    rows.push(virtual_row(alloc, NODE, &[ONE, FIRST_CONST])?)?;
    Ok(rows)
}

/// A virtual node, and stores that are still to be done: it into the prebuilt node, and twice a number into the node of a box.
pub fn pending(alloc: Global) -> Result<ResumeTable, AllocError> {
    let consts = Vec::from_slice(alloc, &[Arg::Null, Arg::Ptr(0)])?;
    let virtuals = one_node(alloc)?;
    let frames = frames(
        alloc,
        &[BOX_OF_ROOT, BOX_OF_INTEGER, SECOND_CONST, FIRST_CONST],
    )?;
    let stores = stores(alloc)?;
    let guards = guards(alloc, &[0], &stores)?;
    Ok(ResumeTable {
        consts: List::of(consts),
        frames: List::of(frames),
        virtuals: List::of(virtuals),
        guards: List::of(guards),
    })
}
