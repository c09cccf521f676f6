//! Objects that are allocated, found and counted in a small arena.

ghost use Rattle.std.specs.Prelude.{◌≡◌, length, IfOk};

use arena_objects::{Found, Full, Headers, Walked, allocate, begins_at, object_at};
use std::alloc::{AllocError, Global};
use std::test::Fail;
use target_base::ArenaWords;
use trace_ops::{ArrayRow, FieldRow, Kind, List, ShapeOf, SizeRow, Table, Text};

const NODE: ShapeOf = ShapeOf::Size(0);

const ITEMS: ShapeOf = ShapeOf::Array(0);

// A size of two fields, whose header number is 1, and an array, whose header number is 2.
fn table(alloc: Global) -> Result<Table, AllocError>
    ensures { IfOk result (λ t. length t.shapes ≡ 2) }
{
    let field = FieldRow {
        name: Text::new(b"x"),
        size: 0,
        kind: Kind::Int,
        immutable: false,
    };
    let node = SizeRow {
        name: Text::new(b"node"),
        vtable: None,
        fields: List::of(vec![in alloc; 0u32, 1]?),
    };
    let items = ArrayRow {
        name: Text::new(b"items"),
        kind: Kind::Int,
    };
    let shapes = vec![in alloc; NODE, ITEMS]?;
    let sizes = vec![in alloc; node]?;
    let fields = vec![in alloc; field, field]?;
    let arrays = vec![in alloc; items]?;
    Ok(Table {
        shapes: List::of(shapes),
        sizes: List::of(sizes),
        fields: List::of(fields),
        arrays: List::of(arrays),
        calls: List::of(Vec::new(alloc)),
        functions: List::of(Vec::new(alloc)),
        prebuilts: List::of(Vec::new(alloc)),
    })
}

#[test]
fn shapes_have_header_numbers(rt: HostRuntime) -> Result<(), Fail> {
    let table = table(rt.alloc())?;
    let headers = Headers::new(rt.alloc(), &table)?;
    assert_eq!(rt; headers.of(NODE), 1);
    assert_eq!(rt; headers.of(ITEMS), 2);
    Ok(())
}

#[test]
fn objects_are_allocated_and_found(rt: HostRuntime) -> Result<(), Fail> {
    let table = table(rt.alloc())?;
    let mut arena = ArenaWords::new(vec![in rt.alloc(); 0i64; 8]?, 0);
    assert_eq!(rt; allocate(&mut arena, NODE, 1, 2), Ok(0x1000_0000));
    assert_eq!(rt; allocate(&mut arena, ITEMS, 2, 3), Ok(0x1000_0018));
    assert_eq!(rt; arena.read(0x1000_0018), Some(2));
    assert_eq!(rt; arena.read(0x1000_0020), Some(3));
    let full = Full { asked: 16, left: 0 };
    assert_eq!(rt; allocate(&mut arena, ITEMS, 2, 0), Err(full));
    let most = Full {
        asked: u64::MAX,
        left: 0,
    };
    assert_eq!(rt; allocate(&mut arena, ITEMS, 2, u64::MAX), Err(most));
    let found = Found {
        at: 0x1000_0018,
        of: ITEMS,
        parts: 3,
    };
    assert_eq!(rt; begins_at(&table, &arena, 0x1000_0018), Some(found));
    assert_eq!(rt; object_at(&table, &arena, 0x1000_0000), Some(0));
    assert_eq!(rt; object_at(&table, &arena, 0x1000_0018), Some(1));
    assert_eq!(rt; object_at(&table, &arena, 0x1000_0008), None);
    assert_eq!(rt; object_at(&table, &arena, 0), None);
    let mut walked = Walked::new(rt.alloc(), arena.size())?;
    walked.walk(&table, &arena);
    assert_eq!(rt; walked.number_of(0x1000_0018), Some(1));
    assert_eq!(rt; walked.number_of(0x1000_0020), None);
    Ok(())
}
