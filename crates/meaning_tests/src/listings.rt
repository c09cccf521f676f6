//! Listings of small heaps, cyclic ones among them, and the roots of a run.
ghost use Rattle.std.specs.Prelude.{◌≡◌, [], ◌∷◌, IfOk};

use heap_shape::*;
use std::alloc::{AllocError, Global};
use std::test::*;
use trace_meaning::{CallEvent, Object, Store, Value};
use trace_ops::{List, ShapeOf};

// A structure with an integer and a reference.
fn node(alloc: Global, x: i64, next: Value) -> Result<Object, AllocError>
    ensures { IfOk result (λ o. o.parts ≡ Value.Int x ∷ next ∷ []) }
{
    let parts = vec![in alloc; Value::Int(x), next]?;
    Ok(Object {
        of: ShapeOf::Size(0),
        parts: List::of(parts),
    })
}

// The same of a listing.
fn listed(alloc: Global, x: i64, next: Ref) -> Result<Cell, AllocError> {
    let parts = vec![in alloc; Ref::Int(x), next]?;
    Ok(Cell {
        of: ShapeOf::Size(0),
        parts: List::of(parts),
    })
}

#[test]
fn a_cycle_is_numbered_from_its_root(rt: HostRuntime) -> Result<(), Fail> {
    let alloc = rt.alloc();
    let a = node(alloc, 1, Value::Obj(1))?;
    let b = node(alloc, 2, Value::Obj(0))?;
    let store = Store {
        objects: List::of(vec![in alloc; a, b]?),
    };
    let roots = [Value::Obj(1), Value::Obj(1)];
    let (cells, refs) = listing(alloc, &store, roots.as_slice())?;
    let first = listed(alloc, 2, Ref::Num(1))?;
    let second = listed(alloc, 1, Ref::Num(0))?;
    let expected = vec![in alloc; first, second]?;
    assert_eq!(rt; cells.as_slice(), expected.as_slice());
    assert_eq!(rt; refs.as_slice(), [Ref::Num(0), Ref::Num(0)].as_slice());
    Ok(())
}

#[test]
fn shared_objects_are_listed_once_and_unreached_ones_never(rt: HostRuntime) -> Result<(), Fail> {
    let alloc = rt.alloc();
    let shared = node(alloc, 1, Value::Null)?;
    let unreached = node(alloc, 2, Value::Obj(0))?;
    let left = node(alloc, 3, Value::Obj(0))?;
    let right = node(alloc, 4, Value::Obj(0))?;
    let store = Store {
        objects: List::of(vec![in alloc; shared, unreached, left, right]?),
    };
    let roots = [Value::Null, Value::Obj(3), Value::Int(9), Value::Obj(2)];
    let (cells, refs) = listing(alloc, &store, roots.as_slice())?;
    let first = listed(alloc, 4, Ref::Num(2))?;
    let second = listed(alloc, 3, Ref::Num(2))?;
    let third = listed(alloc, 1, Ref::Null)?;
    assert_eq!(rt; third.copy()?, third);
    let expected = vec![in alloc; first, second, third]?;
    assert_eq!(rt; cells.as_slice(), expected.as_slice());
    assert_eq!(rt;
        refs.as_slice(),
        [Ref::Null, Ref::Num(0), Ref::Int(9), Ref::Num(1)].as_slice()
    );
    Ok(())
}

#[test]
fn an_object_that_names_itself_is_seen_by_a_call(rt: HostRuntime) -> Result<(), Fail> {
    let alloc = rt.alloc();
    let call = CallEvent {
        function: 0,
        args: List::of(vec![in alloc; Value::Obj(0)]?),
        seen: List::of(vec![in alloc; Value::Int(7), Value::Obj(0)]?),
        gives: None,
    };
    let calls = vec![in alloc; call]?;
    let last = [Value::Obj(0)];
    let seen = roots(alloc, 0, calls.as_slice(), last.as_slice())?;
    let expected = [Value::Obj(0), Value::Int(7), Value::Obj(0), Value::Obj(0)];
    assert_eq!(rt; seen.as_slice(), expected.as_slice());
    let object = node(alloc, 7, Value::Obj(0))?;
    let store = Store {
        objects: List::of(vec![in alloc; object]?),
    };
    let (cells, refs) = listing(alloc, &store, expected.as_slice())?;
    let expected = vec![in alloc; listed(alloc, 7, Ref::Num(0))?]?;
    assert_eq!(rt; cells.as_slice(), expected.as_slice());
    assert_eq!(rt;
        refs.as_slice(),
        [Ref::Num(0), Ref::Int(7), Ref::Num(0), Ref::Num(0)].as_slice()
    );
    Ok(())
}

#[test]
fn prebuilt_objects_come_first_and_what_a_call_gave_behind_it(rt: HostRuntime) -> Result<(), Fail> {
    let alloc = rt.alloc();
    let call = CallEvent {
        function: 0,
        args: List::of(vec![in alloc; Value::Int(5)]?),
        seen: List::of(vec![in alloc; Value::Null]?),
        gives: Some(Value::Obj(2)),
    };
    let calls = vec![in alloc; call]?;
    let seen = roots(alloc, 2, calls.as_slice(), [Value::Int(6)].as_slice())?;
    let expected = [
        Value::Obj(0),
        Value::Obj(1),
        Value::Int(5),
        Value::Null,
        Value::Obj(2),
        Value::Int(6),
    ];
    assert_eq!(rt; seen.as_slice(), expected.as_slice());
    Ok(())
}
