//! The listing of what a run reaches, and the numbers of its roots.
ghost use Rattle.std.specs.Prelude.{◌≡◌, ◌<◌, ◌^◌, length, take, drop, IsTrue, IfOk};
ghost use Rattle.heap_shape.specs.Visiting.{IsWithin, AreWithin, IsClosed};
ghost use Rattle.heap_shape.specs.Listing.{listing as listing_of};

use heap_shape::{Cell, Ref, listing};
use std::alloc::{AllocError, Global};
use trace_meaning::{Object, Store, Value};

/// The first so many, and those behind; all and none where there are fewer.
pub fn parted(refs: &[Ref], count: usize) -> (&[Ref], &[Ref])
    ensures front { result.0.now ≡ take count refs.now }
    ensures behind { result.1.now ≡ drop count refs.now }
{
    if refs.len() < count {
        return (refs, &[]);
    }
    refs.split_at(count)
}

fn is_within(count: usize, value: Value) -> bool
    ensures { IsTrue result → IsWithin count value }
{
    match value {
        Value::Obj(object) => (object as usize) < count,
        _ => true,
    }
}

fn are_within(count: usize, values: &[Value]) -> bool
    ensures { IsTrue result → AreWithin count values.now }
{
    for value in values {
        if !is_within(count, *value) {
            return false;
        }
    }
    true
}

fn is_closed(objects: &[Object]) -> bool
    ensures { IsTrue result → IsClosed objects.now }
{
    for object in objects {
        if !are_within(objects.len(), object.parts.items()) {
            return false;
        }
    }
    true
}

/// What the roots reach, and the numbers of the roots.
///
/// # Errors
/// Want of memory, or a root or a part that names no object of the store, or a store of 2^32 objects.
pub fn listed(
    alloc: Global,
    store: &Store,
    roots: &[Value],
) -> Result<(Vec<Cell>, Vec<Ref>), AllocError>
    ensures cells { IfOk result (λ l. l.0.items ≡ (listing_of store.now.objects roots.now).0) }
    ensures roots { IfOk result (λ l. l.1.items ≡ (listing_of store.now.objects roots.now).1) }
{
    let objects = store.objects.items();
    let few = objects.len() < 1 << 32;
    let there = is_closed(objects) && are_within(objects.len(), roots);
    if few && there {
        listing(alloc, store, roots)
    } else {
        Err(AllocError)
    }
}
