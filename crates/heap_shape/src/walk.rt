//! The listing of what the roots reach.

ghost use Rattle.std.specs.Prelude.{◌≡◌, ◌<◌, ◌^◌, length, slice_get, Some, map, IfOk, OnOk};
ghost use Rattle.heap_shape.specs.Visiting.{visited, AllVisited, AreWithin, IsClosed, IsNumbered, PartsVisited};
ghost use Rattle.heap_shape.specs.Listing.{cell_of, cells, listing as listing_of};

use crate::visits::Visits;
use crate::{Cell, Ref};
use std::alloc::{AllocError, Global};
use trace_meaning::{Object, Store, Value};
use trace_ops::List;

// Each object that the roots reach is visited: the roots, and then the parts of each object in the order of visit.
fn visit_all(alloc: Global, objects: &[Object], roots: &[Value]) -> Result<Visits, AllocError>
    requires few { length objects.now < 2 ^ 32 }
    requires closed { IsClosed objects.now }
    requires roots { AreWithin (length objects.now) roots.now }
    ensures order { IfOk result (λ v. v.order.items ≡ visited objects.now roots.now) }
    ensures count { IfOk result (λ v. length v.numbers.items ≡ length objects.now) }
    ensures numbered { IfOk result (λ v. IsNumbered v.order.items v.numbers.items) }
    ensures roots { IfOk result (λ v. AllVisited v.order.items roots.now) }
    ensures parts { IfOk result (λ v. PartsVisited objects.now v.order.items) }
{
    let mut visits = Visits::new(alloc, objects.len())?;
    visits.add_values(roots)?;
    let mut done = 0;
    while done < visits.order.len() {
        let object = visits.order[done] as usize;
        visits.add_values(objects[object].parts.items())?;
        done += 1;
    }
    Ok(visits)
}

// The cell of an object.
fn cell(alloc: Global, visits: &Visits, object: &Object) -> Result<Cell, AllocError>
    requires visited { AllVisited visits.now.order.items object.now.parts }
    requires numbered { IsNumbered visits.now.order.items visits.now.numbers.items }
    ensures { IfOk result (λ c. c ≡ cell_of visits.now.order.items object.now) }
{
    let parts = visits.refs_of(alloc, object.parts.items())?;
    Ok(Cell {
        of: object.of,
        parts: List::of(parts),
    })
}

// The cells of all objects visited.
fn cells(alloc: Global, visits: &Visits, objects: &[Object]) -> Result<Vec<Cell>, AllocError>
    requires visited { PartsVisited objects.now visits.now.order.items }
    requires count { length visits.now.numbers.items ≡ length objects.now }
    requires numbered { IsNumbered visits.now.order.items visits.now.numbers.items }
    ensures { IfOk result (λ cs. cs.items ≡ cells objects.now visits.now.order.items visits.now.order.items) }
{
    let mut made = Vec::new(alloc);
    for object in &visits.order {
        made.push(cell(alloc, visits, &objects[*object as usize])?)?;
    }
    Ok(made)
}

/// The objects that the roots reach, in the order of first visit, and the roots. The roots are visited from left to right,
/// and then the parts of each object in the order of its visit; an object's number is its place in this order. The time is
/// linear in the store and the roots.
///
/// Each object that a root or a part names is in the store, which has fewer than 2^32 objects.
pub fn listing(
    alloc: Global,
    store: &Store,
    roots: &[Value],
) -> Result<(Vec<Cell>, Vec<Ref>), AllocError>
    requires few { length store.now.objects < 2 ^ 32 }
    requires closed { IsClosed store.now.objects }
    requires roots { AreWithin (length store.now.objects) roots.now }
    ensures cells { IfOk result (λ l. l.0.items ≡ (listing_of store.now.objects roots.now).0) }
    ensures roots { IfOk result (λ l. l.1.items ≡ (listing_of store.now.objects roots.now).1) }
{
    let objects = store.objects.items();
    let visits = visit_all(alloc, objects, roots)?;
    let made = cells(alloc, &visits, objects)?;
    let refs = visits.refs_of(alloc, roots)?;
    Ok((made, refs))
}
