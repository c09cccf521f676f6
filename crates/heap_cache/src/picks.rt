//! Parts of a list of pending stores, in order.

ghost use Rattle.std.specs.Prelude.{◌≡◌, filter, IfOk};
ghost use Rattle.heap_cache.specs.Content.{is_off, is_among, is_off_all, is_through, is_item_store, is_off_items};

use crate::key::{Key, is_elsewhere, is_item};
use std::alloc::{AllocError, Global};
use trace_ops::{Arg, Pending, Spot};

/// Those at the spot, through another base.
pub fn elsewhere(
    alloc: Global,
    pending: &[Pending],
    base: Arg,
    spot: Spot,
) -> Result<Vec<Pending>, AllocError>
    ensures { IfOk result (λ out. out.items ≡ filter (is_through base spot) pending.now) }
{
    let mut out = Vec::new(alloc);
    for p in pending {
        if is_elsewhere(
            base,
            spot,
            Key {
                base: p.base,
                spot: p.spot,
            },
        ) {
            out.push(*p)?;
        }
    }
    Ok(out)
}

/// Those at other spots.
pub fn off(alloc: Global, pending: &[Pending], spot: Spot) -> Result<Vec<Pending>, AllocError>
    ensures { IfOk result (λ out. out.items ≡ filter (is_off spot) pending.now) }
{
    let mut out = Vec::new(alloc);
    for p in pending {
        if p.spot != spot {
            out.push(*p)?;
        }
    }
    Ok(out)
}

/// Those at one of the spots.
pub fn among(alloc: Global, pending: &[Pending], spots: &[Spot]) -> Result<Vec<Pending>, AllocError>
    ensures { IfOk result (λ out. out.items ≡ filter (is_among spots.now) pending.now) }
{
    let mut out = Vec::new(alloc);
    for p in pending {
        if spots.contains(&p.spot) {
            out.push(*p)?;
        }
    }
    Ok(out)
}

/// Those at none of the spots.
pub fn off_all(
    alloc: Global,
    pending: &[Pending],
    spots: &[Spot],
) -> Result<Vec<Pending>, AllocError>
    ensures { IfOk result (λ out. out.items ≡ filter (is_off_all spots.now) pending.now) }
{
    let mut out = Vec::new(alloc);
    for p in pending {
        if !spots.contains(&p.spot) {
            out.push(*p)?;
        }
    }
    Ok(out)
}

/// Those at items of the array.
pub fn items(alloc: Global, pending: &[Pending], array: u32) -> Result<Vec<Pending>, AllocError>
    ensures { IfOk result (λ out. out.items ≡ filter (is_item_store array) pending.now) }
{
    let mut out = Vec::new(alloc);
    for p in pending {
        if is_item(array, p.spot) {
            out.push(*p)?;
        }
    }
    Ok(out)
}

/// Those that are at no item of the array.
pub fn off_items(alloc: Global, pending: &[Pending], array: u32) -> Result<Vec<Pending>, AllocError>
    ensures { IfOk result (λ out. out.items ≡ filter (is_off_items array) pending.now) }
{
    let mut out = Vec::new(alloc);
    for p in pending {
        if !is_item(array, p.spot) {
            out.push(*p)?;
        }
    }
    Ok(out)
}
