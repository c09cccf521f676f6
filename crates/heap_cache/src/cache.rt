//! The cache itself: what is known of spots, and the stores that are held back.

ghost use Rattle.std.specs.Prelude.{◌≡◌, filter, IfOk, OnOk, OnErr};
ghost use Rattle.heap_cache.specs.Content.{empty, value_at, noted, wrote, flushed, flushed_all, flushed_items, forgot, forgot_items, is_among, is_through, is_item_store};

use crate::key::{Key, is_elsewhere, is_field, is_item};
use crate::picks::{among, elsewhere, items, off, off_all, off_items};
use indexmap::IndexMap;
use std::alloc::{AllocError, Global};
use std::marker::Model;
use trace_ops::{Arg, Pending, Spot, Val};

/// What is known of spots, and the stores that are still to be done.
#[derive(Drop)]
pub struct Cache {
    alloc: Global,
    known: IndexMap<Key, Val>,
    pending: Vec<Pending>,
}

impl Model for Cache {
    ghost use Rattle.heap_cache.specs.Content.{Content};

    ghost Value = { Content };

    ghost view = { λ c. record { known = c.known.entries; pending = c.pending.items } };
}

impl Cache {
    /// Nothing is known, and nothing is pending.
    pub fn new(alloc: Global) -> Result<Cache, AllocError>
        ensures { IfOk result (λ cache. cache ≡ empty) }
    {
        Ok(Cache {
            alloc,
            known: IndexMap::new(alloc),
            pending: Vec::new(alloc),
        })
    }

    /// What the spot of the base is known to hold: the last value that a note or a late store gave it, unless a later
    /// late store went to the spot through another base, or a later `forget` or `forget_items` dropped it.
    pub fn read(&self, base: Arg, spot: Spot) -> Option<Val>
        ensures { result ≡ value_at self.now.known base spot }
    {
        self.known.get(&Key { base, spot }).copied()
    }

    /// The stores that are still to be done, in order.
    pub fn pending(&self) -> &[Pending]
        ensures { result.now ≡ self.now.pending }
    {
        self.pending.as_slice()
    }

    /// The spot has this value, after a read or a store that was done at once. Whoever calls it sees to it that no pending
    /// store is to change the spot.
    pub fn note(&mut self, base: Arg, spot: Spot, value: Val) -> Result<(), AllocError>
        ensures ok { OnOk result (self.new ≡ noted base spot value self.old) }
        ensures err { OnErr result (self.new ≡ self.old) }
    {
        self.known.insert(Key { base, spot }, value)?;
        Ok(())
    }

    /// A store that is to be done later. What comes out, in order, are the pending stores that may touch the spot
    /// through another base: they are to be done first. An older pending store to the same base and spot is dropped.
    pub fn write_late(
        &mut self,
        base: Arg,
        spot: Spot,
        value: Val,
    ) -> Result<Vec<Pending>, AllocError>
        ensures ok { OnOk result (self.new ≡ wrote base spot value self.old) }
        ensures out { IfOk result (λ out. out.items ≡ filter (is_through base spot) self.old.pending) }
        ensures err { OnErr result (self.new ≡ self.old) }
    {
        let out = elsewhere(self.alloc, &self.pending, base, spot)?;
        let mut pending = off(self.alloc, &self.pending, spot)?;
        pending.push(Pending { base, spot, value })?;
        self.known.insert(Key { base, spot }, value)?;
        self.known.retain(|k, _| !is_elsewhere(base, spot, *k));
        self.pending = pending;
        Ok(out)
    }

    /// The pending stores of these spots come out, in order, to be done now. What is known stays.
    pub fn flush(&mut self, spots: &[Spot]) -> Result<Vec<Pending>, AllocError>
        ensures ok { OnOk result (self.new ≡ flushed spots.now self.old) }
        ensures out { IfOk result (λ out. out.items ≡ filter (is_among spots.now) self.old.pending) }
        ensures err { OnErr result (self.new ≡ self.old) }
    {
        let out = among(self.alloc, &self.pending, spots)?;
        self.pending = off_all(self.alloc, &self.pending, spots)?;
        Ok(out)
    }

    /// All pending stores come out, in order, to be done now. What is known stays.
    pub fn flush_all(&mut self) -> Result<Vec<Pending>, AllocError>
        ensures ok { OnOk result (self.new ≡ flushed_all self.old) }
        ensures out { IfOk result (λ out. out.items ≡ self.old.pending) }
        ensures err { OnErr result (self.new ≡ self.old) }
    {
        let out = Vec::from_slice(self.alloc, &self.pending)?;
        self.pending.clear();
        Ok(out)
    }

    /// The pending stores to items of this kind of array come out, in order, to be done now. What is known stays.
    pub fn flush_items(&mut self, array: u32) -> Result<Vec<Pending>, AllocError>
        ensures ok { OnOk result (self.new ≡ flushed_items array self.old) }
        ensures out { IfOk result (λ out. out.items ≡ filter (is_item_store array) self.old.pending) }
        ensures err { OnErr result (self.new ≡ self.old) }
    {
        let out = items(self.alloc, &self.pending, array)?;
        self.pending = off_items(self.alloc, &self.pending, array)?;
        Ok(out)
    }

    /// What is known, in the order in which it became known.
    pub fn known(&self) -> Result<Vec<(Key, Val)>, AllocError>
        ensures { IfOk result (λ known. known.items ≡ self.now.known) }
    {
        let mut known = Vec::new(self.alloc);
        for i in 0..self.known.len() {
            if let Some((k, v)) = self.known.get_index(i) {
                known.push((*k, *v))?;
            }
        }
        Ok(known)
    }

    /// Nothing is known of these fields from now on. Pending stores stay.
    pub fn forget(&mut self, fields: &[u32])
        ensures { self.new ≡ forgot fields.now self.old }
    {
        self.known.retain(|k, _| !is_field(fields, k.spot));
    }

    /// Nothing is known of the items of this kind of array from now on. Pending stores stay.
    pub fn forget_items(&mut self, array: u32)
        ensures { self.new ≡ forgot_items array self.old }
    {
        self.known.retain(|k, _| !is_item(array, k.spot));
    }
}
