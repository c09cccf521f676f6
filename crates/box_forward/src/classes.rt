//! Nodes in classes, where all nodes of a class have one value: trees that are joined by size.
ghost use Rattle.std.specs.Prelude.{◌≡◌, ℕ, ◌+◌, ◌<◌, ◌≤◌, ◌^◌, ◌⊎◌, Some, IfOk, length, map, slice_get, slice_set};
ghost use Rattle.trace_ops.specs.declared.trace.Arg.{Arg as OneArg};
ghost use Rattle.trace_ops.specs.declared.trace.Arg.TheVariants.{Of};
ghost use Rattle.trace_ops.specs.declared.trace.BoxId.{BoxId as OneBox};
ghost use Rattle.box_forward.specs.Forwarding.{IsConstant};
ghost use Rattle.box_forward.specs.Trees.{root as root_in, own_at, renamed, AreOwn, AreWithin, IsLinked};

use std::alloc::{AllocError, Global};
use std::marker::Model;
use trace_ops::{Arg, BoxId, Kind};

/// Nodes in classes, as a list of their values.
#[derive(Drop)]
pub struct Classes {
    parents: Vec<usize>,
    sizes: Vec<usize>,
    values: Vec<Arg>,
    links: usize,
}

impl Model for Classes {
    ghost use Rattle.std.specs.Prelude.{List, length};
    ghost use Rattle.trace_ops.specs.declared.trace.Arg.{Arg};
    ghost use Rattle.box_forward.specs.Trees.{values_from, IsForest};

    ghost Value = { List Arg };

    ghost view = { λ c. values_from c.links c.parents.items c.values.items 0 (length c.parents.items) };

    ghost invariant = { λ c. IsForest c.links c.parents.items c.sizes.items c.values.items };
}

// The root of a node's tree, which is no more than so many parents above it.
fn root_of(parents: &[usize], links: usize, node: usize) -> usize
    requires node { node < length parents.now }
    requires within { AreWithin parents.now }
    ensures root { result ≡ root_in links parents.now node }
    ensures within { result < length parents.now }
{
    let mut at = node;
    let mut left = links;
    while left > 0 {
        let parent = parents[at];
        if parent == at {
            return at;
        }
        at = parent;
        left -= 1;
    }
    at
}

// The smaller of two trees, and the other.
fn smaller_first(sizes: &[usize], a: usize, b: usize) -> (usize, usize)
    requires first { a < length sizes.now }
    requires second { b < length sizes.now }
    ensures { (result ≡ (a, b)) ⊎ (result ≡ (b, a)) }
{
    if sizes[a] < sizes[b] { (a, b) } else { (b, a) }
}

// Makes the smaller of two trees a part of the other; the root of both.
fn link(parents: &mut Vec<usize>, sizes: &mut Vec<usize>, a: usize, b: usize) -> usize
    requires first { a < length parents.old.items }
    requires second { b < length parents.old.items }
    requires each { length sizes.old.items ≡ length parents.old.items }
    ensures linked { IsLinked parents.old.items a b parents.new.items result }
    ensures each { length sizes.new.items ≡ length sizes.old.items }
{
    let (child, root) = smaller_first(sizes, a, b);
    sizes[root] = sizes[root].saturating_add(sizes[child]);
    parents[child] = root;
    root
}

// The value of a node at first.
fn own(boxes: usize, node: usize) -> Arg
    requires few { boxes < 2 ^ 32 }
    requires node { node < boxes + boxes }
    ensures { result ≡ own_at boxes node }
{
    if node < boxes {
        Arg::Of(BoxId {
            kind: Kind::Int,
            number: node as u32,
        })
    } else {
        Arg::Of(BoxId {
            kind: Kind::Ref,
            number: (node - boxes) as u32,
        })
    }
}

fn owns(alloc: Global, boxes: usize) -> Result<Vec<Arg>, AllocError>
    requires few { boxes < 2 ^ 32 }
    ensures { IfOk result (λ values. AreOwn boxes values.items) }
{
    let mut values = Vec::with_capacity(alloc, boxes + boxes)?;
    for node in 0..boxes + boxes {
        values.push(own(boxes, node))?;
    }
    Ok(values)
}

fn own_parents(alloc: Global, count: usize) -> Result<Vec<usize>, AllocError>
    ensures each { IfOk result (λ parents. (k : ℕ) → k < count → slice_get parents.items k ≡ Some k) }
    ensures len { IfOk result (λ parents. length parents.items ≡ count) }
{
    let mut parents = Vec::with_capacity(alloc, count)?;
    for node in 0..count {
        parents.push(node)?;
    }
    Ok(parents)
}

fn ones(alloc: Global, count: usize) -> Result<Vec<usize>, AllocError>
    ensures { IfOk result (λ sizes. length sizes.items ≡ count) }
{
    Vec::from_elem(alloc, 1, count)
}

impl Classes {
    /// Two nodes for each of the boxes, each in a class of its own: first for the boxes as integers, then as references.
    pub fn new(alloc: Global, boxes: u32) -> Result<Classes, AllocError>
        ensures { IfOk result (λ c. AreOwn boxes c) }
    {
        let boxes = boxes as usize;
        let parents = own_parents(alloc, boxes + boxes)?;
        let sizes = ones(alloc, boxes + boxes)?;
        let values = owns(alloc, boxes)?;
        Ok(Classes {
            parents,
            sizes,
            values,
            links: 0,
        })
    }

    /// The value of a node. The time is logarithmic.
    pub fn value(&self, node: usize) -> Arg
        requires { node < length self.now }
        ensures { slice_get self.now node ≡ Some result }
    {
        self.values[root_of(&self.parents, self.links, node)]
    }

    /// The nodes that have the first node's box have the other node's from now on.
    pub fn join(&mut self, node: usize, other: usize)
        requires node { (b : OneBox) × (slice_get self.old node ≡ Some (Of b)) }
        requires other { (b : OneBox) × (slice_get self.old other ≡ Some (Of b)) }
        requires apart { slice_get self.old node ≡ slice_get self.old other → ⊥ }
        ensures { (b c : OneBox) → slice_get self.old node ≡ Some (Of b) → slice_get self.old other ≡ Some (Of c)
            → self.new ≡ map (renamed b (Of c)) self.old }
    {
        let a = root_of(&self.parents, self.links, node);
        let b = root_of(&self.parents, self.links, other);
        let to = self.values[b];
        let root = link(&mut self.parents, &mut self.sizes, a, b);
        self.values[root] = to;
        self.links += 1;
    }

    /// The nodes that have the node's box have this constant from now on.
    pub fn settle(&mut self, node: usize, to: Arg)
        requires node { (b : OneBox) × (slice_get self.old node ≡ Some (Of b)) }
        requires constant { IsConstant to }
        ensures { (b : OneBox) → slice_get self.old node ≡ Some (Of b) → self.new ≡ map (renamed b to) self.old }
    {
        let a = root_of(&self.parents, self.links, node);
        self.values[a] = to;
    }
}
