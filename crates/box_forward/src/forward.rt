//! Which argument stands for each box.
ghost use Rattle.std.specs.Prelude.{◌≡◌, ◌+◌, ◌<◌, ◌^◌, None, Some, true, false, IfOk, length, replicate, slice_get, slice_set, map};
ghost use Rattle.trace_ops.specs.declared.trace.Arg.TheVariants.{Of};
ghost use Rattle.box_forward.specs.Forwarding.{followed, instead, IsWithin, IsApart, IsConstant, IsSettledAt, IsKeptBut};
ghost use Rattle.box_forward.specs.Tables.{node_at, IsOwnAt, IsValueAt};

use crate::classes::Classes;
use std::alloc::{AllocError, Global};
use std::marker::Model;
use trace_ops::{Arg, BoxId, Kind};

/// A finite map from boxes to their representatives; a box without one stands for itself. Boxes that stand for one
/// argument are a class, so that a change of it is a change of one value.
#[derive(Drop)]
pub struct Forward {
    classes: Classes,
    stood: Vec<bool>,
}

impl Model for Forward {
    ghost use Rattle.std.specs.Prelude.{List, Option};
    ghost use Rattle.trace_ops.specs.declared.trace.Arg.{Arg};
    ghost use Rattle.box_forward.specs.Tables.{table_from, IsTable};

    ghost Value = { List (Option Arg) };

    ghost view = { λ f. table_from 0 f.classes f.stood.items };

    ghost invariant = { λ f. IsTable f.classes f.stood.items };
}

// Where a box stands among nodes: the integers' stand before the references'.
fn node_of(b: BoxId, boxes: usize) -> usize
    requires { boxes < 2 ^ 32 }
    ensures { result ≡ node_at boxes b }
{
    match b.kind {
        Kind::Int => b.number as usize,
        Kind::Ref => boxes + b.number as usize,
    }
}

// The nodes that have the box, as an integer or a reference, have what a third has.
fn join_both(classes: &mut Classes, boxes: usize, from: u32, to: BoxId)
    requires own { IsOwnAt classes.old boxes from }
    requires other { slice_get classes.old (node_at boxes to) ≡ Some (Of to) }
    requires apart { IsApart from (Of to) }
    requires few { boxes < 2 ^ 32 }
    ensures { classes.new ≡ map (instead from (Of to)) classes.old }
{
    let other = node_of(to, boxes);
    classes.join(from as usize, other);
    classes.join(boxes + from as usize, other);
}

// The nodes that have the box, as an integer or a reference, have the constant.
fn settle_both(classes: &mut Classes, boxes: usize, from: u32, to: Arg)
    requires own { IsOwnAt classes.old boxes from }
    requires constant { IsConstant to }
    requires few { boxes < 2 ^ 32 }
    ensures { classes.new ≡ map (instead from to) classes.old }
{
    classes.settle(from as usize, to);
    classes.settle(boxes + from as usize, to);
}

// What had the box has `to`.
fn rename(classes: &mut Classes, stood: &[bool], from: u32, to: Arg)
    requires own { IsOwnAt classes.old (length stood.now) from }
    requires other { IsValueAt classes.old (length stood.now) to }
    requires apart { IsApart from to }
    requires few { length stood.now < 2 ^ 32 }
    ensures { classes.new ≡ map (instead from to) classes.old }
{
    match to {
        Arg::Of(b) => join_both(classes, stood.len(), from, b),
        _ => settle_both(classes, stood.len(), from, to),
    }
}

// Whether a box stands for another argument.
fn is_marked(stood: &[bool], number: u32) -> bool
    requires { number < length stood.now }
    ensures { slice_get stood.now number ≡ Some result }
{
    stood[number as usize]
}

fn mark(stood: &mut Vec<bool>, number: u32)
    requires { number < length stood.old.items }
    ensures { stood.new.items ≡ slice_set stood.old.items number true }
{
    stood[number as usize] = true;
}

fn unmarked(alloc: Global, boxes: u32) -> Result<Vec<bool>, AllocError>
    ensures { IfOk result (λ stood. stood.items ≡ replicate boxes false) }
{
    Vec::from_elem(alloc, false, boxes as usize)
}

impl Forward {
    /// Each of the boxes stands for itself.
    pub fn new(alloc: Global, boxes: u32) -> Result<Forward, AllocError>
        ensures { IfOk result (λ f. f ≡ replicate boxes None) }
    {
        let classes = Classes::new(alloc, boxes)?;
        let stood = unmarked(alloc, boxes)?;
        Ok(Forward { classes, stood })
    }

    /// What stands for an argument, which stands for itself.
    pub fn follow(&self, a: Arg) -> Arg
        requires { IsWithin self.now a }
        ensures value { result ≡ followed self.now a }
        ensures settled { IsSettledAt self.now result }
    {
        match a {
            Arg::Of(b) => {
                if is_marked(&self.stood, b.number) {
                    self.classes.value(b.number as usize)
                } else {
                    a
                }
            }
            _ => a,
        }
    }

    /// From now on the box is what `to` is.
    pub fn make_equal(&mut self, from: u32, to: Arg)
        requires own { slice_get self.old from ≡ Some None }
        requires within { IsWithin self.old to }
        requires apart { IsApart from (followed self.old to) }
        ensures becomes { (a : _) → followed self.new a ≡ instead from (followed self.old to) (followed self.old a) }
        ensures others { IsKeptBut from self.old self.new }
    {
        let to = self.follow(to);
        rename(&mut self.classes, &self.stood, from, to);
        mark(&mut self.stood, from);
    }

    /// From now on the box is that constant.
    pub fn make_constant(&mut self, from: u32, to: Arg)
        requires own { slice_get self.old from ≡ Some None }
        requires constant { IsConstant to }
        ensures becomes { (a : _) → followed self.new a ≡ instead from to (followed self.old a) }
        ensures others { IsKeptBut from self.old self.new }
    {
        self.make_equal(from, to);
    }
}
