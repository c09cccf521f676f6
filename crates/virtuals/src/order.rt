//! The order in which virtual objects are made and filled.

ghost use Rattle.std.specs.Prelude.{◌≡◌, ◌<◌, ◌^◌, ◌++◌, map, length, All, IfOk, OnOk};
ghost use Rattle.virtuals.specs.Shapes.{parts_of, IsLive, IsSound};
ghost use Rattle.virtuals.specs.Order.{added as added_to, added_part as added_one, added_parts as added_each, fills_from, all_fills, AreMarks, IsReach};
ghost use Rattle.virtuals.specs.declared.order.Forced.TheVariants.{Make, Fill};

use crate::shapes::is_zero;
use smallvec::SmallVec;
use std::alloc::{AllocError, Global};
use std::collections::HashSet;
use trace_ops::{Shape, Val};

/// A step of forcing: an object is made with parts that are 0 or NULL, or the part of that index of an object gets its value.
#[derive(Clone, Copy, Debug, PartialEq, Eq)]
pub enum Forced {
    Make(u32),
    Fill(u32, u32, Val),
}

// The virtual object is among those that are to be made. A mark says whether it is already.
fn add(work: &mut SmallVec<u32, 8>, marks: &mut HashSet<u32>, id: u32) -> Result<(), AllocError>
    requires { AreMarks work.old.items marks.old.keys }
    ensures listed { OnOk result (work.new.items ≡ added_to work.old.items id) }
    ensures marked { OnOk result (AreMarks work.new.items marks.new.keys) }
{
    if marks.contains(&id) {
        return Ok(());
    }
    work.push(id)?;
    marks.insert(id)?;
    Ok(())
}

// The same of a part that is a virtual object.
fn add_part(
    work: &mut SmallVec<u32, 8>,
    marks: &mut HashSet<u32>,
    part: Val,
) -> Result<(), AllocError>
    requires { AreMarks work.old.items marks.old.keys }
    ensures listed { OnOk result (work.new.items ≡ added_one work.old.items part) }
    ensures marked { OnOk result (AreMarks work.new.items marks.new.keys) }
{
    match part {
        Val::Known(_) => Ok(()),
        Val::Virtual(n) => add(work, marks, n),
    }
}

// The same of each part.
fn add_parts(
    work: &mut SmallVec<u32, 8>,
    marks: &mut HashSet<u32>,
    parts: &[Val],
) -> Result<(), AllocError>
    requires { AreMarks work.old.items marks.old.keys }
    ensures listed { OnOk result (work.new.items ≡ added_each work.old.items parts.now) }
    ensures marked { OnOk result (AreMarks work.new.items marks.new.keys) }
{
    for part in parts {
        add_part(work, marks, *part)?;
    }
    Ok(())
}

// The parts of a virtual object.
fn parts_at(shapes: &[Option<Shape>], id: u32) -> &[Val]
    requires { IsLive shapes.now id }
    ensures { result.now ≡ parts_of shapes.now id }
{
    shapes[id as usize].as_ref().unwrap().parts.items()
}

/// The virtual objects to which one leads, each once.
pub fn reachable(
    alloc: Global,
    shapes: &[Option<Shape>],
    id: u32,
) -> Result<SmallVec<u32, 8>, AllocError>
    requires live { IsLive shapes.now id }
    requires sound { IsSound shapes.now }
    ensures { IfOk result (λ made. IsReach shapes.now id made.items) }
{
    let mut work = SmallVec::new(alloc);
    let mut marks = HashSet::new(alloc);
    add(&mut work, &mut marks, id)?;
    let mut done = 0;
    while done < work.len() {
        let next = work.as_slice()[done];
        add_parts(&mut work, &mut marks, parts_at(shapes, next))?;
        done += 1;
    }
    Ok(work)
}

// The stores of the parts of one object.
fn fill(out: &mut Vec<Forced>, id: u32, parts: &[Val]) -> Result<(), AllocError>
    requires { length parts.now < 2 ^ 32 }
    ensures { OnOk result (out.new.items ≡ out.old.items ++ fills_from id 0 parts.now) }
{
    for k in 0..parts.len() {
        if !is_zero(parts[k]) {
            out.push(Forced::Fill(id, k as u32, parts[k]))?;
        }
    }
    Ok(())
}

/// Each of the objects is made, and then each is filled.
pub fn fills(
    alloc: Global,
    shapes: &[Option<Shape>],
    made: &[u32],
) -> Result<Vec<Forced>, AllocError>
    requires live { All (IsLive shapes.now) made.now }
    requires sound { IsSound shapes.now }
    ensures { IfOk result (λ out. out.items ≡ map Make made.now ++ all_fills shapes.now made.now) }
{
    let mut out = Vec::new(alloc);
    for id in made {
        out.push(Forced::Make(*id))?;
    }
    for id in made {
        fill(&mut out, *id, parts_at(shapes, *id))?;
    }
    Ok(out)
}
