//! Single shapes, and their parts.

ghost use Rattle.std.specs.Prelude.{◌≡◌, ◌<◌, map, length, IfOk};
ghost use Rattle.std.specs.Option.{option_map};
ghost use Rattle.virtuals.specs.Namings.{namings, IsAtLeast};
ghost use Rattle.virtuals.specs.Shapes.{zero_of as zero, is_zero as is_zero_part, set_part, instead as box_instead, renamed as with_box, HasPart};

use std::alloc::{AllocError, Global};
use trace_ops::{Arg, BoxId, Kind, List, Shape, Val};

/// What a part of a fresh object is.
pub fn zero_of(kind: Kind) -> Val
    ensures { result ≡ zero kind }
{
    match kind {
        Kind::Int => Val::Known(Arg::Const(0)),
        Kind::Ref => Val::Known(Arg::Null),
    }
}

/// Whether a part needs no store.
pub fn is_zero(part: Val) -> bool
    ensures { result ≡ is_zero_part part }
{
    match part {
        Val::Known(Arg::Const(w)) => w == 0,
        Val::Known(Arg::Null) => true,
        _ => false,
    }
}

/// The parts of a fresh object.
pub fn zeros(alloc: Global, kinds: &[Kind]) -> Result<Vec<Val>, AllocError>
    ensures { IfOk result (λ parts. parts.items ≡ map zero kinds.now) }
{
    let mut parts = Vec::new(alloc);
    for kind in kinds {
        parts.push(zero_of(*kind))?;
    }
    Ok(parts)
}

/// The shape with another value at a part.
pub fn with_part(shape: Option<Shape>, part: u32, value: Val) -> Option<Shape>
    requires { HasPart part shape }
    ensures { result ≡ option_map (set_part part value) shape }
{
    match shape {
        None => None,
        Some(shape) => {
            let Shape { of, parts } = shape;
            let mut items = parts.into_items();
            items[part as usize] = value;
            Some(Shape {
                of,
                parts: List::of(items),
            })
        }
    }
}

/// The box in place of the virtual object.
pub fn instead(id: u32, to: BoxId, part: Val) -> Val
    ensures { result ≡ box_instead id to part }
{
    match part {
        Val::Known(_) => part,
        Val::Virtual(n) => {
            if n == id {
                Val::Known(Arg::Of(to))
            } else {
                part
            }
        }
    }
}

// The same in each part.
fn rename_parts(parts: &mut Vec<Val>, id: u32, to: BoxId)
    ensures { parts.new.items ≡ map (box_instead id to) parts.old.items }
{
    for k in 0..parts.len() {
        parts[k] = instead(id, to, parts[k]);
    }
}

// The same in a shape.
fn renamed(shape: Option<Shape>, id: u32, to: BoxId) -> Option<Shape>
    ensures { result ≡ option_map (with_box id to) shape }
{
    match shape {
        None => None,
        Some(shape) => {
            let Shape { of, parts } = shape;
            let mut items = parts.into_items();
            rename_parts(&mut items, id, to);
            Some(Shape {
                of,
                parts: List::of(items),
            })
        }
    }
}

// The same in each shape.
fn rename_all(shapes: &mut Vec<Option<Shape>>, id: u32, to: BoxId)
    ensures { shapes.new.items ≡ map (option_map (with_box id to)) shapes.old.items }
{
    for k in 0..shapes.len() {
        let shape = shapes[k].take();
        shapes[k] = renamed(shape, id, to);
    }
}

/// The same in each shape, where so many parts name the object.
pub fn rename_named(shapes: &mut Vec<Option<Shape>>, count: u32, id: u32, to: BoxId)
    requires { IsAtLeast count (namings id shapes.old.items) }
    ensures { shapes.new.items ≡ map (option_map (with_box id to)) shapes.old.items }
{
    if count > 0 {
        rename_all(shapes, id, to);
    }
}

/// Copies of the shapes, none of them forced.
pub fn copied(alloc: Global, shapes: &[Shape]) -> Result<Vec<Option<Shape>>, AllocError>
    ensures { IfOk result (λ out. out.items ≡ map Some shapes.now) }
{
    let mut out = Vec::with_capacity(alloc, shapes.len())?;
    for shape in shapes {
        out.push(Some(shape.copy()?))?;
    }
    Ok(out)
}
