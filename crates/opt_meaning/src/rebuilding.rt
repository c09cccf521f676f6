//! What a failing guard rebuilds, where it goes into no bridge.

ghost use Rattle.std.specs.Prelude.{◌≡◌, ◌<◌, ◌^◌, ◌++◌, Some, None, length, option_and_then, IfOk, OnOk};
ghost use Rattle.std.specs.Option.{option_map};
ghost use Rattle.trace_meaning.specs.Kept.{IsOf, with_world};
ghost use Rattle.trace_meaning.specs.Boxes.{value_in};
ghost use Rattle.opt_meaning.specs.Rebuilding.{val_value as val_meant, all_of, made_object as object_meant, virtuals_made as virtuals_meant, pending_done as pending_meant, stores_done as stores_meant, frame_made as frame_meant, with_objects, rebuilt_from, rebuilt as rebuilt_meant, rebuilt_by as rebuilt_found, snapshot_in as snapshot_found};
ghost use Rattle.opt_meaning.specs.Standing.{frames_and_objects, IsWritten};

use crate::places::snapshot_in;
use std::alloc::{AllocError, Global};
use trace_meaning::{Boxes, Object, RecFrame, Store, Value, World};
use trace_ops::{List, OptFrame, OptOp, Pending, Shape, Snapshot, Table, Val, parts};

// The value of a slot, a part or a store; virtual k is object next + k.
fn val_value(boxes: &Boxes, next: u32, val: Val) -> Result<Option<Value>, AllocError>
    ensures { IfOk result (λ r. r ≡ val_meant (value_in boxes.now.values.entries) next val) }
{
    match val {
        Val::Known(arg) => Ok(boxes.value_of(arg)),
        Val::Virtual(k) => match next.checked_add(k) {
            None => Err(AllocError),
            Some(n) => Ok(Some(Value::Obj(n))),
        },
    }
}

// Those of a list, where all are there.
fn vals_values(
    alloc: Global,
    boxes: &Boxes,
    next: u32,
    vals: &[Val],
) -> Result<Option<Vec<Value>>, AllocError>
    ensures { IfOk result (λ r. option_map (λ v. v.items) r ≡ all_of (val_meant (value_in boxes.now.values.entries) next) vals.now) }
{
    let mut values = Vec::new(alloc);
    for val in vals {
        let Some(value) = val_value(boxes, next, *val)? else {
            return Ok(None);
        };
        values.push(value)?;
    }
    Ok(Some(values))
}

// A virtual object with its parts.
fn made_object(
    alloc: Global,
    boxes: &Boxes,
    next: u32,
    shape: &Shape,
) -> Result<Option<Object>, AllocError>
    ensures { IfOk result (λ r. r ≡ object_meant (value_in boxes.now.values.entries) next shape.now) }
{
    match vals_values(alloc, boxes, next, shape.parts.items())? {
        None => Ok(None),
        Some(parts) => Ok(Some(Object {
            of: shape.of,
            parts: List::of(parts),
        })),
    }
}

// All virtual objects.
fn made_objects(
    alloc: Global,
    boxes: &Boxes,
    next: u32,
    shapes: &[Shape],
) -> Result<Option<Vec<Object>>, AllocError>
    ensures { IfOk result (λ r. option_map (λ v. v.items) r ≡ all_of (object_meant (value_in boxes.now.values.entries) next) shapes.now) }
{
    let mut objects = Vec::new(alloc);
    for shape in shapes {
        let Some(object) = made_object(alloc, boxes, next, shape)? else {
            return Ok(None);
        };
        objects.push(object)?;
    }
    Ok(Some(objects))
}

fn frame_made(
    alloc: Global,
    boxes: &Boxes,
    next: u32,
    frame: &OptFrame,
) -> Result<Option<RecFrame>, AllocError>
    ensures { IfOk result (λ r. r ≡ frame_meant (value_in boxes.now.values.entries) next frame.now) }
{
    match vals_values(alloc, boxes, next, frame.slots.items())? {
        None => Ok(None),
        Some(slots) => Ok(Some(RecFrame {
            name: frame.name,
            pc: frame.pc,
            slots: List::of(slots),
        })),
    }
}

fn frames_made(
    alloc: Global,
    boxes: &Boxes,
    next: u32,
    frames: &[OptFrame],
) -> Result<Option<Vec<RecFrame>>, AllocError>
    ensures { IfOk result (λ r. option_map (λ v. v.items) r ≡ all_of (frame_meant (value_in boxes.now.values.entries) next) frames.now) }
{
    let mut made = Vec::new(alloc);
    for frame in frames {
        let Some(frame) = frame_made(alloc, boxes, next, frame)? else {
            return Ok(None);
        };
        made.push(frame)?;
    }
    Ok(Some(made))
}

// Adds objects, which get the next numbers.
fn add_all(world: &mut World, objects: Vec<Object>) -> Result<(), AllocError>
    ensures { OnOk result (world.new ≡ with_world world.old (with_objects world.old.world objects.items)) }
{
    for object in objects {
        if world.objects().len() >= 2147483648 {
            return Err(AllocError);
        }
        world.add(object)?;
    }
    Ok(())
}

// Does a store, where it can be done.
fn store_one(
    table: &Table,
    boxes: &Boxes,
    next: u32,
    store: Pending,
    world: &mut World,
) -> Result<bool, AllocError>
    requires { IsOf table.now world.old }
    ensures { IfOk result (λ done. IsWritten world.old world.new done (pending_meant table.now (value_in boxes.now.values.entries) next store world.old.world)) }
{
    let Some(base) = boxes.value_of(store.base) else {
        return Ok(false);
    };
    let Some(value) = val_value(boxes, next, store.value)? else {
        return Ok(false);
    };
    Ok(world.write(table, store.spot, base, value))
}

// Does stores in order, where they can be done.
fn store_all(
    table: &Table,
    boxes: &Boxes,
    next: u32,
    stores: &[Pending],
    world: &mut World,
) -> Result<bool, AllocError>
    requires { IsOf table.now world.old }
    ensures { IfOk result (λ done. IsWritten world.old world.new done (stores_meant table.now (value_in boxes.now.values.entries) next stores.now world.old.world)) }
{
    for store in stores {
        if !store_one(table, boxes, next, *store, world)? {
            return Ok(false);
        }
    }
    Ok(true)
}

// The virtual objects are made and the stores done, behind these objects.
fn rebuilt_world(
    alloc: Global,
    table: &Table,
    boxes: &Boxes,
    next: u32,
    snap: &Snapshot,
    world: World,
) -> Result<Option<World>, AllocError>
    requires of { IsOf table.now world }
    requires next { next ≡ length world.world.objects }
    ensures { IfOk result (λ r. option_map (λ k. k.world) r ≡ option_and_then (stores_meant table.now (value_in boxes.now.values.entries) next snap.now.pending) (virtuals_meant (value_in boxes.now.values.entries) snap.now.shapes world.world)) }
{
    let mut world = world;
    let Some(objects) = made_objects(alloc, boxes, next, snap.shapes.items())? else {
        return Ok(None);
    };
    add_all(&mut world, objects)?;
    if store_all(table, boxes, next, snap.pending.items(), &mut world)? {
        Ok(Some(world))
    } else {
        Ok(None)
    }
}

// What a snapshot rebuilds from boxes, behind these objects.
fn rebuild_from(
    alloc: Global,
    table: &Table,
    boxes: &Boxes,
    next: u32,
    snap: &Snapshot,
    world: World,
) -> Result<Option<(List<RecFrame>, Store)>, AllocError>
    requires of { IsOf table.now world }
    requires next { next ≡ length world.world.objects }
    ensures { IfOk result (λ r. option_map (λ x. (x.0, x.1.objects)) r ≡ frames_and_objects (rebuilt_from table.now (value_in boxes.now.values.entries) snap.now world.world)) }
{
    let Some(world) = rebuilt_world(alloc, table, boxes, next, snap, world)? else {
        return Ok(None);
    };
    let Some(frames) = frames_made(alloc, boxes, next, snap.frames.items())? else {
        return Ok(None);
    };
    let store = world.store().copy()?;
    Ok(Some((List::of(frames), store)))
}

// What a snapshot rebuilds from the values of its boxes, each once.
fn rebuild(
    alloc: Global,
    table: &Table,
    snap: &Snapshot,
    values: &[Value],
    world: &World,
) -> Result<Option<(List<RecFrame>, Store)>, AllocError>
    requires of { IsOf table.now world.now }
    requires few { length world.now.world.objects < 2 ^ 31 }
    ensures { IfOk result (λ r. option_map (λ x. (x.0, x.1.objects)) r ≡ frames_and_objects (rebuilt_meant table.now snap.now values.now world.now.world)) }
{
    let label = parts(alloc, snap)?;
    let boxes = Boxes::bound_to(alloc, &label, values)?;
    let next = world.objects().len() as u32;
    let alone = world.objects_alone()?;
    rebuild_from(alloc, table, &boxes, next, snap, alone)
}

/// What guard n of some operations rebuilds, from the values of its boxes.
pub fn rebuild_at(
    alloc: Global,
    table: &Table,
    ops: &[OptOp],
    n: u32,
    values: &[Value],
    world: &World,
) -> Result<Option<(List<RecFrame>, Store)>, AllocError>
    requires of { IsOf table.now world.now }
    requires few { length world.now.world.objects < 2 ^ 31 }
    ensures { IfOk result (λ r. option_map (λ x. (x.0, x.1.objects)) r ≡ frames_and_objects (rebuilt_found table.now (snapshot_found ops.now n) values.now world.now.world)) }
{
    match snapshot_in(ops, n) {
        None => Ok(None),
        Some(snap) => rebuild(alloc, table, snap, values, world),
    }
}
