//! What operations do that are no guard, jump or finish.

ghost use Rattle.std.specs.Prelude.{OnOk, ◌≡◌, ◌<◌, ◌^◌, length, IfOk, OnErr, ◌+ℤ◌, ◌-ℤ◌, ◌*ℤ◌};
ghost use Rattle.trace_meaning.specs.Performing.{perform as performed, value_done, overflowing as overflowed, get_field as field_got, set_field as field_set, get_item as item_got, set_item as item_set, get_length as length_got, make_structure as structure_made, make_array as array_made, made as made_object};
ghost use Rattle.trace_meaning.specs.Folding.{fold as fold_values};
ghost use Rattle.trace_meaning.specs.Kept.{IsOf};
ghost use Rattle.trace_meaning.specs.Steps.{IsNumbered, IsPerformed, write_shown};

use crate::calling::call;
use crate::folding::fold_pure;
use crate::objects::{cleared, index_of, length_at, read, zeroed};
use crate::world::World;
use crate::{Object, Value};
use std::alloc::{AllocError, Global};
use trace_ops::{
    Arg, Descr, OpCode, Spot, Table, add_overflows, mul_overflows, sub_overflows, wrap_add,
    wrap_mul, wrap_sub,
};

/// What came of an operation. `Misfitted` has the number of the call, counted from 0.
#[derive(Clone, Copy)]
pub enum Done {
    Gave(Option<Value>),
    Bad,
    Waited,
    Misfitted(u32),
}

// A value that is there.
fn done_with(world: &World, value: Option<Value>) -> Done
    ensures { IsPerformed (value_done world.now.world value) result world.now world.now }
{
    match value {
        None => Done::Bad,
        Some(value) => Done::Gave(Some(value)),
    }
}

fn add(values: &[Value], world: &mut World) -> Done
    ensures { IsPerformed (overflowed (λ a b. a +ℤ b) values.now world.old.world) result world.old world.new }
{
    match values {
        [Value::Int(a), Value::Int(b)] => {
            world.set_overflow(add_overflows(*a, *b));
            Done::Gave(Some(Value::Int(wrap_add(*a, *b))))
        }
        _ => Done::Bad,
    }
}

fn subtract(values: &[Value], world: &mut World) -> Done
    ensures { IsPerformed (overflowed (λ a b. a -ℤ b) values.now world.old.world) result world.old world.new }
{
    match values {
        [Value::Int(a), Value::Int(b)] => {
            world.set_overflow(sub_overflows(*a, *b));
            Done::Gave(Some(Value::Int(wrap_sub(*a, *b))))
        }
        _ => Done::Bad,
    }
}

fn multiply(values: &[Value], world: &mut World) -> Done
    ensures { IsPerformed (overflowed (λ a b. a *ℤ b) values.now world.old.world) result world.old world.new }
{
    match values {
        [Value::Int(a), Value::Int(b)] => {
            world.set_overflow(mul_overflows(*a, *b));
            Done::Gave(Some(Value::Int(wrap_mul(*a, *b))))
        }
        _ => Done::Bad,
    }
}

fn get_field(table: &Table, descr: Descr, values: &[Value], world: &World) -> Done
    ensures { IsPerformed (field_got table.now descr values.now world.now.world) result world.now world.now }
{
    let Descr::Field(field) = descr else {
        return Done::Bad;
    };
    match values {
        [base] => done_with(
            world,
            read(table, Spot::Field(field), *base, world.objects()),
        ),
        _ => Done::Bad,
    }
}

// A write that was done, or could not be.
fn written(done: bool) -> Done
    ensures { result ≡ write_shown done }
{
    if done { Done::Gave(None) } else { Done::Bad }
}

fn set_field(table: &Table, descr: Descr, values: &[Value], world: &mut World) -> Done
    requires { IsOf table.now world.old }
    ensures { IsPerformed (field_set table.now descr values.now world.old.world) result world.old world.new }
{
    let Descr::Field(field) = descr else {
        return Done::Bad;
    };
    match values {
        [base, value] => written(world.write(table, Spot::Field(field), *base, *value)),
        _ => Done::Bad,
    }
}

fn get_item(table: &Table, descr: Descr, values: &[Value], world: &World) -> Done
    ensures { IsPerformed (item_got table.now descr values.now world.now.world) result world.now world.now }
{
    let Descr::Array(array) = descr else {
        return Done::Bad;
    };
    match values {
        [base, Value::Int(i)] => {
            done_with(
                world,
                read(table, Spot::Item(array, *i), *base, world.objects()),
            )
        }
        _ => Done::Bad,
    }
}

fn set_item(table: &Table, descr: Descr, values: &[Value], world: &mut World) -> Done
    requires { IsOf table.now world.old }
    ensures { IsPerformed (item_set table.now descr values.now world.old.world) result world.old world.new }
{
    let Descr::Array(array) = descr else {
        return Done::Bad;
    };
    match values {
        [base, Value::Int(i), value] => {
            written(world.write(table, Spot::Item(array, *i), *base, *value))
        }
        _ => Done::Bad,
    }
}

fn get_length(descr: Descr, values: &[Value], world: &World) -> Done
    ensures { IsPerformed (length_got descr values.now world.now.world) result world.now world.now }
{
    let Descr::Array(array) = descr else {
        return Done::Bad;
    };
    match values {
        [base] => match length_at(array, *base, world.objects()) {
            None => Done::Bad,
            Some(items) => Done::Gave(Some(Value::Int(items))),
        },
        _ => Done::Bad,
    }
}

// The new object has the next number.
fn made(object: Object, world: &mut World) -> Result<Done, AllocError>
    requires { length world.old.world.objects < 2 ^ 31 }
    ensures ok { IfOk result (λ r. IsPerformed (made_object object world.old.world) r world.old world.new) }
    ensures err { OnErr result (world.new ≡ world.old) }
{
    let n = world.objects().len() as u32;
    world.add(object)?;
    Ok(Done::Gave(Some(Value::Obj(n))))
}

fn make_structure(
    alloc: Global,
    table: &Table,
    descr: Descr,
    world: &mut World,
) -> Result<Done, AllocError>
    requires { length world.old.world.objects < 2 ^ 31 }
    ensures ok { IfOk result (λ r. IsPerformed (structure_made table.now descr world.old.world) r world.old world.new) }
    ensures err { OnErr result (world.new ≡ world.old) }
{
    let Descr::Size(size) = descr else {
        return Ok(Done::Bad);
    };
    let object = zeroed(alloc, table, size)?;
    made(object, world)
}

fn make_array(
    alloc: Global,
    table: &Table,
    descr: Descr,
    values: &[Value],
    world: &mut World,
) -> Result<Done, AllocError>
    requires { length world.old.world.objects < 2 ^ 31 }
    ensures ok { IfOk result (λ r. IsPerformed (array_made table.now descr values.now world.old.world) r world.old world.new) }
    ensures err { OnErr result (world.new ≡ world.old) }
{
    let Descr::Array(array) = descr else {
        return Ok(Done::Bad);
    };
    match values {
        [Value::Int(items)] => match index_of(*items) {
            None => Ok(Done::Bad),
            Some(n) => {
                let object = cleared(alloc, table, array, n)?;
                made(object, world)
            }
        },
        _ => Ok(Done::Bad),
    }
}

// An operation, as its code says.
fn carry_out(
    alloc: Global,
    table: &Table,
    operation: OpCode,
    descr: Descr,
    args: &[Arg],
    values: &[Value],
    world: &mut World,
) -> Result<Done, AllocError>
    requires of { IsOf table.now world.old }
    requires few { length world.old.world.objects < 2 ^ 31 }
    requires calls { length world.old.world.log < 2 ^ 31 }
    ensures ok { IfOk result (λ r. IsPerformed (performed table.now operation descr args.now values.now world.old.world) r world.old world.new) }
    ensures err { OnErr result (world.new ≡ world.old) }
{
    match operation {
        OpCode::IntAddOvf => Ok(add(values, world)),
        OpCode::IntSubOvf => Ok(subtract(values, world)),
        OpCode::IntMulOvf => Ok(multiply(values, world)),
        OpCode::GetfieldGcI => Ok(get_field(table, descr, values, world)),
        OpCode::GetfieldGcR => Ok(get_field(table, descr, values, world)),
        OpCode::SetfieldGc => Ok(set_field(table, descr, values, world)),
        OpCode::GetarrayitemGcI => Ok(get_item(table, descr, values, world)),
        OpCode::GetarrayitemGcR => Ok(get_item(table, descr, values, world)),
        OpCode::SetarrayitemGc => Ok(set_item(table, descr, values, world)),
        OpCode::ArraylenGc => Ok(get_length(descr, values, world)),
        OpCode::New => make_structure(alloc, table, descr, world),
        OpCode::NewWithVtable => make_structure(alloc, table, descr, world),
        OpCode::NewArrayClear => make_array(alloc, table, descr, values, world),
        OpCode::CallI => call(alloc, table, descr, args, values, world),
        OpCode::CallR => call(alloc, table, descr, args, values, world),
        OpCode::CallN => call(alloc, table, descr, args, values, world),
        code => Ok(done_with(world, fold_pure(code, values))),
    }
}

/// An operation, from the values of those arguments that have one. An operation that can't be done changes nothing; after
/// an error the world is as before.
pub fn perform(
    alloc: Global,
    table: &Table,
    operation: OpCode,
    descr: Descr,
    args: &[Arg],
    values: &[Value],
    world: &mut World,
) -> Result<Done, AllocError>
    requires of { IsOf table.now world.old }
    requires few { length world.old.world.objects < 2 ^ 31 }
    requires calls { length world.old.world.log < 2 ^ 31 }
    ensures ok { IfOk result (λ r. IsPerformed (performed table.now operation descr args.now values.now world.old.world) r world.old world.new) }
    ensures table { OnOk result (world.new.prebuilts ≡ world.old.prebuilts) }
    ensures numbered { IfOk result (λ r. IsNumbered r world.new) }
    ensures err { OnErr result (world.new ≡ world.old) }
{
    let done = carry_out(alloc, table, operation, descr, args, values, world)?;
    Ok(done)
}
