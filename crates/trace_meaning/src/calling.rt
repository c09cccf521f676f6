//! Calls of host functions: what the host sees, and what an answer that fits does.

ghost use Rattle.std.specs.Prelude.{◌≡◌, ◌<◌, ◌^◌, ◌++◌, length, drop, slice_get, None, IfOk, OnErr, OnOk};
ghost use Rattle.std.specs.Option.{option_to_list};
ghost use Rattle.trace_meaning.specs.Objects.{read_in as read_from};
ghost use Rattle.trace_ops.specs.declared.piece.Spot.TheVariants as Spot;
ghost use Rattle.std.specs.List.{flat_map};
ghost use Rattle.trace_meaning.specs.Values.{references as refs_of};
ghost use Rattle.trace_meaning.specs.Answers.{seen_of as seen_in, new_object, store_done as store_meant, stores_done as stores_meant, value_stored as stored_value, with_fresh, value_given as given_value};
ghost use Rattle.trace_meaning.specs.Performing.{with_call, event_of as event_meant, call as called_by, call_row as called_row, called_first, function_in as function_meant, answered as answered_by};
ghost use Rattle.trace_meaning.specs.Kept.{with_world, with_answered, allocated, IsOf};
ghost use Rattle.trace_meaning.specs.Steps.{IsPerformed, IsAnswer};

use crate::fitting::fits;
use crate::folding::is_reference;
use crate::objects::{read, zeroed};
use crate::performing::Done;
use crate::world::World;
use crate::{Answer, AnswerStore, CallEvent, Give, Object, Value};
use std::alloc::{AllocError, Global};
use trace_ops::{Arg, CallRow, Descr, List, Spot, Table};

// The references among the arguments, in order.
fn references(alloc: Global, values: &[Value]) -> Result<Vec<Value>, AllocError>
    ensures { IfOk result (λ r. r.items ≡ refs_of values.now) }
{
    let mut found = Vec::new(alloc);
    for value in values {
        if is_reference(*value) {
            found.push(*value)?;
        }
    }
    Ok(found)
}

// Adds a field of a value, where it has it.
fn see_field(
    seen: &mut Vec<Value>,
    table: &Table,
    objects: &[Object],
    base: Value,
    field: u32,
) -> Result<(), AllocError>
    ensures { OnOk result (seen.new.items ≡ seen.old.items ++ option_to_list (read_from table.now (Spot.Field field) base objects.now)) }
{
    if let Some(value) = read(table, Spot::Field(field), base, objects) {
        seen.push(value)?;
    }
    Ok(())
}

// Adds those of the fields that a value has.
fn see_fields(
    seen: &mut Vec<Value>,
    table: &Table,
    objects: &[Object],
    base: Value,
    reads: &[u32],
) -> Result<(), AllocError>
    ensures { OnOk result (seen.new.items ≡ seen.old.items ++ flat_map (λ f. option_to_list (read_from table.now (Spot.Field f) base objects.now)) reads.now) }
{
    for field in reads {
        see_field(seen, table, objects, base, *field)?;
    }
    Ok(())
}

// What the host sees of the references among the arguments, where it reads these fields.
fn seen(
    alloc: Global,
    table: &Table,
    objects: &[Object],
    reads: &[u32],
    references: &[Value],
) -> Result<Vec<Value>, AllocError>
    ensures { IfOk result (λ r. r.items ≡ flat_map (seen_in table.now objects.now reads.now) references.now) }
{
    let mut seen = Vec::new(alloc);
    for base in references {
        see_fields(&mut seen, table, objects, *base, reads)?;
    }
    Ok(seen)
}

// The value that is given; a new object has the next number.
fn value_given(references: &[Value], objects: usize, given: Give) -> Option<Value>
    requires { objects < 2 ^ 31 }
    ensures { result ≡ given_value references.now objects given }
{
    match given {
        Give::Nothing => None,
        Give::Int(word) => Some(Value::Int(word)),
        Give::Null => Some(Value::Null),
        Give::Arg(k) => references.get(k as usize).copied(),
        Give::Prebuilt(k) => Some(Value::Obj(k)),
        Give::New(_) => Some(Value::Obj(objects as u32)),
    }
}

// The new object, if one is given.
fn fresh(alloc: Global, table: &Table, given: Give) -> Result<Option<Object>, AllocError>
    ensures { IfOk result (λ r. r ≡ new_object table.now given) }
{
    match given {
        Give::New(size) => {
            let object = zeroed(alloc, table, size)?;
            Ok(Some(object))
        }
        _ => Ok(None),
    }
}

// The event of a call with these references among its arguments.
fn event_of(
    alloc: Global,
    table: &Table,
    reads: &[u32],
    function: u32,
    values: &[Value],
    references: &[Value],
    gives: Option<Value>,
    objects: &[Object],
) -> Result<CallEvent, AllocError>
    ensures { IfOk result (λ e. e ≡ record { function = function; args = values.now; seen = flat_map (seen_in table.now objects.now reads.now) references.now; gives = gives }) }
{
    let args = Vec::from_slice(alloc, values)?;
    let seen = seen(alloc, table, objects, reads, references)?;
    Ok(CallEvent {
        function,
        args: List::of(args),
        seen: List::of(seen),
        gives,
    })
}

// The value that is stored; no new object is.
fn value_stored(references: &[Value], given: Give) -> Option<Value>
    ensures { result ≡ stored_value references.now given }
{
    match given {
        Give::Nothing => None,
        Give::Int(word) => Some(Value::Int(word)),
        Give::Null => Some(Value::Null),
        Give::Arg(k) => references.get(k as usize).copied(),
        Give::Prebuilt(k) => Some(Value::Obj(k)),
        Give::New(_) => None,
    }
}

// One store of an answer.
fn make_store(table: &Table, references: &[Value], store: AnswerStore, world: &mut World)
    requires { IsOf table.now world.old }
    ensures { world.new ≡ with_world world.old (store_meant table.now references.now store world.old.world) }
{
    let Some(base) = references.get(store.arg as usize).copied() else {
        return;
    };
    let Some(value) = value_stored(references, store.value) else {
        return;
    };
    let _ = world.write(table, Spot::Field(store.field), base, value);
}

// The stores of an answer, in order.
fn make_stores(table: &Table, references: &[Value], stores: &[AnswerStore], world: &mut World)
    requires { IsOf table.now world.old }
    ensures { world.new ≡ with_world world.old (stores_meant table.now references.now stores.now world.old.world) }
{
    for store in stores {
        make_store(table, references, *store, world);
    }
}

// A call that takes an answer which gives this.
fn log_given(
    alloc: Global,
    table: &Table,
    given: Give,
    event: CallEvent,
    world: &mut World,
) -> Result<(), AllocError>
    requires some { 0 < length world.old.world.answers }
    requires few { length world.old.world.objects < 2 ^ 31 }
    ensures ok { OnOk result (world.new ≡ with_world world.old (with_fresh (new_object table.now given) (with_answered (allocated world.old.prebuilts world.old.world.objects) event world.old.world))) }
    ensures err { OnErr result (world.new ≡ world.old) }
{
    match fresh(alloc, table, given)? {
        None => world.log_answered(event),
        Some(object) => world.log_answered_new(event, object),
    }
}

// A call without an answer that fits stands last.
fn stand(
    alloc: Global,
    table: &Table,
    row: &CallRow,
    function: u32,
    values: &[Value],
    references: &[Value],
    world: &mut World,
) -> Result<(), AllocError>
    requires of { IsOf table.now world.old }
    requires refs { references.now ≡ refs_of values.now }
    ensures ok { OnOk result (world.new ≡ with_world world.old (with_call table.now (event_meant table.now row.now function values.now None world.old.world) world.old.world)) }
    ensures err { OnErr result (world.new ≡ world.old) }
{
    let event = event_of(
        alloc,
        table,
        row.reads.items(),
        function,
        values,
        references,
        None,
        world.objects(),
    )?;
    world.log(event)?;
    Ok(())
}

// A call takes an answer that fits.
fn answered(
    alloc: Global,
    table: &Table,
    row: &CallRow,
    function: u32,
    values: &[Value],
    references: &[Value],
    world: &mut World,
    answer: &Answer,
) -> Result<Done, AllocError>
    requires of { IsOf table.now world.old }
    requires few { length world.old.world.objects < 2 ^ 31 }
    requires refs { references.now ≡ refs_of values.now }
    requires some { 0 < length world.old.world.answers }
    ensures ok { IfOk result (λ r. IsPerformed (answered_by table.now row.now function values.now answer.now (drop 1 world.old.world.answers) world.old.world) r world.old world.new) }
    ensures err { OnErr result (world.new ≡ world.old) }
{
    let gives = value_given(references, world.objects().len(), answer.gives);
    let event = event_of(
        alloc,
        table,
        row.reads.items(),
        function,
        values,
        references,
        gives,
        world.objects(),
    )?;
    log_given(alloc, table, answer.gives, event, world)?;
    make_stores(table, references, answer.stores.items(), world);
    Ok(Done::Gave(gives))
}

// A copy of the next answer, and whether it fits; none where there is no answer left.
fn answer_if_fits(
    table: &Table,
    row: &CallRow,
    references: &[Value],
    world: &World,
) -> Result<Option<(bool, Answer)>, AllocError>
    ensures { IfOk result (λ r. IsAnswer table.now row.now references.now world.now.world.objects (slice_get world.now.world.answers 0) r) }
{
    match world.next_answer() {
        None => Ok(None),
        Some(answer) => {
            let fit = fits(table, row, references, world.objects(), answer);
            let copy = answer.copy()?;
            Ok(Some((fit, copy)))
        }
    }
}

// A call, with its row.
fn called(
    alloc: Global,
    table: &Table,
    row: &CallRow,
    function: u32,
    values: &[Value],
    world: &mut World,
) -> Result<Done, AllocError>
    requires of { IsOf table.now world.old }
    requires few { length world.old.world.objects < 2 ^ 31 }
    requires calls { length world.old.world.log < 2 ^ 31 }
    ensures ok { IfOk result (λ r. IsPerformed (called_first table.now row.now function values.now (slice_get world.old.world.answers 0) (drop 1 world.old.world.answers) world.old.world) r world.old world.new) }
    ensures err { OnErr result (world.new ≡ world.old) }
{
    let references = references(alloc, values)?;
    match answer_if_fits(table, row, &references, world)? {
        None => {
            stand(alloc, table, row, function, values, &references, world)?;
            Ok(Done::Waited)
        }
        Some((true, answer)) => {
            answered(
                alloc,
                table,
                row,
                function,
                values,
                &references,
                world,
                &answer,
            )
        }
        Some((false, _)) => {
            let call = world.calls().len() as u32;
            stand(alloc, table, row, function, values, &references, world)?;
            Ok(Done::Misfitted(call))
        }
    }
}

/// A call takes the next answer.
pub fn call(
    alloc: Global,
    table: &Table,
    descr: Descr,
    args: &[Arg],
    values: &[Value],
    world: &mut World,
) -> Result<Done, AllocError>
    requires of { IsOf table.now world.old }
    requires few { length world.old.world.objects < 2 ^ 31 }
    requires calls { length world.old.world.log < 2 ^ 31 }
    ensures ok { IfOk result (λ r. IsPerformed (called_by table.now descr args.now values.now world.old.world) r world.old world.new) }
    ensures err { OnErr result (world.new ≡ world.old) }
{
    let Descr::Call(k) = descr else {
        return Ok(Done::Bad);
    };
    let Some(function) = function_in(args) else {
        return Ok(Done::Bad);
    };
    match table.calls.items().get(k as usize) {
        None => Ok(Done::Bad),
        Some(row) => called(alloc, table, row, function, values, world),
    }
}

// The function that is called.
fn function_in(args: &[Arg]) -> Option<u32>
    ensures { result ≡ function_meant args.now }
{
    match args.first() {
        Some(Arg::Func(function)) => Some(*function),
        _ => None,
    }
}
