//! The roots of an observation.

ghost use Rattle.std.specs.Prelude.{◌≡◌, ◌++◌, IfOk, OnOk};
ghost use Rattle.heap_shape.specs.Roots.{roots as roots_in, roots_of_call, prebuilt_objects};

use std::alloc::{AllocError, Global};
use trace_meaning::{CallEvent, Value};

// What a call shows: its arguments, what the host saw of them, and what it gave.
fn add_call(roots: &mut Vec<Value>, call: &CallEvent) -> Result<(), AllocError>
    ensures { OnOk result (roots.new.items ≡ roots.old.items ++ roots_of_call call.now) }
{
    roots.extend_from_slice(call.args.items())?;
    roots.extend_from_slice(call.seen.items())?;
    if let Some(value) = call.gives {
        roots.push(value)?;
    }
    Ok(())
}

/// The roots of a run that made these calls: the prebuilt objects, which are the first of the store; then for each call its
/// arguments, what the host saw of them and what it gave; then the last values, which are the finish value or the slots of
/// the frames, outermost first.
pub fn roots(
    alloc: Global,
    prebuilt: u32,
    calls: &[CallEvent],
    last: &[Value],
) -> Result<Vec<Value>, AllocError>
    ensures { IfOk result (λ r. r.items ≡ roots_in prebuilt calls.now last.now) }
{
    let mut roots = Vec::new(alloc);
    for object in 0..prebuilt {
        roots.push(Value::Obj(object))?;
    }
    for call in calls {
        add_call(&mut roots, call)?;
    }
    roots.extend_from_slice(last)?;
    Ok(roots)
}
