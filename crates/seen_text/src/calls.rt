//! Writes the calls of a run.
ghost use Rattle.std.specs.Prelude.{◌≡◌, ◌++◌, OnOk};
ghost use Rattle.seen_text.specs.Calls.{behind_call, behind_calls, call_line, call_lines, calls_text};

use crate::listed::parted;
use crate::puts::put_count;
use crate::values::put_values;
use descr_table::function_name;
use heap_shape::Ref;
use std::alloc::AllocError;
use trace_meaning::CallEvent;
use trace_ops::Table;

// What is left behind the numbers of a call.
fn behind_call<'a>(call: &CallEvent, refs: &'a [Ref]) -> &'a [Ref]
    ensures { result.now ≡ behind_call call.now refs.now }
{
    let (_, seen) = parted(refs, call.args.items().len());
    let (_, given) = parted(seen, call.seen.items().len());
    match call.gives {
        None => given,
        Some(_value) => parted(given, 1).1,
    }
}

/// What is left behind the numbers of the calls.
pub fn behind_calls<'a>(calls: &[CallEvent], refs: &'a [Ref]) -> &'a [Ref]
    ensures { result.now ≡ behind_calls calls.now refs.now }
{
    let mut rest = refs;
    for call in calls {
        rest = behind_call(call, rest);
    }
    rest
}

#[tactic(auto, unfolding(crate::specs::Calls::call_line))]
fn put_call(
    out: &mut Vec<u8>,
    table: &Table,
    call: &CallEvent,
    refs: &[Ref],
) -> Result<(), AllocError>
    ensures { OnOk result (out.new.items ≡ out.old.items ++ call_line table.now call.now refs.now) }
{
    let (args, behind) = parted(refs, call.args.items().len());
    let (seen, _) = parted(behind, call.seen.items().len());
    out.extend_from_slice(function_name(table, call.function))?;
    out.push(b'(')?;
    put_values(out, args)?;
    out.extend_from_slice(b") sees [")?;
    put_values(out, seen)?;
    out.extend_from_slice(b"]\n")
}

fn put_call_lines(
    out: &mut Vec<u8>,
    table: &Table,
    calls: &[CallEvent],
    refs: &[Ref],
) -> Result<(), AllocError>
    ensures { OnOk result (out.new.items ≡ out.old.items ++ call_lines table.now calls.now refs.now) }
{
    let mut rest = refs;
    for call in calls {
        put_call(out, table, call, rest)?;
        rest = behind_call(call, rest);
    }
    Ok(())
}

/// Adds how many calls there are, and a line for each: its function, its arguments, and what the host saw of them. The
/// values are written as `refs` has them: for each call in order its arguments, then what was seen, then what was given.
#[tactic(auto, unfolding(crate::specs::Calls::calls_text))]
pub fn put_calls(
    out: &mut Vec<u8>,
    table: &Table,
    calls: &[CallEvent],
    refs: &[Ref],
) -> Result<(), AllocError>
    ensures { OnOk result (out.new.items ≡ out.old.items ++ calls_text table.now calls.now refs.now) }
{
    put_count(out, b"calls ", calls.len())?;
    put_call_lines(out, table, calls, refs)
}
