//! The answer of `check` to an input.
ghost use Rattle.std.specs.Prelude.{◌≡◌, ◌≤◌, ◌++◌, length, MatchResult, IfOk, OnOk};
ghost use Rattle.trace_ops.specs.InRange.{IsInRange};
ghost use Rattle.trace_check.specs.Faults.{IsChecked};
ghost use Rattle.tj_app.specs.Counting.{IsCounted, operations_of, traces_text, operations_text, weight_text, ok_text};
ghost use Rattle.tj_app.specs.Telling.{IsUnread};

use crate::puts::{put, put_number};
use crate::refusal::Fault;
use crate::telling::read_told;
use std::alloc::{AllocError, Global};
use trace_ops::{TraceSet, weight};

/// The line with the counts of an input that stands for a well-formed set and a session over it, or why there is none.
/// Nothing is asked of what isn't built.
pub fn counts(alloc: Global, bytes: &[u8]) -> Result<Vec<u8>, Fault>
    requires { length bytes.now ≤ 16777216 }
    ensures { MatchResult result (λ text. IsCounted bytes.now text.items) (IsUnread bytes.now) }
{
    let told = read_told(alloc, bytes)?;
    match counts_text(alloc, told.checked.set()) {
        Ok(text) => Ok(text),
        Err(_) => Err(Fault::Memory),
    }
}

fn counts_text(alloc: Global, set: &TraceSet) -> Result<Vec<u8>, AllocError>
    requires { IsChecked set.now }
    ensures { IfOk result (λ text. text.items ≡ ok_text set.now) }
{
    let mut out = Vec::new(alloc);
    put_traces(&mut out, set)?;
    put_operations(&mut out, set)?;
    put_weight(&mut out, set)?;
    Ok(out)
}

fn put_traces(out: &mut Vec<u8>, set: &TraceSet) -> Result<(), AllocError>
    ensures { OnOk result (out.new.items ≡ out.old.items ++ traces_text set.now) }
{
    put(out, b"ok traces ")?;
    put_number(out, set.traces.items().len() as u64)
}

fn put_operations(out: &mut Vec<u8>, set: &TraceSet) -> Result<(), AllocError>
    requires { IsInRange set.now }
    ensures { OnOk result (out.new.items ≡ out.old.items ++ operations_text set.now) }
{
    put(out, b" operations ")?;
    put_number(out, operations_of(set))
}

fn put_weight(out: &mut Vec<u8>, set: &TraceSet) -> Result<(), AllocError>
    requires { IsChecked set.now }
    ensures { OnOk result (out.new.items ≡ out.old.items ++ weight_text set.now) }
{
    put(out, b" weight ")?;
    put_number(out, weight(set))?;
    put(out, b"\n")
}

// How many operations the traces have.
fn operations_of(set: &TraceSet) -> u64
    requires { IsInRange set.now }
    ensures { result ≡ operations_of set.now }
{
    let traces = set.traces.items();
    let mut total = 0u64;
    for trace in traces {
        total += trace.ops.items().len() as u64;
    }
    total
}
