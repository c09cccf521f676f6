//! The set of traces that an input stands for.
ghost use Rattle.std.specs.Prelude.{◌≡◌, ◌≤◌, length, MatchResult};
ghost use Rattle.trace_ops.specs.InRange.{IsInRange};
ghost use Rattle.trace_check.specs.Faults.{IsChecked};
ghost use Rattle.tj_app.specs.Checking.{StandsFor, IsBad, IsBadText, IsBadSet, table_fault, text_fault, set_fault};

use crate::refusal::Fault;
use descr_table::TableFault;
use std::alloc::Global;
use text_lines::lines_are_few;
use trace_check::{CheckFault, Checked, check};
use trace_ops::TraceSet;
use trace_text::{TextFault, read_set};

/// The well-formed set that an input stands for in front of its session, or why there is none.
pub fn checked_set(alloc: Global, bytes: &[u8]) -> Result<Checked, Fault>
    requires { length bytes.now ≤ 16777216 }
    ensures { MatchResult result (λ c. StandsFor bytes.now c × IsChecked c) (IsBad bytes.now) }
{
    let set = set_of(alloc, bytes)?;
    checked(alloc, set)
}

fn set_of(alloc: Global, bytes: &[u8]) -> Result<TraceSet, Fault>
    requires { length bytes.now ≤ 16777216 }
    ensures { MatchResult result (λ set. StandsFor bytes.now set × IsInRange set) (IsBadText bytes.now) }
{
    lines_are_few();
    match read_set(alloc, bytes) {
        Ok((set, _)) => Ok(set),
        Err(why) => Err(text_fault(why)),
    }
}

fn checked(alloc: Global, set: TraceSet) -> Result<Checked, Fault>
    requires { IsInRange set }
    ensures { MatchResult result (λ c. (c ≡ set) × IsChecked set) (IsBadSet set) }
{
    match check(alloc, set) {
        Ok(checked) => Ok(checked),
        Err(why) => Err(set_fault(why)),
    }
}

fn text_fault(why: TextFault) -> Fault
    ensures { result ≡ text_fault why }
{
    match why {
        TextFault::Table(why) => table_fault(why),
        TextFault::Syntax { line } => Fault::Syntax { line },
        TextFault::Float { line } => Fault::Float { line },
        TextFault::UnknownOp { line } => Fault::UnknownOp { line },
        TextFault::UnknownDescr { line } => Fault::UnknownDescr { line },
        TextFault::UnknownBox { line } => Fault::UnknownBox { line },
        TextFault::Limit { what, count } => Fault::Limit { what, count },
        TextFault::OutOfMemory => Fault::Memory,
    }
}

fn table_fault(why: TableFault) -> Fault
    ensures { result ≡ table_fault why }
{
    match why {
        TableFault::Syntax { line } => Fault::Syntax { line },
        TableFault::Twice { line } => Fault::Twice { line },
        TableFault::UnknownName { line } => Fault::UnknownName { line },
        TableFault::BadInitial { line } => Fault::BadInitial { line },
        TableFault::Limit { what, count } => Fault::Limit { what, count },
        TableFault::OutOfMemory => Fault::Memory,
    }
}

fn set_fault(why: CheckFault) -> Fault
    ensures { result ≡ set_fault why }
{
    match why {
        CheckFault::IllFormed {
            trace,
            name,
            op,
            rule,
        } => Fault::IllFormed {
            trace,
            name,
            op,
            rule,
        },
        CheckFault::Limit { what, count } => Fault::Limit { what, count },
        CheckFault::OutOfMemory => Fault::Memory,
    }
}
