//! Why the program refuses, and the line that says so.
ghost use Rattle.std.specs.Prelude.{◌≡◌, ◌++◌, [], IfOk, OnOk};
ghost use Rattle.tj_app.specs.Refusing.{status_of, fault_text, line_text, what_text, rule_text, limit_text, of_trace, of_rule, session_text, unbuilt_text};

use crate::ending::Status;
use crate::puts::{put, put_number};
use session_text::Reason;
use std::alloc::{AllocError, Global};
use trace_ops::{Text, What};

/// Why the program refuses: a line of the input, by its number from 1; the least trace, operation and rule of a set
/// that is not well formed; the words; a read that failed; a limit, with the count that passes it; want of memory; or
/// something that isn't built yet.
#[derive(Clone, Copy, Debug)]
pub enum Fault {
    Syntax {
        line: u32,
    },
    Float {
        line: u32,
    },
    UnknownOp {
        line: u32,
    },
    UnknownDescr {
        line: u32,
    },
    UnknownBox {
        line: u32,
    },
    Twice {
        line: u32,
    },
    UnknownName {
        line: u32,
    },
    BadInitial {
        line: u32,
    },
    IllFormed {
        trace: u32,
        name: Text,
        op: u32,
        rule: u8,
    },
    SessionBad {
        line: u32,
        reason: Reason,
    },
    Usage,
    Read,
    Limit {
        what: What,
        count: u64,
    },
    Memory,
    NotBuilt {
        what: Text,
    },
}

impl Fault {
    /// The status that the fault ends with.
    pub fn status(&self) -> Status
        ensures { result ≡ status_of self.now }
    {
        match self {
            Fault::Usage => Status::Usage,
            Fault::Read => Status::ReadFault,
            Fault::Limit { what: _, count: _ } => Status::Limit,
            Fault::Memory => Status::Memory,
            _ => Status::Refused,
        }
    }
}

/// The line that is written for a fault.
pub fn fault_line(alloc: Global, fault: &Fault) -> Result<Vec<u8>, AllocError>
    ensures { IfOk result (λ v. v.items ≡ fault_text fault.now) }
{
    match fault {
        Fault::Syntax { line } => line_fault(alloc, *line, b"syntax"),
        Fault::Float { line } => line_fault(alloc, *line, b"float"),
        Fault::UnknownOp { line } => line_fault(alloc, *line, b"unknown operation"),
        Fault::UnknownDescr { line } => line_fault(alloc, *line, b"unknown descr"),
        Fault::UnknownBox { line } => line_fault(alloc, *line, b"unknown box"),
        Fault::Twice { line } => line_fault(alloc, *line, b"defined twice"),
        Fault::UnknownName { line } => line_fault(alloc, *line, b"unknown name"),
        Fault::BadInitial { line } => line_fault(alloc, *line, b"bad initial value"),
        Fault::IllFormed {
            trace: _,
            name,
            op,
            rule,
        } => rule_fault(alloc, name.bytes(), *op, *rule),
        Fault::SessionBad { line, reason } => line_fault(alloc, *line, session_word(*reason)),
        Fault::Usage => Vec::from_slice(alloc, b"error usage\n"),
        Fault::Read => Vec::from_slice(alloc, b"error read\n"),
        Fault::Limit { what, count } => limit_fault(alloc, *what, *count),
        Fault::Memory => Vec::from_slice(alloc, b"error memory\n"),
        Fault::NotBuilt { what } => unbuilt_fault(alloc, what.bytes()),
    }
}

fn line_fault(alloc: Global, line: u32, why: &[u8]) -> Result<Vec<u8>, AllocError>
    ensures { IfOk result (λ v. v.items ≡ line_text line why.now) }
{
    let mut out = Vec::new(alloc);
    put(&mut out, b"error line ")?;
    put_number(&mut out, u64::from(line))?;
    put(&mut out, b": ")?;
    put(&mut out, why)?;
    put(&mut out, b"\n")?;
    Ok(out)
}

// Why a line of a session is refused.
fn session_word(reason: Reason) -> &'static [u8]
    ensures { result.now ≡ session_text reason }
{
    match reason {
        Reason::Shape => b"session shape",
        Reason::Twice => b"session twice",
        Reason::Name => b"session name",
        Reason::Inputs => b"session inputs",
    }
}

fn unbuilt_fault(alloc: Global, what: &[u8]) -> Result<Vec<u8>, AllocError>
    ensures { IfOk result (λ v. v.items ≡ unbuilt_text what.now) }
{
    let mut out = Vec::new(alloc);
    put(&mut out, b"error not built ")?;
    put(&mut out, what)?;
    put(&mut out, b"\n")?;
    Ok(out)
}

fn rule_fault(alloc: Global, name: &[u8], op: u32, rule: u8) -> Result<Vec<u8>, AllocError>
    ensures { IfOk result (λ v. v.items ≡ rule_text name.now op rule) }
{
    let mut out = Vec::new(alloc);
    put_trace(&mut out, name)?;
    put_rule(&mut out, op, rule)?;
    Ok(out)
}

fn put_trace(out: &mut Vec<u8>, name: &[u8]) -> Result<(), AllocError>
    ensures { OnOk result (out.new.items ≡ out.old.items ++ of_trace name.now) }
{
    put(out, b"error trace ")?;
    put(out, name)
}

fn put_rule(out: &mut Vec<u8>, op: u32, rule: u8) -> Result<(), AllocError>
    ensures { OnOk result (out.new.items ≡ out.old.items ++ of_rule op rule) }
{
    put(out, b" op ")?;
    put_number(out, u64::from(op))?;
    put(out, b": rule ")?;
    put_number(out, u64::from(rule))?;
    put(out, b"\n")
}

fn limit_fault(alloc: Global, what: What, count: u64) -> Result<Vec<u8>, AllocError>
    ensures { IfOk result (λ v. v.items ≡ limit_text (what_text what) count) }
{
    let mut out = Vec::new(alloc);
    put(&mut out, b"error limit ")?;
    put(&mut out, word_of(what))?;
    put(&mut out, b" ")?;
    put_number(&mut out, count)?;
    put(&mut out, b"\n")?;
    Ok(out)
}

// The name of what a limit counts, in lower case.
fn word_of(what: What) -> &'static [u8]
    ensures { result.now ≡ what_text what }
{
    match what {
        What::Input => b"input",
        What::Traces => b"traces",
        What::Operations => b"operations",
        What::Inputs => b"inputs",
        What::Frames => b"frames",
        What::Slots => b"slots",
        What::Shapes => b"shapes",
        What::Functions => b"functions",
        What::Calls => b"calls",
        What::Fields => b"fields",
        What::Arguments => b"arguments",
        What::Reads => b"reads",
        What::Writes => b"writes",
        What::Prebuilt => b"prebuilt",
        What::Weight => b"weight",
        What::Session => b"session",
        What::Activations => b"activations",
        What::Answers => b"answers",
        What::RvWeight => b"rvweight",
        What::Codes => b"codes",
        What::Instructions => b"instructions",
    }
}
