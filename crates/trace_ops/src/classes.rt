//! Kinds of operations.
ghost use Rattle.std.specs.Prelude.{◌≡◌};
ghost use Rattle.trace_ops.specs.Classes.{is_pure, is_guard, is_call, is_allocation, is_overflowing, reads_overflow, is_plain};

use crate::{Cites, OpCode, Part, Takes, cites_of, part_of, takes_of};

/// Whether the result follows from the arguments alone.
pub fn is_pure(code: OpCode) -> bool
    ensures { result ≡ is_pure code }
{
    match part_of(code) {
        Part::Plain => match cites_of(code) {
            Cites::Nothing => true,
            _ => false,
        },
        _ => false,
    }
}

/// Whether the operation may leave the trace.
pub fn is_guard(code: OpCode) -> bool
    ensures { result ≡ is_guard code }
{
    match part_of(code) {
        Part::Guard => true,
        Part::OverflowGuard => true,
        _ => false,
    }
}

/// Whether the operation calls a function of the host.
pub fn is_call(code: OpCode) -> bool
    ensures { result ≡ is_call code }
{
    match takes_of(code) {
        Takes::Called => true,
        _ => false,
    }
}

/// Whether the operation makes an object.
pub fn is_allocation(code: OpCode) -> bool
    ensures { result ≡ is_allocation code }
{
    match code {
        OpCode::New => true,
        OpCode::NewWithVtable => true,
        OpCode::NewArrayClear => true,
        _ => false,
    }
}

/// Whether the operation sets the overflow that the guard behind it reads.
pub fn is_overflowing(code: OpCode) -> bool
    ensures { result ≡ is_overflowing code }
{
    match part_of(code) {
        Part::Overflowing => true,
        _ => false,
    }
}

/// Whether the operation reads the overflow of the one before it.
pub fn reads_overflow(code: OpCode) -> bool
    ensures { result ≡ reads_overflow code }
{
    match part_of(code) {
        Part::OverflowGuard => true,
        _ => false,
    }
}

/// Whether the operation is no guard, jump or finish.
pub fn is_plain(code: OpCode) -> bool
    ensures { result ≡ is_plain code }
{
    match part_of(code) {
        Part::Plain => true,
        Part::Overflowing => true,
        _ => false,
    }
}
