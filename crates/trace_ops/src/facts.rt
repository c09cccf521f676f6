//! What is known of each operation: its arguments, its result, its descr, and what it does beside computing.
ghost use Rattle.std.specs.Prelude.{◌≡◌};
ghost use Rattle.trace_ops.specs.Facts.{takes_of, gives_of, cites_of, part_of};

use crate::rows::row_of;
use crate::{Kind, OpCode};

/// What an argument is: an integer, a reference, what the descr stores, or a vtable.
#[derive(Clone, Copy, Debug, PartialEq, Eq, Hash)]
pub enum Want {
    Int,
    Ref,
    Stored,
    Class,
}

/// The arguments of an operation. `Compared` is a value and a constant of its kind, `Called` a function
/// and what its descr takes, `Finished` at most one value, `Passed` what the target takes.
#[derive(Clone, Copy, Debug, PartialEq, Eq, Hash)]
pub enum Takes {
    Nothing,
    One(Want),
    Two(Want, Want),
    Three(Want, Want, Want),
    Compared,
    Called,
    Finished,
    Passed,
}

/// The descr of an operation. No kind at a field or an array is any kind; the flag of a size is its vtable.
#[derive(Clone, Copy, Debug, PartialEq, Eq, Hash)]
pub enum Cites {
    Nothing,
    Anything,
    Field(Option<Kind>),
    Array(Option<Kind>),
    Size(bool),
    Call(Option<Kind>),
    Target,
}

/// What an operation does beside computing.
#[derive(Clone, Copy, Debug, PartialEq, Eq, Hash)]
pub enum Part {
    Plain,
    Overflowing,
    OverflowGuard,
    Guard,
    Jump,
    Finish,
}

/// What the arguments are.
pub fn takes_of(code: OpCode) -> Takes
    ensures { result ≡ takes_of code }
{
    row_of(code).takes
}

/// What the result is.
pub fn gives_of(code: OpCode) -> Option<Kind>
    ensures { result ≡ gives_of code }
{
    row_of(code).gives
}

/// What the descr is.
pub fn cites_of(code: OpCode) -> Cites
    ensures { result ≡ cites_of code }
{
    row_of(code).cites
}

/// What the operation does beside computing.
pub fn part_of(code: OpCode) -> Part
    ensures { result ≡ part_of code }
{
    row_of(code).part
}
