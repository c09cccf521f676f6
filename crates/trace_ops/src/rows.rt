//! The operations: one row for each, with its name and all that is known of it.
ghost use Rattle.std.specs.Prelude.{◌≡◌};
ghost use Rattle.trace_ops.specs.Rows.{computes, overflowing, accesses, guards, guards_overflow, ends_trace, row_of};
ghost use Rattle.trace_ops.specs.Told.{Tells};

use crate::{Cites, Kind, OpCode, Part, Takes, Want};

// Its name, what it takes, gives and cites, and what it does beside computing.
#[derive(Clone, Copy)]
pub(crate) struct Row {
    pub(crate) name: &'static [u8],
    pub(crate) takes: Takes,
    pub(crate) gives: Option<Kind>,
    pub(crate) cites: Cites,
    pub(crate) part: Part,
}

// It gives a value and does nothing else.
fn computes(name: &'static [u8], takes: Takes, gives: Kind) -> Row
    ensures { Tells result (computes name.now takes gives) }
{
    Row {
        name,
        takes,
        gives: Some(gives),
        cites: Cites::Nothing,
        part: Part::Plain,
    }
}

// The same of two integers, where the guard behind it asks whether the exact result was a word.
fn overflowing(name: &'static [u8]) -> Row
    ensures { Tells result (overflowing name.now) }
{
    Row {
        name,
        takes: Takes::Two(Want::Int, Want::Int),
        gives: Some(Kind::Int),
        cites: Cites::Nothing,
        part: Part::Overflowing,
    }
}

// It is about objects, or a call.
fn accesses(name: &'static [u8], takes: Takes, gives: Option<Kind>, cites: Cites) -> Row
    ensures { Tells result (accesses name.now takes gives cites) }
{
    Row {
        name,
        takes,
        gives,
        cites,
        part: Part::Plain,
    }
}

// It passes or fails.
fn guards(name: &'static [u8], takes: Takes) -> Row
    ensures { Tells result (guards name.now takes) }
{
    Row {
        name,
        takes,
        gives: None,
        cites: Cites::Anything,
        part: Part::Guard,
    }
}

// It passes or fails by the overflow of the operation before it.
fn guards_overflow(name: &'static [u8]) -> Row
    ensures { Tells result (guards_overflow name.now) }
{
    Row {
        name,
        takes: Takes::Nothing,
        gives: None,
        cites: Cites::Anything,
        part: Part::OverflowGuard,
    }
}

// It is the last operation.
fn ends_trace(name: &'static [u8], takes: Takes, cites: Cites, part: Part) -> Row
    ensures { Tells result (ends_trace name.now takes cites part) }
{
    Row {
        name,
        takes,
        gives: None,
        cites,
        part,
    }
}

// What is known of an operation.
pub(crate) fn row_of(code: OpCode) -> Row
    ensures { Tells result (row_of code) }
{
    match code {
        OpCode::IntAdd => computes(b"int_add", Takes::Two(Want::Int, Want::Int), Kind::Int),
        OpCode::IntSub => computes(b"int_sub", Takes::Two(Want::Int, Want::Int), Kind::Int),
        OpCode::IntMul => computes(b"int_mul", Takes::Two(Want::Int, Want::Int), Kind::Int),
        OpCode::IntAnd => computes(b"int_and", Takes::Two(Want::Int, Want::Int), Kind::Int),
        OpCode::IntOr => computes(b"int_or", Takes::Two(Want::Int, Want::Int), Kind::Int),
        OpCode::IntXor => computes(b"int_xor", Takes::Two(Want::Int, Want::Int), Kind::Int),
        OpCode::IntLshift => computes(b"int_lshift", Takes::Two(Want::Int, Want::Int), Kind::Int),
        OpCode::IntRshift => computes(b"int_rshift", Takes::Two(Want::Int, Want::Int), Kind::Int),
        OpCode::UintRshift => computes(b"uint_rshift", Takes::Two(Want::Int, Want::Int), Kind::Int),
        OpCode::IntLt => computes(b"int_lt", Takes::Two(Want::Int, Want::Int), Kind::Int),
        OpCode::IntLe => computes(b"int_le", Takes::Two(Want::Int, Want::Int), Kind::Int),
        OpCode::IntEq => computes(b"int_eq", Takes::Two(Want::Int, Want::Int), Kind::Int),
        OpCode::IntNe => computes(b"int_ne", Takes::Two(Want::Int, Want::Int), Kind::Int),
        OpCode::IntGt => computes(b"int_gt", Takes::Two(Want::Int, Want::Int), Kind::Int),
        OpCode::IntGe => computes(b"int_ge", Takes::Two(Want::Int, Want::Int), Kind::Int),
        OpCode::UintLt => computes(b"uint_lt", Takes::Two(Want::Int, Want::Int), Kind::Int),
        OpCode::UintLe => computes(b"uint_le", Takes::Two(Want::Int, Want::Int), Kind::Int),
        OpCode::UintGt => computes(b"uint_gt", Takes::Two(Want::Int, Want::Int), Kind::Int),
        OpCode::UintGe => computes(b"uint_ge", Takes::Two(Want::Int, Want::Int), Kind::Int),
        OpCode::IntIsZero => computes(b"int_is_zero", Takes::One(Want::Int), Kind::Int),
        OpCode::IntIsTrue => computes(b"int_is_true", Takes::One(Want::Int), Kind::Int),
        OpCode::IntNeg => computes(b"int_neg", Takes::One(Want::Int), Kind::Int),
        OpCode::IntInvert => computes(b"int_invert", Takes::One(Want::Int), Kind::Int),
        OpCode::IntForceGeZero => computes(b"int_force_ge_zero", Takes::One(Want::Int), Kind::Int),
        OpCode::SameAsI => computes(b"same_as_i", Takes::One(Want::Int), Kind::Int),
        OpCode::SameAsR => computes(b"same_as_r", Takes::One(Want::Ref), Kind::Ref),
        OpCode::PtrEq => computes(b"ptr_eq", Takes::Two(Want::Ref, Want::Ref), Kind::Int),
        OpCode::PtrNe => computes(b"ptr_ne", Takes::Two(Want::Ref, Want::Ref), Kind::Int),
        OpCode::IntAddOvf => overflowing(b"int_add_ovf"),
        OpCode::IntSubOvf => overflowing(b"int_sub_ovf"),
        OpCode::IntMulOvf => overflowing(b"int_mul_ovf"),
        OpCode::GetfieldGcI => accesses(
            b"getfield_gc_i",
            Takes::One(Want::Ref),
            Some(Kind::Int),
            Cites::Field(Some(Kind::Int)),
        ),
        OpCode::GetfieldGcR => accesses(
            b"getfield_gc_r",
            Takes::One(Want::Ref),
            Some(Kind::Ref),
            Cites::Field(Some(Kind::Ref)),
        ),
        OpCode::SetfieldGc => accesses(
            b"setfield_gc",
            Takes::Two(Want::Ref, Want::Stored),
            None,
            Cites::Field(None),
        ),
        OpCode::GetarrayitemGcI => accesses(
            b"getarrayitem_gc_i",
            Takes::Two(Want::Ref, Want::Int),
            Some(Kind::Int),
            Cites::Array(Some(Kind::Int)),
        ),
        OpCode::GetarrayitemGcR => accesses(
            b"getarrayitem_gc_r",
            Takes::Two(Want::Ref, Want::Int),
            Some(Kind::Ref),
            Cites::Array(Some(Kind::Ref)),
        ),
        OpCode::SetarrayitemGc => accesses(
            b"setarrayitem_gc",
            Takes::Three(Want::Ref, Want::Int, Want::Stored),
            None,
            Cites::Array(None),
        ),
        OpCode::ArraylenGc => accesses(
            b"arraylen_gc",
            Takes::One(Want::Ref),
            Some(Kind::Int),
            Cites::Array(None),
        ),
        OpCode::New => accesses(b"new", Takes::Nothing, Some(Kind::Ref), Cites::Size(false)),
        OpCode::NewWithVtable => accesses(
            b"new_with_vtable",
            Takes::Nothing,
            Some(Kind::Ref),
            Cites::Size(true),
        ),
        OpCode::NewArrayClear => accesses(
            b"new_array_clear",
            Takes::One(Want::Int),
            Some(Kind::Ref),
            Cites::Array(None),
        ),
        OpCode::CallI => accesses(
            b"call_i",
            Takes::Called,
            Some(Kind::Int),
            Cites::Call(Some(Kind::Int)),
        ),
        OpCode::CallR => accesses(
            b"call_r",
            Takes::Called,
            Some(Kind::Ref),
            Cites::Call(Some(Kind::Ref)),
        ),
        OpCode::CallN => accesses(b"call_n", Takes::Called, None, Cites::Call(None)),
        OpCode::GuardTrue => guards(b"guard_true", Takes::One(Want::Int)),
        OpCode::GuardFalse => guards(b"guard_false", Takes::One(Want::Int)),
        OpCode::GuardValue => guards(b"guard_value", Takes::Compared),
        OpCode::GuardNonnull => guards(b"guard_nonnull", Takes::One(Want::Ref)),
        OpCode::GuardIsnull => guards(b"guard_isnull", Takes::One(Want::Ref)),
        OpCode::GuardClass => guards(b"guard_class", Takes::Two(Want::Ref, Want::Class)),
        OpCode::GuardNonnullClass => guards(
            b"guard_nonnull_class",
            Takes::Two(Want::Ref, Want::Class),
        ),
        OpCode::GuardNoOverflow => guards_overflow(b"guard_no_overflow"),
        OpCode::GuardOverflow => guards_overflow(b"guard_overflow"),
        OpCode::GuardNoException => guards(b"guard_no_exception", Takes::Nothing),
        OpCode::Jump => ends_trace(b"jump", Takes::Passed, Cites::Target, Part::Jump),
        OpCode::Finish => ends_trace(b"finish", Takes::Finished, Cites::Anything, Part::Finish),
    }
}
