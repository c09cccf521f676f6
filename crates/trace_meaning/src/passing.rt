//! Which guards pass.

ghost use Rattle.std.specs.Prelude.{◌≡◌, slice_get};
ghost use Rattle.trace_meaning.specs.Passing.{passes_with, is_zero_word as zero_word, negated as negated_test, class_in as class_cited, are_equal as equal_pair, is_null as null_alone, object_has_class, is_structure_of as structure_of, has_class as classed, has_class_or_null as classed_or_null};

use crate::{Object, Value};
use trace_ops::{Arg, OpCode, ShapeOf};

fn are_equal(values: &[Value]) -> Option<bool>
    ensures { result ≡ equal_pair values.now }
{
    match values {
        [Value::Int(a), Value::Int(b)] => Some(*a == *b),
        [Value::Null, Value::Null] => Some(true),
        [Value::Null, Value::Obj(_)] => Some(false),
        [Value::Obj(_), Value::Null] => Some(false),
        [Value::Obj(m), Value::Obj(n)] => Some(*m == *n),
        _ => None,
    }
}

fn is_null(values: &[Value]) -> Option<bool>
    ensures { result ≡ null_alone values.now }
{
    match values {
        [Value::Null] => Some(true),
        [Value::Obj(_)] => Some(false),
        _ => None,
    }
}

// The size whose vtable is cited.
fn class_in(args: &[Arg]) -> Option<u32>
    ensures { result ≡ class_cited args.now }
{
    match args {
        [_, Arg::Class(size)] => Some(*size),
        _ => None,
    }
}

fn is_structure_of(size: u32, of: ShapeOf) -> bool
    ensures { result ≡ structure_of size of }
{
    match of {
        ShapeOf::Size(s) => s == size,
        ShapeOf::Array(_) => false,
    }
}

// Whether the object of this number is of a size.
fn has_class_at(objects: &[Object], size: u32, n: u32) -> Option<bool>
    ensures { result ≡ object_has_class size (slice_get objects.now n) }
{
    match objects.get(n as usize) {
        None => None,
        Some(object) => Some(is_structure_of(size, object.of)),
    }
}

// Whether an object is of a size. Null has no class.
fn has_class(objects: &[Object], class: Option<u32>, values: &[Value]) -> Option<bool>
    ensures { result ≡ classed objects.now class values.now }
{
    let Some(size) = class else { return None };
    match values {
        [Value::Obj(n)] => has_class_at(objects, size, *n),
        _ => None,
    }
}

fn has_class_or_null(objects: &[Object], class: Option<u32>, values: &[Value]) -> Option<bool>
    ensures { result ≡ classed_or_null objects.now class values.now }
{
    let Some(size) = class else { return None };
    match values {
        [Value::Null] => Some(false),
        [Value::Obj(n)] => has_class_at(objects, size, *n),
        _ => None,
    }
}

fn is_zero_word(values: &[Value]) -> Option<bool>
    ensures { result ≡ zero_word values.now }
{
    match values {
        [Value::Int(a)] => Some(*a == 0),
        _ => None,
    }
}

fn negated(test: Option<bool>) -> Option<bool>
    ensures { result ≡ negated_test test }
{
    match test {
        None => None,
        Some(holds) => Some(!holds),
    }
}

/// Whether a guard passes; none where it goes wrong.
pub fn passes(
    code: OpCode,
    args: &[Arg],
    values: &[Value],
    objects: &[Object],
    overflow: bool,
) -> Option<bool>
    ensures { result ≡ passes_with code args.now values.now objects.now overflow }
{
    match code {
        OpCode::GuardTrue => negated(is_zero_word(values)),
        OpCode::GuardFalse => is_zero_word(values),
        OpCode::GuardValue => are_equal(values),
        OpCode::GuardNonnull => negated(is_null(values)),
        OpCode::GuardIsnull => is_null(values),
        OpCode::GuardClass => has_class(objects, class_in(args), values),
        OpCode::GuardNonnullClass => has_class_or_null(objects, class_in(args), values),
        OpCode::GuardNoOverflow => Some(!overflow),
        OpCode::GuardOverflow => Some(overflow),
        OpCode::GuardNoException => Some(true),
        _ => None,
    }
}
