//! Pure operations on values, and single tests of values.

ghost use Rattle.std.specs.Prelude.{◌≡◌};
ghost use Rattle.std.specs.Option.{option_map};
ghost use Rattle.trace_ops.specs.Words.{truth as truth_of};
ghost use Rattle.trace_meaning.specs.declared.value.Value.TheVariants as Value;
ghost use Rattle.trace_meaning.specs.Values.{zero_of as zero, is_reference as is_ref, same_reference as same_ref};
ghost use Rattle.trace_meaning.specs.Folding.{fold as fold_values, fold_words as folded, one_reference as single, compared as compare_pair};

use crate::Value;
use trace_ops::{Kind, OpCode, Word, fold};

/// What a new field or item holds.
pub fn zero_of(kind: Kind) -> Value
    ensures { result ≡ zero kind }
{
    match kind {
        Kind::Int => Value::Int(0),
        Kind::Ref => Value::Null,
    }
}

/// Whether a value is no integer.
pub fn is_reference(value: Value) -> bool
    ensures { result ≡ is_ref value }
{
    match value {
        Value::Int(_) => false,
        Value::Null => true,
        Value::Obj(_) => true,
    }
}

/// Whether two values are one object, or null twice.
pub fn same_reference(a: Value, b: Value) -> bool
    ensures { result ≡ same_ref a b }
{
    match a {
        Value::Int(_) => false,
        Value::Null => match b {
            Value::Null => true,
            _ => false,
        },
        Value::Obj(m) => match b {
            Value::Obj(n) => m == n,
            _ => false,
        },
    }
}

// Of one word or two.
fn fold_words(code: OpCode, values: &[Value]) -> Option<Word>
    ensures { result ≡ folded code values.now }
{
    match values {
        [Value::Int(a)] => fold(code, &[*a]),
        [Value::Int(a), Value::Int(b)] => fold(code, &[*a, *b]),
        _ => None,
    }
}

fn one_reference(values: &[Value]) -> Option<Value>
    ensures { result ≡ single values.now }
{
    match values {
        [Value::Null] => Some(Value::Null),
        [Value::Obj(n)] => Some(Value::Obj(*n)),
        _ => None,
    }
}

// Whether two references are the same.
fn compared(values: &[Value]) -> Option<bool>
    ensures { result ≡ compare_pair values.now }
{
    match values {
        [Value::Null, Value::Null] => Some(true),
        [Value::Null, Value::Obj(_)] => Some(false),
        [Value::Obj(_), Value::Null] => Some(false),
        [Value::Obj(m), Value::Obj(n)] => Some(*m == *n),
        _ => None,
    }
}

// 1 or 0.
fn truth(holds: bool) -> Value
    ensures { result ≡ Value.Int (truth_of holds) }
{
    if holds { Value::Int(1) } else { Value::Int(0) }
}

/// The value of a pure operation.
pub fn fold_pure(code: OpCode, values: &[Value]) -> Option<Value>
    ensures { result ≡ fold_values code values.now }
{
    match code {
        OpCode::SameAsR => one_reference(values),
        OpCode::PtrEq => match compared(values) {
            None => None,
            Some(same) => Some(truth(same)),
        },
        OpCode::PtrNe => match compared(values) {
            None => None,
            Some(same) => Some(truth(!same)),
        },
        _ => match fold_words(code, values) {
            None => None,
            Some(word) => Some(Value::Int(word)),
        },
    }
}
