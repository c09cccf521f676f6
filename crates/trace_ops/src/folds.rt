//! Pure integer operations on known words.
ghost use Rattle.std.specs.Prelude.{◌≡◌, ◌↔◌, IsSome, Some, length};
ghost use Rattle.trace_ops.specs.Folds.{unary, binary, word_of, integer_arity};

use crate::word::{
    force_ge_zero, invert, is_true, is_zero, same_as, unsigned_ge, unsigned_gt, unsigned_le,
    unsigned_lt, word_eq, word_ge, word_gt, word_le, word_lt, word_ne, wrap_add, wrap_and,
    wrap_lshift, wrap_mul, wrap_neg, wrap_or, wrap_rshift, wrap_sub, wrap_unsigned_rshift,
    wrap_xor,
};
use crate::{OpCode, Word};

// Of one word.
fn unary(code: OpCode, a: Word) -> Option<Word>
    ensures { result ≡ unary code a }
{
    match code {
        OpCode::IntIsZero => Some(is_zero(a)),
        OpCode::IntIsTrue => Some(is_true(a)),
        OpCode::IntNeg => Some(wrap_neg(a)),
        OpCode::IntInvert => Some(invert(a)),
        OpCode::IntForceGeZero => Some(force_ge_zero(a)),
        OpCode::SameAsI => Some(same_as(a)),
        _ => None,
    }
}

// Of two words.
fn binary(code: OpCode, a: Word, b: Word) -> Option<Word>
    ensures { result ≡ binary code a b }
{
    match code {
        OpCode::IntAdd => Some(wrap_add(a, b)),
        OpCode::IntSub => Some(wrap_sub(a, b)),
        OpCode::IntMul => Some(wrap_mul(a, b)),
        OpCode::IntAnd => Some(wrap_and(a, b)),
        OpCode::IntOr => Some(wrap_or(a, b)),
        OpCode::IntXor => Some(wrap_xor(a, b)),
        OpCode::IntLshift => Some(wrap_lshift(a, b)),
        OpCode::IntRshift => Some(wrap_rshift(a, b)),
        OpCode::UintRshift => Some(wrap_unsigned_rshift(a, b)),
        OpCode::IntLt => Some(word_lt(a, b)),
        OpCode::IntLe => Some(word_le(a, b)),
        OpCode::IntEq => Some(word_eq(a, b)),
        OpCode::IntNe => Some(word_ne(a, b)),
        OpCode::IntGt => Some(word_gt(a, b)),
        OpCode::IntGe => Some(word_ge(a, b)),
        OpCode::UintLt => Some(unsigned_lt(a, b)),
        OpCode::UintLe => Some(unsigned_le(a, b)),
        OpCode::UintGt => Some(unsigned_gt(a, b)),
        OpCode::UintGe => Some(unsigned_ge(a, b)),
        _ => None,
    }
}

/// The result of a pure integer operation on as many words as it takes.
pub fn fold(code: OpCode, args: &[Word]) -> Option<Word>
    ensures value { result ≡ word_of code args.now }
    ensures exactly { IsSome result ↔ (integer_arity code ≡ Some (length args.now)) }
{
    match args {
        [a] => unary(code, *a),
        [a, b] => binary(code, *a, *b),
        _ => None,
    }
}
