//! Values and answers of one word.

ghost use Rattle.std.specs.Prelude.{◌≡◌, ◌==◌, position};
ghost use Rattle.session_text.specs.Words.{object_of, value_of, arg_of, give_of, give_if, given_of, target_of};

use crate::lexicon::Lexicon;
use text_lines::{decimal_of, integer_of, is_name};
use trace_meaning::{Give, Value};
use trace_ops::Text;

/// A prebuilt object, by its row.
pub fn object_of(row: Option<u32>) -> Option<Value>
    ensures { result ≡ object_of row }
{
    match row {
        None => None,
        Some(k) => Some(Value::Obj(k)),
    }
}

/// The value that a word is: `NULL`, an integer, or a prebuilt object, which may be unknown.
#[tactic(auto, unfolding(crate::specs::Words::value_of))]
pub fn value_of(names: &Lexicon, word: &[u8]) -> Option<Option<Value>>
    ensures { result ≡ value_of names.now word.now }
{
    if word == b"NULL".as_slice() {
        return Some(Some(Value::Null));
    }
    if is_name(word) {
        return Some(object_of(names.object_named(&Text::new(word))));
    }
    match integer_of(word) {
        None => None,
        Some(z) => Some(Some(Value::Int(z))),
    }
}

#[tactic(auto, unfolding(crate::specs::Words::arg_of))]
fn arg_of(word: &[u8]) -> Option<u32>
    ensures { result ≡ arg_of word.now }
{
    match word {
        [] => None,
        [first, digits @ ..] => {
            if !(*first == b'#') {
                return None;
            }
            let k = decimal_of(5, digits)?;
            Some(k as u32)
        }
    }
}

fn give_of(value: Value) -> Give
    ensures { result ≡ give_of value }
{
    match value {
        Value::Int(z) => Give::Int(z),
        Value::Null => Give::Null,
        Value::Obj(k) => Give::Prebuilt(k),
    }
}

/// A value that may be unknown, as the host gives it.
pub fn give_if(value: Option<Value>) -> Option<Give>
    ensures { result ≡ give_if value }
{
    match value {
        None => None,
        Some(value) => Some(give_of(value)),
    }
}

/// What a word gives: a reference argument of the call, or a value.
pub fn given_of(names: &Lexicon, word: &[u8]) -> Option<Option<Give>>
    ensures { result ≡ given_of names.now word.now }
{
    match arg_of(word) {
        Some(k) => Some(Some(Give::Arg(k))),
        None => match value_of(names, word) {
            None => None,
            Some(value) => Some(give_if(value)),
        },
    }
}

fn point_at(word: &[u8]) -> Option<usize>
    ensures { result ≡ position (λ c. c == 46) word.now }
{
    word.iter().position(|c| *c == b'.')
}

/// A reference argument and a field of it, which may be unknown.
#[tactic(auto, unfolding(crate::specs::Words::target_of))]
pub fn target_of(names: &Lexicon, word: &[u8]) -> Option<(u32, Option<u32>)>
    ensures { result ≡ target_of names.now word.now }
{
    let i = point_at(word)?;
    let arg = arg_of(word.split_at(i).0)?;
    let field = word.split_at(i + 1).1;
    if is_name(field) {
        return Some((arg, names.field_named(&Text::new(field))));
    }
    None
}
