//! Arguments and slots, as a line writes them.

ghost use Rattle.std.specs.Prelude.{◌≡◌, ◌==◌, position};
ghost use Rattle.trace_text.specs.Values.{plain_value, named_value, name_and_pc, frame_head};

use text_lines::{Letter, box_of, decimal_of, integer_of, is_name};
use trace_ops::{Arg, Text, Word};

/// An argument or a slot: a box by its letter, an integer, NULL, what a name of the table stands for,
/// or a name that the table does not have.
#[derive(Clone, Copy, Debug)]
pub enum Value {
    Of(Letter, u32),
    Const(Word),
    Null,
    Named(Arg),
    Unknown,
}

/// What stands before the slots of a frame: nothing, or a name and a pc.
#[derive(Clone, Copy, Debug)]
pub enum Head {
    Plain,
    Named(Text, u32),
}

/// A value of one word.
#[tactic(auto, unfolding(crate::specs::Values::plain_value))]
pub fn plain_value(word: &[u8]) -> Option<Value>
    ensures { result ≡ plain_value word.now }
{
    if word == b"NULL".as_slice() {
        return Some(Value::Null);
    }
    match box_of(word) {
        Some((letter, number)) => Some(Value::Of(letter, number)),
        None => match integer_of(word) {
            Some(z) => Some(Value::Const(z)),
            None => None,
        },
    }
}

/// What a name stands for, as a value.
pub fn named_value(found: Option<Arg>) -> Value
    ensures { result ≡ named_value found }
{
    match found {
        None => Value::Unknown,
        Some(arg) => Value::Named(arg),
    }
}

fn colon_at(word: &[u8]) -> Option<usize>
    ensures { result ≡ position (λ c. c == 58) word.now }
{
    word.iter().position(|c| *c == b':')
}

#[tactic(auto, unfolding(crate::specs::Values::name_and_pc))]
fn name_and_pc(word: &[u8]) -> Option<Head>
    ensures { result ≡ name_and_pc word.now }
{
    let i = colon_at(word)?;
    let name = word.split_at(i).0;
    if !is_name(name) {
        return None;
    }
    let pc = decimal_of(4294967295, word.split_at(i + 1).1)?;
    Some(Head::Named(Text::new(name), pc as u32))
}

/// The head of a frame, `@name:pc`.
#[tactic(auto, unfolding(crate::specs::Values::frame_head))]
pub fn frame_head(word: &[u8]) -> Option<Head>
    ensures { result ≡ frame_head word.now }
{
    match word {
        [] => None,
        [first, rest @ ..] => {
            if *first == b'@' {
                name_and_pc(rest)
            } else {
                None
            }
        }
    }
}
