//! What refuses the line of an operation.

ghost use Rattle.std.specs.Prelude.{◌≡◌, ◌||◌, not, nat_lt, nat_le, nat_eq, length};
ghost use Rattle.std.specs.List.{list_any, starts_with, ends_with};
ghost use Rattle.text_lines.specs.Reading.{first_of};
ghost use Rattle.trace_ops.specs.OpNames.{code_of};
ghost use Rattle.trace_text.specs.Meaning.{is_float_letter, is_float, makes_float, has_inside, is_float_name, any_value, has_float, is_unknown_name, is_unknown_box, differ, is_misframed, is_misplaced, has_unknown_name, limits, refusal};

use crate::boxes::Boxes;
use crate::fault::Refusal;
use crate::lexicon::Lexicon;
use crate::line::{Line, Slots};
use crate::meaning::{box_id, descr_found};
use crate::value::Value;
use text_lines::Letter;
use trace_ops::{OpCode, What, code_of, is_guard};

fn is_float_letter(letter: Letter) -> bool
    ensures { result ≡ is_float_letter letter }
{
    match letter {
        Letter::Float => true,
        Letter::Int => false,
        Letter::Ref => false,
    }
}

/// Whether a value is a box of floats.
pub fn is_float(value: &Value) -> bool
    ensures { result ≡ is_float value.now }
{
    match value {
        Value::Of(letter, _) => is_float_letter(*letter),
        _ => false,
    }
}

fn makes_float(made: &Option<(Letter, u32)>) -> bool
    ensures { result ≡ makes_float made.now }
{
    match made {
        None => false,
        Some(b) => is_float_letter(b.0),
    }
}

/// Whether one of the values is a box of floats.
pub fn floats(values: &[Value]) -> bool
    ensures { result ≡ list_any is_float values.now }
{
    values.iter().any(|v| is_float(v))
}

fn frames_float(frames: &[Slots]) -> bool
    ensures { result ≡ list_any (λ f. list_any is_float f.slots) frames.now }
{
    frames.iter().any(|f| floats(f.slots.items()))
}

fn starts_with(word: &[u8], bytes: &[u8]) -> bool
    ensures { result ≡ starts_with nat_eq word.now bytes.now }
{
    word.starts_with(bytes)
}

fn ends_with(word: &[u8], bytes: &[u8]) -> bool
    ensures { result ≡ ends_with nat_eq word.now bytes.now }
{
    word.ends_with(bytes)
}

#[tactic(auto, unfolding(crate::specs::Meaning::has_inside))]
fn has_inside(bytes: &[u8], word: &[u8]) -> bool
    ensures { result ≡ has_inside bytes.now word.now }
{
    let mut rest = word;
    while let [_, after @ ..] = rest {
        if starts_with(rest, bytes) {
            return true;
        }
        rest = after;
    }
    false
}

fn is_float_name(name: &[u8]) -> bool
    ensures { result ≡ is_float_name name.now }
{
    (starts_with(name, b"float_") || ends_with(name, b"_f")) || has_inside(b"_float", name)
}

fn has_float_value(line: &Line) -> bool
    ensures { result ≡ any_value is_float line.now }
{
    floats(line.args.items()) || frames_float(line.frames.items())
}

fn has_float_box(line: &Line) -> bool
    ensures { result ≡ (makes_float line.now.made || any_value is_float line.now) }
{
    makes_float(&line.made) || has_float_value(line)
}

fn has_float(line: &Line) -> bool
    ensures { result ≡ has_float line.now }
{
    has_float_box(line) || is_float_name(line.name.bytes())
}

fn is_unknown_name(value: &Value) -> bool
    ensures { result ≡ is_unknown_name value.now }
{
    match value {
        Value::Unknown => true,
        _ => false,
    }
}

fn unknown_names(values: &[Value]) -> bool
    ensures { result ≡ list_any is_unknown_name values.now }
{
    values.iter().any(|v| is_unknown_name(v))
}

fn frames_unknown_names(frames: &[Slots]) -> bool
    ensures { result ≡ list_any (λ f. list_any is_unknown_name f.slots) frames.now }
{
    frames.iter().any(|f| unknown_names(f.slots.items()))
}

fn has_unknown_name(names: &Lexicon, code: Option<OpCode>, line: &Line) -> bool
    requires { code ≡ code_of line.now.name }
    ensures { result ≡ has_unknown_name names.now line.now }
{
    (unknown_names(line.args.items()) || frames_unknown_names(line.frames.items()))
        || !descr_found(names, code, &line.descr).is_some()
}

fn is_unknown_box(seen: &Boxes, value: &Value) -> bool
    ensures { result ≡ is_unknown_box seen.now value.now }
{
    match value {
        Value::Of(letter, number) => !seen.knows(&box_id(*letter, *number)),
        _ => false,
    }
}

fn unknown_boxes(seen: &Boxes, values: &[Value]) -> bool
    ensures { result ≡ list_any (is_unknown_box seen.now) values.now }
{
    values.iter().any(|v| is_unknown_box(seen, v))
}

fn frames_unknown_boxes(seen: &Boxes, frames: &[Slots]) -> bool
    ensures { result ≡ list_any (λ f. list_any (is_unknown_box seen.now) f.slots) frames.now }
{
    frames.iter().any(|f| unknown_boxes(seen, f.slots.items()))
}

fn has_unknown_box(seen: &Boxes, line: &Line) -> bool
    ensures { result ≡ any_value (is_unknown_box seen.now) line.now }
{
    unknown_boxes(seen, line.args.items()) || frames_unknown_boxes(seen, line.frames.items())
}

fn differ(a: bool, b: bool) -> bool
    ensures { result ≡ differ a b }
{
    if a { !b } else { b }
}

fn is_misframed(code: Option<OpCode>, line: &Line) -> bool
    ensures { result ≡ is_misframed code line.now }
{
    match code {
        None => false,
        Some(code) => differ(is_guard(code), 0 < line.frames.items().len()),
    }
}

fn is_misplaced(code: Option<OpCode>, line: &Line) -> bool
    requires { code ≡ code_of line.now.name }
    ensures { result ≡ is_misplaced line.now }
{
    line.name.is(b"debug_merge_point") || is_misframed(code, line)
}

fn has_long_frame(frames: &[Slots]) -> bool
    ensures { result ≡ list_any (λ f. not (nat_le (length f.slots) 256)) frames.now }
{
    frames.iter().any(|f| !(f.slots.items().len() <= 256))
}

fn limit(others: usize, frames: &[Slots]) -> Option<Refusal>
    ensures { result ≡ first_of (limits others frames.now) }
{
    if !(others < 8192) {
        return Some(Refusal::Limit {
            what: What::Operations,
            count: 8193,
        });
    }
    if !(frames.len() <= 32) {
        return Some(Refusal::Limit {
            what: What::Frames,
            count: 33,
        });
    }
    if has_long_frame(frames) {
        return Some(Refusal::Limit {
            what: What::Slots,
            count: 257,
        });
    }
    None
}

/// The first refusal of an operation behind so many others of its trace, over the boxes seen before it.
#[tactic(auto, unfolding(crate::specs::Meaning::refusal))]
pub fn first_refusal(names: &Lexicon, seen: &Boxes, others: usize, line: &Line) -> Option<Refusal>
    ensures { result ≡ refusal names.now seen.now others line.now }
{
    let code = code_of(line.name.bytes());
    if is_misplaced(code, line) {
        return Some(Refusal::Syntax);
    }
    if has_float(line) {
        return Some(Refusal::Float);
    }
    if !code.is_some() {
        return Some(Refusal::UnknownOp);
    }
    if has_unknown_name(names, code, line) {
        return Some(Refusal::UnknownDescr);
    }
    if has_unknown_box(seen, line) {
        return Some(Refusal::UnknownBox);
    }
    limit(others, line.frames.items())
}
