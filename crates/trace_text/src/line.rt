//! The line of an operation, of inputs or of a label, read word by word.

ghost use Rattle.std.specs.Prelude.{◌≡◌, ◌++◌, ◌∷◌, [], IfOk, OnOk, codes, length, None, Some};
ghost use Rattle.text_lines.specs.Words.{words};
ghost use Rattle.text_lines.specs.Reading.{Gives};
ghost use Rattle.trace_text.specs.Line.{Moved, go, start, expect, class_step, object_step, descr_step, frame_end, open_step, behind_step, end_step, closed_step, slot_open_step, slot_behind_step, name_step, first_step, push_value, plain_step, item_step, slot_step, closed, frame_closed, frame_step, step, run, is_done, from, op_at, inputs_at};
ghost use Rattle.trace_text.specs.declared.line.Place.TheVariants as place;

use crate::lexicon::Lexicon;
use crate::value::{Head, Value, frame_head, named_value, plain_value};
use std::alloc::{AllocError, Global};
use text_lines::{Letter, box_of, is_name, next_word};
use trace_ops::{List, Text};

/// The slots of a frame, behind its head.
#[derive(Debug, Drop)]
pub struct Slots {
    pub head: Head,
    pub slots: List<Value>,
}

/// What a line may go on with.
#[derive(Clone, Copy, Debug)]
pub enum Place {
    Start,
    First,
    Equals,
    Named,
    Open,
    Next,
    Behind,
    Class,
    ClassOpen,
    Ptr,
    PtrOpen,
    Closing,
    Descr,
    DescrEquals,
    DescrEnd,
    Closed,
    FrameHead,
    SlotOpen,
    SlotNext,
    SlotBehind,
    SlotPtr,
    SlotPtrOpen,
    SlotClosing,
    Framed,
    Ended,
}

/// The line of an operation as far as it is read.
#[derive(Debug, Drop)]
pub struct Line {
    pub place: Place,
    pub made: Option<(Letter, u32)>,
    pub name: Text,
    pub args: List<Value>,
    pub descr: Option<Text>,
    pub head: Head,
    pub opened: List<Value>,
    pub frames: List<Slots>,
}

fn start(alloc: Global) -> Line
    ensures { result ≡ start }
{
    Line {
        place: Place::Start,
        made: None,
        name: Text::new(b""),
        args: List::of(Vec::new(alloc)),
        descr: None,
        head: Head::Plain,
        opened: List::of(Vec::new(alloc)),
        frames: List::of(Vec::new(alloc)),
    }
}

fn go(line: &mut Line, place: Place) -> bool
    ensures { Moved result line.new (Some (go line.old place)) }
{
    line.place = place;
    true
}

fn expect(line: &mut Line, mark: &[u8], place: Place, word: &[u8]) -> bool
    ensures { Moved result line.new (expect line.old mark.now place word.now) }
{
    if word == mark {
        return go(line, place);
    }
    false
}

fn name_step(line: &mut Line, place: Place, word: &[u8]) -> bool
    ensures { Moved result line.new (name_step line.old place word.now) }
{
    if is_name(word) {
        line.name = Text::new(word);
        line.place = place;
        return true;
    }
    false
}

fn first_step(line: &mut Line, word: &[u8]) -> bool
    ensures { Moved result line.new (first_step line.old word.now) }
{
    if word == b"(".as_slice() {
        return go(line, Place::Open);
    }
    if word == b"=".as_slice() {
        let Some(made) = box_of(line.name.bytes()) else {
            return false;
        };
        line.made = Some(made);
        line.place = Place::Equals;
        return true;
    }
    false
}

fn push_value(line: &mut Line, value: Value, place: Place) -> Result<bool, AllocError>
    ensures { IfOk result (λ b. Moved b line.new (Some (push_value line.old value place))) }
{
    line.opened.push(value)?;
    line.place = place;
    Ok(true)
}

fn plain_step(line: &mut Line, place: Place, word: &[u8]) -> Result<bool, AllocError>
    ensures { IfOk result (λ b. Moved b line.new (plain_step line.old place word.now)) }
{
    match plain_value(word) {
        None => Ok(false),
        Some(value) => push_value(line, value, place),
    }
}

fn item_step(line: &mut Line, word: &[u8]) -> Result<bool, AllocError>
    ensures { IfOk result (λ b. Moved b line.new (item_step line.old word.now)) }
{
    if word == b"descr".as_slice() {
        return Ok(go(line, Place::Descr));
    }
    if word == b"ConstClass".as_slice() {
        return Ok(go(line, Place::Class));
    }
    if word == b"ConstPtr".as_slice() {
        return Ok(go(line, Place::Ptr));
    }
    plain_step(line, Place::Behind, word)
}

fn slot_step(line: &mut Line, word: &[u8]) -> Result<bool, AllocError>
    ensures { IfOk result (λ b. Moved b line.new (slot_step line.old word.now)) }
{
    if word == b"ConstPtr".as_slice() {
        return Ok(go(line, Place::SlotPtr));
    }
    plain_step(line, Place::SlotBehind, word)
}

fn class_step(names: &Lexicon, line: &mut Line, word: &[u8]) -> Result<bool, AllocError>
    ensures { IfOk result (λ b. Moved b line.new (class_step names.now line.old word.now)) }
{
    if !is_name(word) {
        return Ok(false);
    }
    let value = named_value(names.class_named(&Text::new(word)));
    push_value(line, value, Place::Closing)
}

fn object_step(
    names: &Lexicon,
    line: &mut Line,
    place: Place,
    word: &[u8],
) -> Result<bool, AllocError>
    ensures { IfOk result (λ b. Moved b line.new (object_step names.now line.old place word.now)) }
{
    if !is_name(word) {
        return Ok(false);
    }
    let value = named_value(names.object_named(&Text::new(word)));
    push_value(line, value, place)
}

fn descr_step(line: &mut Line, word: &[u8]) -> bool
    ensures { Moved result line.new (descr_step line.old word.now) }
{
    if is_name(word) {
        line.descr = Some(Text::new(word));
        line.place = Place::DescrEnd;
        return true;
    }
    false
}

fn close(alloc: Global, line: &mut Line) -> bool
    ensures { Moved result line.new (Some (closed line.old)) }
{
    line.args = std::mem::replace(&mut line.opened, List::of(Vec::new(alloc)));
    line.place = Place::Closed;
    true
}

fn frame_end(head: &Head) -> Place
    ensures { result ≡ frame_end head.now }
{
    match head {
        Head::Plain => Place::Ended,
        Head::Named(_, _) => Place::Framed,
    }
}

fn close_frame(alloc: Global, line: &mut Line) -> Result<bool, AllocError>
    ensures { IfOk result (λ b. Moved b line.new (Some (frame_closed line.old))) }
{
    let slots = std::mem::replace(&mut line.opened, List::of(Vec::new(alloc)));
    let head = line.head;
    line.frames.push(Slots { head, slots })?;
    line.place = frame_end(&head);
    Ok(true)
}

fn frame_step(line: &mut Line, word: &[u8]) -> bool
    ensures { Moved result line.new (frame_step line.old word.now) }
{
    let Some(head) = frame_head(word) else {
        return false;
    };
    line.head = head;
    line.place = Place::FrameHead;
    true
}

fn open_step(alloc: Global, line: &mut Line, word: &[u8]) -> Result<bool, AllocError>
    ensures { IfOk result (λ b. Moved b line.new (open_step line.old word.now)) }
{
    if word == b")".as_slice() {
        return Ok(close(alloc, line));
    }
    item_step(line, word)
}

fn behind_step(alloc: Global, line: &mut Line, word: &[u8]) -> bool
    ensures { Moved result line.new (behind_step line.old word.now) }
{
    if word == b",".as_slice() {
        return go(line, Place::Next);
    }
    end_step(alloc, line, word)
}

fn end_step(alloc: Global, line: &mut Line, word: &[u8]) -> bool
    ensures { Moved result line.new (end_step line.old word.now) }
{
    if word == b")".as_slice() {
        return close(alloc, line);
    }
    false
}

fn closed_step(line: &mut Line, word: &[u8]) -> bool
    ensures { Moved result line.new (closed_step line.old word.now) }
{
    if word == b"[".as_slice() {
        return go(line, Place::SlotOpen);
    }
    frame_step(line, word)
}

fn slot_open_step(alloc: Global, line: &mut Line, word: &[u8]) -> Result<bool, AllocError>
    ensures { IfOk result (λ b. Moved b line.new (slot_open_step line.old word.now)) }
{
    if word == b"]".as_slice() {
        return close_frame(alloc, line);
    }
    slot_step(line, word)
}

fn slot_behind_step(alloc: Global, line: &mut Line, word: &[u8]) -> Result<bool, AllocError>
    ensures { IfOk result (λ b. Moved b line.new (slot_behind_step line.old word.now)) }
{
    if word == b",".as_slice() {
        return Ok(go(line, Place::SlotNext));
    }
    if word == b"]".as_slice() {
        return close_frame(alloc, line);
    }
    Ok(false)
}

fn step(alloc: Global, names: &Lexicon, line: &mut Line, word: &[u8]) -> Result<bool, AllocError>
    ensures { IfOk result (λ b. Moved b line.new (step names.now line.old word.now)) }
{
    match line.place {
        Place::Start => Ok(name_step(line, Place::First, word)),
        Place::First => Ok(first_step(line, word)),
        Place::Equals => Ok(name_step(line, Place::Named, word)),
        Place::Named => Ok(expect(line, b"(", Place::Open, word)),
        Place::Open => open_step(alloc, line, word),
        Place::Next => item_step(line, word),
        Place::Behind => Ok(behind_step(alloc, line, word)),
        Place::Class => Ok(expect(line, b"(", Place::ClassOpen, word)),
        Place::ClassOpen => class_step(names, line, word),
        Place::Ptr => Ok(expect(line, b"(", Place::PtrOpen, word)),
        Place::PtrOpen => object_step(names, line, Place::Closing, word),
        Place::Closing => Ok(expect(line, b")", Place::Behind, word)),
        Place::Descr => Ok(expect(line, b"=", Place::DescrEquals, word)),
        Place::DescrEquals => Ok(descr_step(line, word)),
        Place::DescrEnd => Ok(end_step(alloc, line, word)),
        Place::Closed => Ok(closed_step(line, word)),
        Place::FrameHead => Ok(expect(line, b"[", Place::SlotOpen, word)),
        Place::SlotOpen => slot_open_step(alloc, line, word),
        Place::SlotNext => slot_step(line, word),
        Place::SlotBehind => slot_behind_step(alloc, line, word),
        Place::SlotPtr => Ok(expect(line, b"(", Place::SlotPtrOpen, word)),
        Place::SlotPtrOpen => object_step(names, line, Place::SlotClosing, word),
        Place::SlotClosing => Ok(expect(line, b")", Place::SlotBehind, word)),
        Place::Framed => Ok(frame_step(line, word)),
        Place::Ended => Ok(false),
    }
}

fn is_done(place: Place) -> bool
    ensures { result ≡ is_done place }
{
    match place {
        Place::Closed => true,
        Place::Framed => true,
        Place::Ended => true,
        _ => false,
    }
}

/// What a line is, read from this place on.
#[tactic(auto, unfolding(crate::specs::Line::from))]
fn from(
    alloc: Global,
    names: &Lexicon,
    place: Place,
    text: &[u8],
) -> Result<Option<Line>, AllocError>
    ensures { IfOk result (λ o. Gives (λ x. x) o (from names.now place (words text.now))) }
{
    let mut line = start(alloc);
    line.place = place;
    let mut rest = text;
    while let Some((word, after)) = next_word(rest) {
        if !step(alloc, names, &mut line, word)? {
            return Ok(None);
        }
        rest = after;
    }
    if is_done(line.place) {
        return Ok(Some(line));
    }
    Ok(None)
}

/// The operation or the label that a line is.
pub fn op_at(alloc: Global, names: &Lexicon, text: &[u8]) -> Result<Option<Line>, AllocError>
    ensures { IfOk result (λ o. Gives (λ x. x) o (op_at names.now (words text.now))) }
{
    from(alloc, names, Place::Start, text)
}

/// The inputs that a line is.
pub fn inputs_at(alloc: Global, names: &Lexicon, text: &[u8]) -> Result<Option<Line>, AllocError>
    ensures { IfOk result (λ o. Gives (λ x. x) o (inputs_at names.now (words text.now))) }
{
    from(alloc, names, Place::Closed, text)
}
