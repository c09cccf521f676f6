//! Adds numbers and names.
ghost use Rattle.std.specs.Prelude.{◌≡◌, ◌++◌, OnOk};
ghost use Rattle.std.specs.Fmt.{decimal};
ghost use Rattle.trace_text.specs.Writing.{letter, box_text};
ghost use Rattle.trace_text.specs.PieceWriting.{half_text, piece_name};
ghost use Rattle.image_text.specs.Texts.{told_text};

use std::alloc::AllocError;
use text_lines::put_integer;
use trace_ops::{BoxId, Half, Kind, PieceId, TraceSet};
use trace_text::trace_name;

fn put_number(out: &mut Vec<u8>, number: u64) -> Result<(), AllocError>
    ensures { OnOk result (out.new.items ≡ out.old.items ++ decimal number) }
{
    let text = number.to_string(*out.allocator())?;
    out.extend_from_slice(text.as_bytes())
}

/// Adds words and a number behind them.
#[tactic(auto, unfolding(crate::specs::Texts::told_text))]
pub fn put_told(out: &mut Vec<u8>, words: &[u8], number: u64) -> Result<(), AllocError>
    ensures { OnOk result (out.new.items ≡ out.old.items ++ told_text words.now number) }
{
    out.extend_from_slice(words)?;
    put_number(out, number)
}

fn letter(kind: Kind) -> u8
    ensures { result ≡ letter kind }
{
    match kind {
        Kind::Int => b'i',
        Kind::Ref => b'p',
    }
}

/// Adds a box.
#[tactic(auto, unfolding(trace_text::specs::Writing::box_text))]
pub fn put_box(out: &mut Vec<u8>, of: BoxId) -> Result<(), AllocError>
    ensures { OnOk result (out.new.items ≡ out.old.items ++ box_text of) }
{
    out.push(letter(of.kind))?;
    put_integer(out, i64::from(of.number))
}

fn put_half(out: &mut Vec<u8>, half: Half) -> Result<(), AllocError>
    ensures { OnOk result (out.new.items ≡ out.old.items ++ half_text half) }
{
    match half {
        Half::Pre => out.extend_from_slice(b".a"),
        Half::Body => out.extend_from_slice(b".b"),
    }
}

/// Adds the name of a piece.
#[tactic(auto, unfolding(trace_text::specs::PieceWriting::piece_name))]
pub fn put_piece_name(out: &mut Vec<u8>, set: &TraceSet, id: PieceId) -> Result<(), AllocError>
    ensures { OnOk result (out.new.items ≡ out.old.items ++ piece_name set.now id) }
{
    out.extend_from_slice(trace_name(set, id.trace))?;
    put_half(out, id.half)
}
