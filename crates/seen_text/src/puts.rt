//! Adds numbers.
ghost use Rattle.std.specs.Prelude.{◌≡◌, ◌++◌, OnOk};
ghost use Rattle.std.specs.Fmt.{decimal};
ghost use Rattle.seen_text.specs.Values.{told_text, count_text};

use std::alloc::AllocError;

/// Adds a number in decimal digits.
pub fn put_number(out: &mut Vec<u8>, number: u64) -> Result<(), AllocError>
    ensures { OnOk result (out.new.items ≡ out.old.items ++ decimal number) }
{
    let text = number.to_string(*out.allocator())?;
    out.extend_from_slice(text.as_bytes())
}

/// Adds words and a number behind them.
#[tactic(auto, unfolding(crate::specs::Values::told_text))]
pub fn put_told(out: &mut Vec<u8>, words: &[u8], number: u64) -> Result<(), AllocError>
    ensures { OnOk result (out.new.items ≡ out.old.items ++ told_text words.now number) }
{
    out.extend_from_slice(words)?;
    put_number(out, number)
}

/// Adds a line of a word and a count.
#[tactic(auto, unfolding(crate::specs::Values::count_text))]
pub fn put_count(out: &mut Vec<u8>, word: &[u8], count: usize) -> Result<(), AllocError>
    ensures { OnOk result (out.new.items ≡ out.old.items ++ count_text word.now count) }
{
    out.extend_from_slice(word)?;
    put_number(out, count as u64)?;
    out.push(b'\n')?;
    Ok(())
}
