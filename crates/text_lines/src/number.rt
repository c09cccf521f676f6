//! Decimal numbers, integers and boxes, as words are read and written.

ghost use Rattle.std.specs.Prelude.{◌≡◌, ◌≤◌, ◌^◌, ◌-◌, ◌++◌, IfSome, OnOk, pos, ◌-ℤ◌};
ghost use Rattle.std.specs.Fmt.{signed_decimal};
ghost use Rattle.text_lines.specs.Words.{is_digit};
ghost use Rattle.text_lines.specs.Numbers.{add_digit, decimal_behind, decimal_of, integer_of, letter_of, is_short, box_of};

use std::alloc::AllocError;

/// What a box is by its letter: `i`, then `p` or `r`, then `f`.
#[derive(Clone, Copy, Debug, PartialEq, Eq)]
pub enum Letter {
    Int,
    Ref,
    Float,
}

fn is_digit(c: u8) -> bool
    ensures { result ≡ is_digit c }
{
    b'0' <= c && c <= b'9'
}

#[tactic(auto, unfolding(crate::specs::Numbers::add_digit))]
fn add_digit(limit: u64, n: u64, c: u8) -> Option<u64>
    ensures value { result ≡ add_digit limit n c }
    ensures bound { IfSome result (λ m. m ≤ limit) }
{
    if !is_digit(c) {
        return None;
    }
    let next = n as u128 * 10 + (c - 48) as u128;
    if next <= limit as u128 {
        return Some(next as u64);
    }
    None
}

fn decimal_behind(limit: u64, word: &[u8]) -> Option<u64>
    ensures value { result ≡ decimal_behind limit 0 word.now }
    ensures bound { IfSome result (λ n. n ≤ limit) }
{
    let mut n = 0u64;
    for c in word {
        n = add_digit(limit, n, *c)?;
    }
    Some(n)
}

/// The decimal number that the word is, at most `limit`. Leading zeros are read.
#[tactic(auto, using(crate::proofs::Digits::decimal_some, crate::proofs::Digits::decimal_none))]
pub fn decimal_of(limit: u64, word: &[u8]) -> Option<u64>
    ensures value { result ≡ decimal_of limit word.now }
    ensures bound { IfSome result (λ n. n ≤ limit) }
{
    if word.is_empty() {
        return None;
    }
    decimal_behind(limit, word)
}

fn negative(n: u64) -> i64
    requires { n ≤ 2 ^ 63 }
    ensures { result ≡ pos 0 -ℤ pos n }
{
    if n == 9223372036854775808 {
        return i64::MIN;
    }
    0 - n as i64
}

/// The integer that the word is: an optional `-` and digits, within 64 bits.
#[tactic(auto, unfolding(crate::specs::Numbers::integer_of))]
pub fn integer_of(word: &[u8]) -> Option<i64>
    ensures { result ≡ integer_of word.now }
{
    match word {
        [] => None,
        [b'-', digits @ ..] => {
            let n = decimal_of(9223372036854775808, digits)?;
            Some(negative(n))
        }
        _ => {
            let n = decimal_of(9223372036854775807, word)?;
            Some(n as i64)
        }
    }
}

fn letter_of(c: u8) -> Option<Letter>
    ensures { result ≡ letter_of c }
{
    if c == b'i' {
        return Some(Letter::Int);
    }
    if c == b'p' || c == b'r' {
        return Some(Letter::Ref);
    }
    if c == b'f' {
        return Some(Letter::Float);
    }
    None
}

fn is_short(digits: &[u8]) -> bool
    ensures { result ≡ is_short digits.now }
{
    match digits {
        [] => true,
        [_] => true,
        [first, _, ..] => !(*first == b'0'),
    }
}

/// The letter and the number of the box that the word is.
#[tactic(auto, unfolding(crate::specs::Numbers::box_of))]
pub fn box_of(word: &[u8]) -> Option<(Letter, u32)>
    ensures { result ≡ box_of word.now }
{
    match word {
        [] => None,
        [first, digits @ ..] => {
            let letter = letter_of(*first)?;
            let number = decimal_of(4294967295, digits)?;
            if is_short(digits) {
                return Some((letter, number as u32));
            }
            None
        }
    }
}

/// Writes an integer: `-` where it is below 0, and digits without leading zeros.
pub fn put_integer(out: &mut Vec<u8>, z: i64) -> Result<(), AllocError>
    ensures { OnOk result (out.new.items ≡ out.old.items ++ signed_decimal z) }
{
    let alloc = *out.allocator();
    let text = format!(in alloc; "{z}")?;
    out.extend_from_slice(text.as_bytes())?;
    Ok(())
}
