//! Pairs of words in order, by the words of their intervals.
ghost use Rattle.std.specs.Prelude.{◌≡◌, ◌≢◌, ◌≤ℤ◌, ◌<ℤ◌, ◌⊎◌, ℤ, IfSome};
ghost use Rattle.int_bounds.specs.Within.{IsWithin, IsPart};
ghost use Rattle.int_bounds.specs.Narrows.{Narrows, IsTight};

use crate::Interval;
use crate::only::only;
use trace_ops::Word;

// The lesser of two.
pub fn lesser(x: Word, y: Word) -> Word
    ensures first { result ≤ℤ x }
    ensures second { result ≤ℤ y }
    ensures one { (result ≡ x) ⊎ (result ≡ y) }
{
    if x < y { x } else { y }
}

// The greater of two.
pub fn greater(x: Word, y: Word) -> Word
    ensures first { x ≤ℤ result }
    ensures second { y ≤ℤ result }
    ensures one { (result ≡ x) ⊎ (result ≡ y) }
{
    if x < y { y } else { x }
}

// The pairs whose first is below the second.
pub fn below(a: Interval, b: Interval) -> Option<(Interval, Interval)>
    ensures narrows { Narrows (λ x y. x <ℤ y) a b result }
    ensures tight { IfSome result (IsTight (λ x y. x <ℤ y)) }
{
    if a.low >= b.high {
        return None;
    }
    let first = Interval {
        low: a.low,
        high: lesser(a.high, b.high - 1),
    };
    let second = Interval {
        low: greater(a.low + 1, b.low),
        high: b.high,
    };
    Some((first, second))
}

// The pairs whose first is at most the second.
pub fn no_more(a: Interval, b: Interval) -> Option<(Interval, Interval)>
    ensures narrows { Narrows (λ x y. x ≤ℤ y) a b result }
    ensures tight { IfSome result (IsTight (λ x y. x ≤ℤ y)) }
{
    if a.low > b.high {
        return None;
    }
    let first = Interval {
        low: a.low,
        high: lesser(a.high, b.high),
    };
    let second = Interval {
        low: greater(a.low, b.low),
        high: b.high,
    };
    Some((first, second))
}

// The pairs of the same word twice.
pub fn same(a: Interval, b: Interval) -> Option<(Interval, Interval)>
    ensures narrows { Narrows (λ x y. x ≡ y) a b result }
    ensures tight { IfSome result (IsTight (λ x y. x ≡ y)) }
{
    let low = greater(a.low, b.low);
    let high = lesser(a.high, b.high);
    if low > high {
        return None;
    }
    let both = Interval { low, high };
    Some((both, both))
}

// The words of an interval of several but one: exact where that one is a bound.
fn without(a: Interval, word: Word) -> Interval
    requires { a.low ≡ word → a.high ≢ word }
    ensures keeps { (x : ℤ) → IsWithin a x → x ≢ word → IsWithin result x }
    ensures part { IsPart result a }
{
    if a.low == word {
        return Interval {
            low: a.low + 1,
            high: a.high,
        };
    }
    if a.high == word {
        return Interval {
            low: a.low,
            high: a.high - 1,
        };
    }
    a
}

// The pairs of two words, where the second is known: narrower where it is a bound of the first.
fn first_apart(a: Interval, b: Interval, word: Word) -> Option<(Interval, Interval)>
    requires { (y : ℤ) → IsWithin b y → y ≡ word }
    ensures { Narrows (λ x y. x ≢ y) a b result }
{
    if a.low == word && a.high == word {
        return None;
    }
    Some((without(a, word), b))
}

// The pairs of two words, where the first is known: narrower where it is a bound of the second.
fn second_apart(a: Interval, b: Interval, word: Word) -> Option<(Interval, Interval)>
    requires { (x : ℤ) → IsWithin a x → x ≡ word }
    ensures { Narrows (λ x y. x ≢ y) a b result }
{
    if b.low == word && b.high == word {
        return None;
    }
    Some((a, without(b, word)))
}

// The pairs of two words: narrower where one is known and a bound of the other.
pub fn apart(a: Interval, b: Interval) -> Option<(Interval, Interval)>
    ensures { Narrows (λ x y. x ≢ y) a b result }
{
    if let Some(word) = only(b) {
        return first_apart(a, b, word);
    }
    if let Some(word) = only(a) {
        return second_apart(a, b, word);
    }
    Some((a, b))
}
