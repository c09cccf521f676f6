//! Sums, differences, products and negatives of words, as whole numbers of 128 bits.
ghost use Rattle.std.specs.Prelude.{◌≡◌, ◌≤ℤ◌, ◌+ℤ◌, ◌-ℤ◌, ◌*ℤ◌, neg_ℤ, ℤ};

use trace_ops::Word;

// Neither wraps nor overflows.
pub fn sum(x: Word, y: Word) -> i128
    ensures { result ≡ x +ℤ y }
{
    x as i128 + y as i128
}

// Neither wraps nor overflows.
pub fn difference(x: Word, y: Word) -> i128
    ensures { result ≡ x -ℤ y }
{
    x as i128 - y as i128
}

// Neither wraps nor overflows.
pub fn product(x: Word, y: Word) -> i128
    ensures { result ≡ x *ℤ y }
{
    x as i128 * y as i128
}

// Neither wraps nor overflows.
pub fn negative(x: Word) -> i128
    ensures { result ≡ neg_ℤ x }
{
    -(x as i128)
}

// The lesser of two.
fn lesser(x: i128, y: i128) -> i128
    ensures first { result ≤ℤ x }
    ensures second { result ≤ℤ y }
{
    if x < y { x } else { y }
}

// The greater of two.
fn greater(x: i128, y: i128) -> i128
    ensures first { x ≤ℤ result }
    ensures second { y ≤ℤ result }
{
    if x < y { y } else { x }
}

// The least of four.
pub fn least(w: i128, x: i128, y: i128, z: i128) -> i128
    ensures first { result ≤ℤ w }
    ensures second { result ≤ℤ x }
    ensures third { result ≤ℤ y }
    ensures fourth { result ≤ℤ z }
{
    lesser(lesser(w, x), lesser(y, z))
}

// The greatest of four.
pub fn greatest(w: i128, x: i128, y: i128, z: i128) -> i128
    ensures first { w ≤ℤ result }
    ensures second { x ≤ℤ result }
    ensures third { y ≤ℤ result }
    ensures fourth { z ≤ℤ result }
{
    greater(greater(w, x), greater(y, z))
}
