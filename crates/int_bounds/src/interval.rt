//! The words from one to another.
ghost use Rattle.std.specs.Prelude.{◌≤ℤ◌};

use trace_ops::Word;

/// The words from `low` to `high`, both among them; there is at least one.
#[derive(Clone, Copy, Debug, PartialEq, Eq)]
pub struct Interval {
    pub low: Word,
    pub high: Word,
    ghost ordered: { low ≤ℤ high },
}

impl Interval {
    /// All words.
    pub const ALL: Interval = Interval {
        low: Word::MIN,
        high: Word::MAX,
    };
}
