//! Intervals of words: where the results of integer operations lie, and what comparisons tell.
#![tactic(auto)]

mod bits;
mod bounds;
mod exact;
mod interval;
mod narrowing;
mod only;
mod outcomes;
mod overflowing;
mod products;
mod results;
mod shifts;
mod signed;
mod span;
mod sums;
mod unsigned;

pub use interval::Interval;
pub use narrowing::narrow;
pub use overflowing::overflows_never;
pub use results::transfer;

#[cfg(test)]
mod test_rows;
#[cfg(test)]
mod tests;
