//! Words and lemmas on lists that several crates cite: what a list has, what is once, and what leads where.
#![tactic(auto)]

mod laws;

pub use laws::{has_is_place, once_is_one_place, once_is_short};
