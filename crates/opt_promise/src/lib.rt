//! What the optimised pieces of a set promise: each run of theirs ends as the recorded one does, and shows the same.
#![tactic(auto)]

mod laws;

pub use laws::{made_pieces_promise, made_pieces_promise_legs};
