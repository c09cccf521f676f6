//! Moves that together do the work of several moves at once.
#![tactic(auto)]

mod moving;
mod rest;

pub use moving::{Move, moves};

#[cfg(test)]
mod tests;
