//! What machine code of any processor works on: registers, places of values, code bytes and the words of an arena.
#![tactic(auto)]

mod arena;
mod fetch;
mod place;
mod reg;

pub use arena::ArenaWords;
pub use fetch::{Fetch, PlainCode};
pub use place::{Place, same_place};
pub use reg::{Reg, same_reg};
