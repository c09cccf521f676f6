//! What is made of a set is what its image asks: laws, and the pieces of a set together with their image.
#![tactic(auto)]

mod laws;
mod placed;
mod snapshots;
mod words;

pub use laws::{attached_can_attach, loops_can_compile, steps_are_numbered};
pub use placed::PlacedSet;
pub use snapshots::snapshots_have_words;
pub use words::constants_are_words;
