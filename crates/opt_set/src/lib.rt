//! The optimised pieces of a set: those of its loops, and of the bridges that are attached to them.
#![tactic(auto)]

mod fault;
mod laws;
mod parents;
mod pieces;

pub use fault::AttachFault;
pub use laws::{pieces_are_made, pieces_are_sound, preambles_are_had};
pub use pieces::OptimisedSet;
