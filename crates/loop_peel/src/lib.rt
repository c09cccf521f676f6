//! The pieces of a loop, and those of a bridge for each way in which its guard is left.
#![tactic(auto)]

mod entries;
mod goal;
mod laws;
mod links;
mod peeling;

pub use laws::{entries_serve_bridges, guards_fit_their_trace};
pub use peeling::{Peeled, bridge, peel};
