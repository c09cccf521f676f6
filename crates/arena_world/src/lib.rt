//! The arena as the session and the host see it: its objects as a store, the first objects of a run, and the answers of calls.
#![tactic(auto)]

mod answering;
mod first;
mod fitting;
mod host;
mod laws;
mod view;

pub use answering::{Refused, answer};
pub use first::first_words;
pub use fitting::fits;
pub use host::Host;
pub use laws::{answers_do_alike, first_worlds_stand, stores_are_read_back};
pub use view::read_store;
