//! What is compiled is an image on which activations run as their pieces.
#![tactic(auto)]

mod attached;
mod hosting;
mod laws;
mod running;

pub use attached::attached_is_built;
pub use hosting::arena_hosts_do;
pub use laws::{compiled_begins, compiled_is_built, compiled_stands};
pub use running::{Code, attached_runs, compiled_runs};
