//! Whether a set of traces is well formed.
#![tactic(auto)]

mod arguments;
mod boxes;
mod checked;
mod descrs;
mod fault;
mod jumps;
mod kinds;
mod laws;
mod order;
mod parents;
mod rule;
mod walk;

pub use checked::{Checked, check};
pub use fault::CheckFault;
pub use laws::check_laws;
pub use rule::Rule;
