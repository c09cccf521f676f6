//! What is observed of recorded traces, as text.
#![tactic(auto)]

mod attaching;
mod observed;
mod sessions;

pub use observed::put_observed;
pub use sessions::observe;
