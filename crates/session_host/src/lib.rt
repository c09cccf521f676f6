//! The host of a session, in the arena: how machines start, what calls are answered and what returns show.
#![tactic(auto)]

mod arena_host;
mod laws;

pub use arena_host::ArenaHost;
pub use laws::{
    answers_are_quiet, exits_show, finishes_show, hosts_serve, starts_hold, starts_stand,
};
