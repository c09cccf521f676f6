//! How objects lie in the words of an arena.
#![tactic(auto)]

mod headers;
mod laws;
mod making;
mod walk;
mod walked;

pub use headers::Headers;
pub use laws::{
    addresses_are_apart, allocations_stand, bytes_are_taken, loads_find, objects_are_read_back,
    prebuilts_stand, spots_lie, stores_write, walk_finds,
};
pub use making::{Full, allocate, bytes_asked, bytes_left};
pub use walk::{Found, begins_at, object_at, words_ahead};
pub use walked::Walked;
