//! Code whose jumps lead to places: its bytes, and what changes where a jump leads elsewhere.
#![tactic(auto)]

mod draft;
mod laws;

pub use draft::{Draft, size_of_all};
pub use laws::{chosen_jumps, jumps_are_patched, led_slots_stand, slots_are_emitted};
