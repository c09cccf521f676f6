//! The model of an image whose pieces are selected code.
#![tactic(auto)]

mod hosted;
mod laws;

pub use hosted::Hosted;
pub use laws::{guards_hold, jumps_hold, selected_pieces_do, sound_pieces_stay_ready, stubs_exit};
