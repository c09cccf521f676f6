//! Frames and objects from resume data.
#![tactic(auto)]

mod firsts;
mod framing;
mod laws;
mod making;
mod places;
mod rebuilt;
mod reserving;
mod storing;
mod words;

pub use arena_objects::Full;
pub use laws::{formed_pieces_rebuild, rebuilds_what_is_meant, sound_snapshots_rebuild};
pub use rebuilt::{Rebuilt, rebuild};
