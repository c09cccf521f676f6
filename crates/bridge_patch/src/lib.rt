//! The image of a trace set: the code of its pieces, with exits, under patches.
#![tactic(auto)]

mod attaching;
mod bridged;
mod bridging;
mod entry;
mod flat;
mod image;
mod laws;
mod laying;
mod layout;
mod plan;
mod planning;
mod rows;

pub use bridged::Refusal;
pub use image::{Change, Image, PieceHere};
pub use laws::bridges_attach_again;
