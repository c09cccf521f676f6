//! What is printed of a set shows what its traces show, whatever is started and whatever events there are.
#![tactic(auto)]

mod laws;

pub use laws::{attached_images_show, compiled_images_show};
