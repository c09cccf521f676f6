//! The text of an image, version 1: its base, its exits, and what each attachment appended and patched.
#![tactic(auto)]

mod exits;
mod hex_lines;
mod image;
mod parts;
mod puts;
mod reading;
mod undoing;

pub use hex_lines::put_hex;
pub use image::{Compiled, put_image};
