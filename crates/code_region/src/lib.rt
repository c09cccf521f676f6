//! Code bytes in chunks behind raw pointers. A chunk is never moved, so growth neither zeroes nor copies bytes.
#![tactic(auto)]

mod chunk;
mod link;
mod region;

pub use region::Region;
