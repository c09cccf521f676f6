//! Worked lines, sessions and pieces, read and written.
#![tactic(auto)]

#[cfg(test)]
mod lines;
#[cfg(test)]
mod pieces;
#[cfg(test)]
mod sessions;
