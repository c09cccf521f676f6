//! Worked examples of words, weights and listings.
#![tactic(auto)]

#[cfg(test)]
mod listings;
#[cfg(test)]
mod words;
