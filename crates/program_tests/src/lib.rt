//! What the program answers.
#![tactic(auto)]

#[cfg(test)]
mod answers;
