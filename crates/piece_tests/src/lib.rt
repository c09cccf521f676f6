//! Worked examples of runs of pieces, beside those of their traces.
#![tactic(auto)]

#[cfg(test)]
mod counter;
#[cfg(test)]
mod cycle;
#[cfg(test)]
mod interpreter;
#[cfg(test)]
mod interpreter_pieces;
#[cfg(test)]
mod interpreter_runs;
#[cfg(test)]
mod late_store;
#[cfg(test)]
mod making;
pub mod running;
