//! Traces and their tables, as text and as a set.
#![tactic(auto)]

mod boxes;
mod cut;
mod draft;
mod fault;
mod heading;
mod laws;
mod lexicon;
mod line;
mod meaning;
mod piece_writing;
mod reading;
mod refusal;
mod session;
mod set;
mod value;
mod writing;

pub use fault::{Refusal, TextFault};
pub use laws::{line_laws, opening_laws, text_laws};
pub use piece_writing::{trace_name, write_opt};
pub use session::session_part;
pub use set::read_set;
pub use writing::write_set;
