//! What is seen of a session over an image, line by line, as text.
#![tactic(auto)]

mod laws;
mod lines;
mod shown;

pub use laws::lines_are_a_run;
pub use lines::put_lines;
