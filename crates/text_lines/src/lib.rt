//! The lines and words of a text: names, numbers and boxes, read and written.
#![tactic(auto)]

mod laws;
mod line;
mod names;
mod number;
mod reading;
mod word;
mod writing;

pub use laws::{lines_are_few, lines_are_spelled, text_laws};
pub use line::next_line;
pub use names::Names;
pub use number::{Letter, box_of, decimal_of, integer_of, put_integer};
pub use reading::{is_end, is_skipped, key_at, name_at};
pub use word::{is_name, is_plain, next_word};
pub use writing::{put_line, put_word};
