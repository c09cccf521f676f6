//! What is seen of activations, as text: states, frames, calls, cells and counts.
#![tactic(auto)]

mod calls;
mod cells;
mod counted;
mod laws;
mod lines;
mod listed;
mod observed;
mod puts;
mod seen;
mod states;
mod values;

pub use calls::put_calls;
pub use cells::put_cells;
pub use counted::{put_counts, put_starred_counts};
pub use laws::{calls_show_their_values, hidden_objects_are_free};
pub use lines::{Judged, put_attach, put_ended, put_started};
pub use observed::put_seen;
pub use seen::Seen;
pub use values::put_value;
