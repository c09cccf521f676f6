//! What optimised pieces do: their runs, beside those of the recorded traces.
#![tactic(auto)]

mod costs;
mod cursor;
mod laws;
mod leaving;
mod places;
mod rebuilding;
mod run;
mod steps;

pub use costs::Counts;
pub use laws::{
    bytes_match, calls_match, ends_match, ends_show_alike, legs_are_short, legs_match,
    legs_stay_paired, meeting_pieces_compose, pieces_keep_words, pieces_only_add, pieces_run,
    plain_entries_admit_one_state, starts_are_paired,
};
pub use run::OptRun;
