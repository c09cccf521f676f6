//! Activations on an image under any list of events: definitions and laws.
#![tactic(auto)]

mod attachments;
mod events;
mod relied_on;
mod selection;
mod sessions;

pub use attachments::{
    attachment_is_image, attachment_keeps, code_is_whole, image_is_listed, part_is_code,
    runs_stay_alike, undone_is_image,
};
pub use events::{
    event_keeps, instruction_keeps, operations_count_none, operations_settle, paths_count_none,
};
pub use selection::Selection;
pub use sessions::{
    built_stands, calls_are_had, ends_backward, ends_forward, others_stay, pointer_is_place,
    sessions_stand,
};
