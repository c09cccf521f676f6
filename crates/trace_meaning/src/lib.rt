//! What recorded traces do: stores of objects, calls and their answers, and the run of a trace set.
#![tactic(auto)]

mod boxes;
mod call;
mod calling;
mod cursor;
mod fitting;
mod folding;
mod frames;
mod laws;
mod links;
mod objects;
mod passing;
mod performing;
mod routes;
mod run;
mod state;
mod steps;
mod value;
mod world;

pub use boxes::Boxes;
pub use call::{Answer, AnswerStore, CallEvent, Give};
pub use laws::{
    answers_are_counted, boxes_keep_kinds, boxes_keep_their_values, bridges_are_seen,
    lawful_legs_can_begin, only_undefined_operations_go_wrong, operations_keep_kinds,
    operations_keep_words, operations_only_add, recorded_legs_are_runs, recorded_runs,
    runs_keep_words, runs_make_progress, runs_of_programs, runs_only_add, what_is_named_is_there,
};
pub use passing::passes;
pub use performing::{Done, perform};
pub use routes::{GuardPlace, Routes};
pub use run::RecRun;
pub use state::{RecFrame, RecState};
pub use value::{Object, Store, Value};
pub use world::World;
