//! Instructions for the operations of optimised pieces, and what they do on the machine.
#![tactic(auto)]

mod accesses;
mod arguments;
mod codes;
mod context;
mod draft;
mod form;
mod known_table;
mod laws;
mod lone;
mod moves;
mod operand;
mod plain;
mod plan;
mod selected;
mod table_numbers;
mod told;

pub use laws::{
    allocations_leave, answers_leave, calls_follow, chosen_are_short, chosen_have_rows,
    code_follows, exits_have_rows, jumps_enter, label_holds, labels_serve, legs_join, objects_hold,
    piece_comes, piece_lands, places_serve, selected_fits, slots_are_whole, slots_stand,
    sound_pieces_suit, start_fits, stub_exits, tables_fit,
};
pub use selected::{Selected, select};
