//! Laws of what agrees.
#![tactic(auto)]

mod ends;
mod legs;
mod more;
mod objects;
mod reads;
mod runs;
mod stores;

pub use ends::{entry_admits, guard_admits, plain_admits, rebuilt_same};
pub use legs::{facts_carry_over, jumps_tell, legs_tell};
pub use more::{
    boxes_grow, calls_are_same, entry_starts, facts_change, facts_grow, folds_alike, names_grow,
    pure_agrees, renames_agree,
};
pub use objects::{
    admitted_bytes, bytes_agree, force_agrees, items_lie_apart, make_agrees, new_both_agrees,
    new_shapes, new_virtual_agrees, shapes_have_spots, spots_lie_apart, zeros_are_one,
};
pub use reads::{
    apart_is_settled, known_is_read, lengths_alike, part_is_read, pending_is_read, read_agrees,
    reads_alike, shape_is_long,
};
pub use runs::{
    calls_agree, overflow_is_apart, overflows_alike, passed_fixes, passed_narrows, passed_tells,
    passes_alike, performs_agree, virtuals_compare, virtuals_pass,
};
pub use stores::{
    both_stores_agree, flush_agrees, flushes_agree, late_store_agrees, virtual_store_agrees,
};
