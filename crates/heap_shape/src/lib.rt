//! Heaps up to the numbers of their objects: what of a store can be reached, listed in an order that depends on the roots alone.
#![tactic(auto)]

mod cell;
mod laws;
mod observed;
mod visits;
mod walk;

pub use cell::{Cell, Ref};
pub use laws::{
    cells_are_objects, numbers_are_places, roots_are_numbered_alone,
    same_calls_have_the_same_numbers, same_calls_have_the_same_roots, same_heaps_list_alike,
    visits_are_in_order,
};
pub use observed::roots;
pub use walk::listing;
