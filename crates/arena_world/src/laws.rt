//! The arena and the world do the same: laws over the definitions that the contracts cite.

ghost use Rattle.arena_world.specs.Laws.{StoreIsReadBack, FirstWorldStands, FirstBytes, FitsAlike, AnswersAlike};

use arena_objects::{
    addresses_are_apart, allocations_stand, bytes_are_taken, loads_find, objects_are_read_back,
    prebuilts_stand, spots_lie, stores_write, walk_finds,
};

/// The objects that stand in an arena are read back as its store.
pub fn stores_are_read_back()
    ensures { StoreIsReadBack }
{
    objects_are_read_back();
    prebuilts_stand();
}

/// The words of the prebuilt objects stand for the objects with which each recorded run begins.
pub fn first_worlds_stand()
    ensures stand { FirstWorldStands }
    ensures bytes { FirstBytes }
{
    prebuilts_stand();
}

/// An answer fits in the arena where it fits in the world, and does there what it does in the world.
pub fn answers_do_alike()
    ensures fits { FitsAlike }
    ensures done { AnswersAlike }
{
    addresses_are_apart();
    allocations_stand();
    bytes_are_taken();
    loads_find();
    prebuilts_stand();
    spots_lie();
    stores_write();
}
