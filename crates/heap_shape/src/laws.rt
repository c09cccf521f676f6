//! What is promised of listings: laws over the definitions that the contracts cite.

ghost use Rattle.heap_shape.specs.Order.{CellsAreObjects, NumbersArePlaces, RootsAlone, VisitsInOrder};
ghost use Rattle.heap_shape.specs.Sameness.{SameListing, SameRoots, SameRootNumbers};

/// Where an injective map takes the objects that the roots of one heap reach to objects of another, with the same shapes and
/// with parts and roots that agree along the map, the two listings are equal.
pub fn same_heaps_list_alike()
    ensures { SameListing }
{}

/// The roots of two runs agree along a map where the prebuilt objects are the same and the calls and the last values agree.
pub fn same_calls_have_the_same_roots()
    ensures { SameRoots }
{}

/// Two lists of calls that agree one by one along a one-to-one map have the same root numbers, whatever the heaps hold.
pub fn same_calls_have_the_same_numbers()
    ensures { SameRootNumbers }
{}

/// Visited is each object that the roots reach and no other, once, in the order in which they first stand in the roots, then
/// in the parts of the first object visited, then in those of the second, and so on.
pub fn visits_are_in_order()
    ensures { VisitsInOrder }
{}

/// There is a cell for each object visited, at its place, with its shape and its parts.
pub fn cells_are_objects()
    ensures { CellsAreObjects }
{}

/// An object's number is its place among those visited.
pub fn numbers_are_places()
    ensures { NumbersArePlaces }
{}

/// The numbers of the roots depend on the roots alone, whatever the objects hold.
pub fn roots_are_numbered_alone()
    ensures { RootsAlone }
{}
