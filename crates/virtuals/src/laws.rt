//! What is promised of changes and orders: laws over the definitions that the contracts cite.

ghost use Rattle.virtuals.specs.Changes.{SetsOnePart, ForcedIsBox, OrderIsWhole, MadeAreStored};
ghost use Rattle.virtuals.specs.Objects.{MakesObjects};

/// One part gets the value, and no other part changes.
pub fn sets_one_part()
    ensures { SetsOnePart }
{}

/// No part names a forced virtual object, and all other parts are as before.
pub fn forced_is_box()
    ensures { ForcedIsBox }
{}

/// What a store of an order names is made by it.
pub fn order_is_whole()
    ensures { OrderIsWhole }
{}

/// Doing an order on fresh objects makes each object to which the virtual object leads, with all its parts, and no other.
pub fn order_makes_objects()
    ensures { MakesObjects }
{}

/// Each object that an order makes, but the one that is asked for, is stored into another that it makes.
pub fn made_are_stored()
    ensures { MadeAreStored }
{}
