//! New objects.

ghost use Rattle.agreement.specs.Spots.{SpotsLieApart, ItemsLieApart, ShapesHaveSpots, NewShapes};
ghost use Rattle.agreement.specs.Making.{NewVirtualAgrees, NewBothAgrees, ZerosAreOne, BytesAgree, MakeAgrees, ForceAgrees};
ghost use Rattle.opt_meaning.specs.Laws.{AdmittedBytes};

/// An object that the trace makes is a virtual one.
pub fn new_virtual_agrees()
    ensures { NewVirtualAgrees }
{}

/// An object that both sides make.
pub fn new_both_agrees()
    ensures { NewBothAgrees }
{}

/// The parts of new objects are one on both sides.
pub fn zeros_are_one()
    ensures { ZerosAreOne }
{}

/// The piece has allocated no more bytes than the trace.
pub fn bytes_agree()
    ensures { BytesAgree }
{}

/// And so it is wherever an entry admits the two.
pub fn admitted_bytes()
    ensures { AdmittedBytes }
{}

/// A virtual object is made: a box in its place, and its parts other than 0 and NULL are pending stores.
pub fn make_agrees()
    ensures { MakeAgrees }
{}

/// Forcing, cycles included, never goes wrong.
pub fn force_agrees()
    ensures { ForceAgrees }
{}

/// Two spots that aren't one lie apart.
pub fn spots_lie_apart()
    ensures { SpotsLieApart }
{}

/// An item at any index lies apart from all spots but the items of its array.
pub fn items_lie_apart()
    ensures { ItemsLieApart }
{}

/// Each part of a shape has a spot.
pub fn shapes_have_spots()
    ensures { ShapesHaveSpots }
{}

/// The parts of a new object are those of a shape of constants.
pub fn new_shapes()
    ensures { NewShapes }
{}
