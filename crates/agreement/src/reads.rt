//! What a recorded read gives.

ghost use Rattle.agreement.specs.Reading.{ApartIsSettled, ReadsAlike, ReadAgrees, KnownIsRead, PendingIsRead, PartIsRead, LengthsAlike, ShapeIsLong};

/// No pending store will write a spot from which all lie apart.
pub fn apart_is_settled()
    ensures { ApartIsSettled }
{}

/// A spot that isn't pending is read alike on both sides, or by neither.
pub fn reads_alike()
    ensures { ReadsAlike }
{}

/// Where the trace reads a spot that isn't pending, so does the piece.
pub fn read_agrees()
    ensures { ReadAgrees }
{}

/// What is known of a spot is what the trace reads there.
pub fn known_is_read()
    ensures { KnownIsRead }
{}

/// The value of a pending store is what the trace reads there.
pub fn pending_is_read()
    ensures { PendingIsRead }
{}

/// What the trace reads of a virtual object is a part of its shape.
pub fn part_is_read()
    ensures { PartIsRead }
{}

/// An array is as long on both sides.
pub fn lengths_alike()
    ensures { LengthsAlike }
{}

/// A virtual array is as long as its shape.
pub fn shape_is_long()
    ensures { ShapeIsLong }
{}
