//! What ties numbering and reading together: laws over the definitions that the contracts cite.

ghost use Rattle.resume_numbering.specs.Boxes.{BoxesTellKinds, ReadsOneOfBoxes};
ghost use Rattle.resume_numbering.specs.Conditions.{SoundPiecesCanBeNumbered};
ghost use Rattle.resume_numbering.specs.Placed.{RowsHoldSnapshots};
ghost use Rattle.resume_numbering.specs.Reading.{ReadsOne, CanBeRead, ReadsSnapshots};

/// A lawful table is read at a guard, with the kinds of the boxes, as at most one snapshot.
pub fn reads_one()
    ensures { ReadsOne }
{}

/// The table of a piece can be read at each guard of the piece with kinds that give each box of the guard's snapshot
/// its own.
pub fn numbered_can_be_read()
    ensures { CanBeRead }
{}

/// What is then read is the guard's snapshot.
pub fn reads_snapshots()
    ensures { ReadsSnapshots }
{}

/// A sound piece is one that [`crate::number`] takes.
pub fn sound_pieces_can_be_numbered()
    ensures { SoundPiecesCanBeNumbered }
{}

/// Boxes of which no two have one number, and each of a snapshot is one, tell the kinds with which it is read: also where
/// they stand in a list with their places.
pub fn boxes_tell_kinds()
    ensures kinds { BoxesTellKinds }
    ensures one { ReadsOneOfBoxes }
{}

/// What the row of a guard holds, each tagged number being read by [`crate::value_of`] with boxes of which no two have one
/// number, and each of the snapshot is one, is the snapshot for which the table stands.
pub fn rows_hold_snapshots()
    ensures { RowsHoldSnapshots }
{}
