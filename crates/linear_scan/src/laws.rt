//! What lives say of a piece whose boxes are numbered as they are defined: laws over the definitions that the contracts cite.
ghost use Rattle.std.specs.Prelude.{length};
ghost use Rattle.trace_ops.specs.declared.piece.Piece.{Piece};
ghost use Rattle.linear_scan.specs.Living.{UsesDefined};
ghost use Rattle.linear_scan.specs.Numbering.{AreNumbered, AreDefined, BoxesLive};
ghost use Rattle.linear_scan.specs.Serving.{PlacesHoldValues};

/// Numbered boxes that are defined before their uses are what [`crate::ranges`] and [`crate::allocate`] ask for.
pub fn numbered_boxes_are_defined()
    ensures { (piece : Piece) → AreNumbered piece → AreDefined piece → UsesDefined (length piece.label) piece.ops }
{}

/// A box begins behind its definition, lives at each operation that uses it, and ends at one of these.
pub fn boxes_live()
    ensures { (piece : Piece) → AreNumbered piece → AreDefined piece → BoxesLive piece }
{}

/// The places that [`crate::allocate`] gives to at most 1,048,304 boxes, the label's words lying below 1,048,320, may hold
/// values, and no two boxes that live together share one.
pub fn places_hold_values()
    ensures { PlacesHoldValues }
{}
