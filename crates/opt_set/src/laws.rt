//! What the optimised pieces of a set give.
ghost use Rattle.opt_set.specs.Optimised.{OptimisedAreMade, OptimisedAreSound, OptimisedHavePreambles};

use loop_peel::guards_fit_their_trace;
use trace_ops::equality_decides;

/// Whichever of the attached bridges a failure sees, each piece does what its trace does and is entered as others lead to it.
pub fn pieces_are_made()
    ensures { OptimisedAreMade }
{
    equality_decides();
    guards_fit_their_trace();
}

/// Each piece is sound, where the labels are those of all pieces.
pub fn pieces_are_sound()
    ensures { OptimisedAreSound }
{
    equality_decides();
    guards_fit_their_trace();
}

/// The label of the preamble of each loop has a box for each input, of its kind.
pub fn preambles_are_had()
    ensures { OptimisedHavePreambles }
{
    equality_decides();
    guards_fit_their_trace();
}
