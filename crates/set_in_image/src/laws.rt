//! What the optimised pieces of a set are to its image.
ghost use Rattle.set_in_image.specs.Fitting.{LoopsCanCompile};
ghost use Rattle.set_in_image.specs.Attaching.{AttachedCanAttach};
ghost use Rattle.set_in_image.specs.Steps.{StepsAreNumbered};

use opt_set::{pieces_are_sound, preambles_are_had};
use trace_ops::equality_decides;

/// An image is made of the optimised loops of a set in range that isn't too heavy, where their constants are words.
pub fn loops_can_compile()
    ensures { LoopsCanCompile }
{
    pieces_are_sound();
}

/// The pieces of a bridge that was attached to an optimised set may be attached to the image in which the others stand.
pub fn attached_can_attach()
    ensures { AttachedCanAttach }
{
    equality_decides();
    preambles_are_had();
}

/// Each attachment of a history is made to what stands behind the ones before it, and gives what stands behind one more.
pub fn steps_are_numbered()
    ensures { StepsAreNumbered }
{}
