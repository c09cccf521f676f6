//! What any list of events keeps, and what follows for each activation.

ghost use Rattle.image_runs.specs.Laws.{BuiltStands, StepKeeps, RunKeeps, OthersStay, ForwardBound, ShownBackward, WaitsBackward, MisfitsBackward, FullBeside, GoingCalls, ShownCalls, PointerIsPlace};
ghost use Rattle.image_runs.specs.Selecting.{Selected};

use crate::Selection;
use crate::relied_on::lower_laws;

/// What is made by compiling and by attachments is an image at every moment.
pub fn built_stands<T: Selection>()
    ensures { (x : T) (told : Selected) → BuiltStands (T.model x told) }
{}

/// Starts, events and attachments keep all activations beside their pieces.
pub fn sessions_stand<T: Selection>()
    ensures step { (x : T) (told : Selected) → StepKeeps (T.model x told) }
    ensures run { (x : T) (told : Selected) → RunKeeps (T.model x told) }
{
    lower_laws();
}

/// An event changes one activation.
pub fn others_stay()
    ensures { OthersStay }
{}

/// What ends in the pieces ends in the image, after so many instructions.
pub fn ends_forward<T: Selection>()
    ensures { (x : T) (told : Selected) → ForwardBound (T.model x told) }
{
    lower_laws();
}

/// What has ended in the image has ended in the pieces, after so many legs.
pub fn ends_backward<T: Selection>()
    ensures shown { (x : T) (told : Selected) → ShownBackward (T.model x told) }
    ensures waits { (x : T) (told : Selected) → WaitsBackward (T.model x told) }
    ensures misfits { (x : T) (told : Selected) → MisfitsBackward (T.model x told) }
    ensures full { (x : T) (told : Selected) → FullBeside (T.model x told) }
{}

/// An activation has had the calls of its pieces.
pub fn calls_are_had<T: Selection>()
    ensures going { (x : T) (told : Selected) → GoingCalls (T.model x told) }
    ensures shown { (x : T) (told : Selected) → ShownCalls (T.model x told) }
{}

/// The instruction pointer of a going activation is at a place of the listing.
pub fn pointer_is_place<T: Selection>()
    ensures { (x : T) (told : Selected) → PointerIsPlace (T.model x told) }
{
    lower_laws();
}
