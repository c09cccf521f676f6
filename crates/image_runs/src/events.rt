//! What one instruction and one event keep.

ghost use Rattle.image_runs.specs.Laws.{PathsCountNone, OperationsCountNone, OperationsSettle, InstructionKeeps, EventKeeps};
ghost use Rattle.image_runs.specs.Selecting.{Selected};

use crate::Selection;
use crate::relied_on::lower_laws;

/// A path that is the same for all displacements takes no jump of a guard, so it counts no failure.
pub fn paths_count_none()
    ensures { PathsCountNone }
{
    lower_laws();
}

/// A failure is counted where a guard is left, and nowhere else.
pub fn operations_count_none()
    ensures { OperationsCountNone }
{}

/// Operations that have no instruction are passed before the next instruction.
pub fn operations_settle<T: Selection>()
    ensures { (x : T) (told : Selected) → OperationsSettle (T.model x told) }
{
    lower_laws();
}

/// An instruction keeps the machine beside the pieces: it goes on along a path, takes the jump by which an operation is left, comes
/// to a call of the host, or returns.
pub fn instruction_keeps<T: Selection>()
    ensures { (x : T) (told : Selected) → InstructionKeeps (T.model x told) }
{
    lower_laws();
}

/// An event keeps an activation beside its pieces.
pub fn event_keeps<T: Selection>()
    ensures { (x : T) (told : Selected) → EventKeeps (T.model x told) }
{
    lower_laws();
}
