//! What a recorded leg tells of the operations that it has passed.

ghost use Rattle.agreement.specs.Telling.{LegsTell, JumpsTell, FactsCarryOver};

use trace_meaning::{boxes_keep_their_values, recorded_runs};

/// Each operation that was passed tells what it told, as far as the leg has gone.
pub fn legs_tell()
    ensures { LegsTell }
{
    boxes_keep_their_values();
    recorded_runs();
}

/// So do all operations of a leg that jumps, of the state that it leaves.
pub fn jumps_tell()
    ensures { JumpsTell }
{
    boxes_keep_their_values();
    recorded_runs();
}

/// And what it tells of recorded boxes, the boxes of a piece tell that they are there.
pub fn facts_carry_over()
    ensures { FactsCarryOver }
{}
