// The laws of the crates below, in one.

ghost use Rattle.image_runs.specs.Relying.{Relies};

use asm_select::slots_stand;
use x64_encode::{one_instruction, spellings_are_short};
use x64_machine::{instructions_are_counted, steps_have_one_outcome};

// What the laws of this crate rest on.
pub fn lower_laws()
    ensures { Relies }
{
    one_instruction();
    spellings_are_short();
    steps_have_one_outcome();
    instructions_are_counted();
    slots_stand();
}
