//! What holds of slots whose jumps lead to places: laws over the definitions that the contracts cite.
#![tactic(auto)]

ghost use Rattle.code_layout.specs.Laws.{SlotsAreEmitted, JumpsAreNoted, SizesAreTold, SlotsHaveRows, LedSlotsStand, JumpsArePatched};
ghost use Rattle.code_layout.specs.Chosen.{ChosenJumps};

use x64_encode::spellings_are_short;

/// What a draft adds for the instructions and jumps of slots are the bytes and the jumps of the slots.
pub fn slots_are_emitted()
    ensures emitted { SlotsAreEmitted }
    ensures noted { JumpsAreNoted }
    ensures sizes { SizesAreTold }
    ensures rows { SlotsHaveRows }
{}

/// Slots stand where their bytes stand, whole, and each of their jumps leads to its place.
pub fn led_slots_stand()
    ensures { LedSlotsStand }
{
    spellings_are_short();
}

/// Where the jump of one operation leads elsewhere, its four displacement bytes change and no other byte.
pub fn jumps_are_patched()
    ensures { JumpsArePatched }
{}

/// In the code that is chosen for a piece each operation that is left by a jump has one, and none has two.
pub fn chosen_jumps()
    ensures { ChosenJumps }
{}
