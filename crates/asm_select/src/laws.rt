// What the chosen code does. A caller calls a law for its clause.
#![tactic(auto)]

ghost use Rattle.asm_select.specs.Given.{PlacesServe, TargetsDiffer, LabelsServe};
ghost use Rattle.asm_select.specs.Ended.{CodeFollows};
ghost use Rattle.asm_select.specs.Asked.{CallsFollow, AllocationsLeave, PieceComes};
ghost use Rattle.asm_select.specs.Answering.{ArgumentsAreRead, EventsAreShown, AnswersAreTaken, AnswersLeave};
ghost use Rattle.asm_select.specs.Exited.{StubExits, JumpsEnter, PieceLands, StretchesGoOn, LabelHolds, LabelStands, JumpBegins, BridgeBegins, StartFits};
ghost use Rattle.asm_select.specs.Suited.{SoundPiecesSuit, TablesServe, TableNumbersFit, PrebuiltsStayPut, ObjectResultHolds, ObjectStoreHolds};
ghost use Rattle.asm_select.specs.Fitting.{SelectedFits};
ghost use Rattle.asm_select.specs.Laid.{ChosenHaveRows, ExitsHaveRows, ChosenAreShort, SlotsStand, SlotsAreWhole};

use arena_objects::{
    addresses_are_apart, allocations_stand, bytes_are_taken, loads_find, objects_are_read_back,
    prebuilts_stand, spots_lie, walk_finds,
};
use linear_scan::boxes_live;
use trace_ops::shifts_multiply;
use x64_encode::spellings_are_short;

/// The places of an allocation may hold boxes, and keep those apart that live together.
pub fn places_serve()
    ensures { PlacesServe }
{
    boxes_live();
}

/// The places of a label, and those to which a jump moves its arguments.
pub fn labels_serve()
    ensures labels { LabelsServe }
    ensures targets { TargetsDiffer }
{}

/// Sound pieces are such as the laws below ask for.
pub fn sound_pieces_suit()
    ensures { SoundPiecesSuit }
{}

/// What [`crate::select`] gives for a sound piece is such as the laws below ask for, whatever the first operation's key is,
/// where the table is in range and constants are words.
pub fn selected_fits()
    ensures { SelectedFits }
{
    boxes_live();
}

/// Header numbers and addresses of a table in range fit instructions, and prebuilt objects stay where they are.
pub fn tables_fit()
    ensures serves { TablesServe }
    ensures numbers { TableNumbersFit }
    ensures prebuilts { PrebuiltsStayPut }
{}

/// What holds behind an operation on objects.
pub fn objects_hold()
    ensures result { ObjectResultHolds }
    ensures store { ObjectStoreHolds }
{}

/// The code of an operation goes on with the operation's effect, or comes to the slot at which the piece is left.
pub fn code_follows()
    ensures { CodeFollows }
{
    shifts_multiply();
    addresses_are_apart();
    loads_find();
    spots_lie();
    spellings_are_short();
}

/// The code of an operation that calls the host comes to the call, and goes on from what the host leaves.
pub fn calls_follow()
    ensures { CallsFollow }
{}

/// What the host leaves of an allocation for which enough bytes are left.
pub fn allocations_leave()
    ensures { AllocationsLeave }
{
    allocations_stand();
    bytes_are_taken();
}

/// At a call of a function the host reads the values of its arguments and what it is shown; the operation goes on by the first answer that is left,
/// where that fits; and where enough bytes are left, the host's writes of that answer leave what the code goes on from.
pub fn answers_leave()
    ensures read { ArgumentsAreRead }
    ensures shown { EventsAreShown }
    ensures taken { AnswersAreTaken }
    ensures leave { AnswersLeave }
{
    shifts_multiply();
    addresses_are_apart();
    loads_find();
    spots_lie();
    allocations_stand();
    walk_finds();
    objects_are_read_back();
    prebuilts_stand();
}

/// The code of a piece comes straight to where the piece is left, or from call to call of the host.
pub fn piece_comes()
    ensures { PieceComes }
{
    shifts_multiply();
    addresses_are_apart();
    loads_find();
    spots_lie();
    spellings_are_short();
}

/// From such a slot one instruction leads to where its jump leads now, and changes nothing else.
pub fn jumps_enter()
    ensures { JumpsEnter }
{}

/// In a code in which some slots of a piece stand, a run over them comes to where the jump of the operation that is left leads,
/// or to a call behind which the others stand.
pub fn piece_lands()
    ensures lands { PieceLands }
    ensures calls { StretchesGoOn }
{}

/// Where values stand at the places of a label, its piece may begin.
pub fn label_holds()
    ensures holds { LabelHolds }
    ensures stands { LabelStands }
{}

/// A machine begins fit for code, with the inputs in its frame.
pub fn start_fits()
    ensures { StartFits }
{}

/// Legs join: where a jump or a failing guard has landed at a piece, that piece may begin.
pub fn legs_join()
    ensures jump { JumpBegins }
    ensures bridge { BridgeBegins }
{}

/// A stub and the common exit save the registers, leave the exit's number and return.
pub fn stub_exits()
    ensures { StubExits }
{}

/// Each chosen instruction has a row in the table of instructions.
pub fn chosen_have_rows()
    ensures { ChosenHaveRows }
{
    spellings_are_short();
}

/// Each instruction of a stub and of the common exit has a row.
pub fn exits_have_rows()
    ensures { ExitsHaveRows }
{}

/// With the stubs of its exits, the chosen code has at most 32 bytes for each operation and each argument.
pub fn chosen_are_short()
    ensures { ChosenAreShort }
{
    spellings_are_short();
}

/// Slots stand in the bytes of a list of slots of which they are a part.
pub fn slots_stand()
    ensures { SlotsStand }
{
    spellings_are_short();
}

/// Decoding the bytes of slots reaches their end with no rest.
pub fn slots_are_whole()
    ensures { SlotsAreWhole }
{
    spellings_are_short();
}
