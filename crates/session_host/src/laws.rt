//! What the host does is what the model of an image asks of a host.

ghost use Rattle.session_host.specs.Laws.{HostsServe, AnswersAreQuiet, StartsStand, StartsHold, ExitsShow, FinishesShow};

use arena_objects::{
    addresses_are_apart, allocations_stand, bytes_are_taken, objects_are_read_back,
    prebuilts_stand, walk_finds,
};
use arena_world::{answers_do_alike, first_worlds_stand};
use asm_select::{allocations_leave, label_holds, start_fits};
use resume_rebuild::rebuilds_what_is_meant;
use trace_meaning::boxes_keep_their_values;
use trace_ops::equality_decides;

/// Over a table in range the host serves each operation that asks it, and may do so: it makes the object that is asked for, or
/// takes the next answer where that fits, and goes on; it ends where no answer is left, where it doesn't fit, or where bytes
/// are wanting.
pub fn hosts_serve()
    ensures { HostsServe }
{
    allocations_leave();
    allocations_stand();
    bytes_are_taken();
    objects_are_read_back();
    prebuilts_stand();
    walk_finds();
    answers_do_alike();
    boxes_keep_their_values();
}

/// An answer makes no instruction.
pub fn answers_are_quiet()
    ensures { AnswersAreQuiet }
{}

/// A started machine has words of inputs of its loop's kinds, each of which is there, and an arena in which the prebuilt objects
/// stand and hold what they should.
pub fn starts_stand()
    ensures { StartsStand }
{
    addresses_are_apart();
    first_worlds_stand();
}

/// A started machine comes to its loop's first piece, which begins with the inputs over the prebuilt objects.
pub fn starts_hold()
    ensures { StartsHold }
{
    addresses_are_apart();
    first_worlds_stand();
    label_holds();
    start_fits();
}

/// Behind the stub of a guard that has failed, a return shows the frames and objects that the guard rebuilds from the values with
/// which its piece is left, or that more bytes are asked for than are left.
pub fn exits_show()
    ensures { ExitsShow }
{
    bytes_are_taken();
    objects_are_read_back();
    prebuilts_stand();
    walk_finds();
    boxes_keep_their_values();
    rebuilds_what_is_meant();
    equality_decides();
}

/// Behind the stub of a finish, a return shows the value with which its piece is left, and the objects that there are.
pub fn finishes_show()
    ensures { FinishesShow }
{
    objects_are_read_back();
    prebuilts_stand();
    walk_finds();
}
