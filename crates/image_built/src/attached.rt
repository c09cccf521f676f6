// What attachments make of compiled pieces. A caller calls a law for its clause.

ghost use Rattle.image_built.specs.Attached.{AttachedIsBuilt};

use asm_select::{chosen_are_short, chosen_have_rows, exits_have_rows, label_holds, start_fits};
use code_layout::chosen_jumps;
use image_model::{
    Hosted, guards_hold, jumps_hold, selected_pieces_do, sound_pieces_stay_ready, stubs_exit,
};
use trace_ops::equality_decides;

/// A printed image of compiled loops with the parts of attachments, one after another, is built: each part is that of an
/// attachment, which appends the pieces of a bridge and leads each copy of its guard to the piece of the same half.
pub fn attached_is_built<T: Hosted>()
    ensures { (x : T) → AttachedIsBuilt (T.host x) }
{
    equality_decides();
    chosen_jumps();
    chosen_are_short();
    chosen_have_rows();
    exits_have_rows();
    label_holds();
    start_fits();
    selected_pieces_do::<T>();
    stubs_exit::<T>();
    jumps_hold();
    guards_hold();
    sound_pieces_stay_ready();
}
