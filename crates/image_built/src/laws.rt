// What compiled pieces are. A caller calls a law for its clause.

ghost use Rattle.image_built.specs.Laws.{CompiledStands, CompiledBegins, CompiledIsBuilt};

use asm_select::{chosen_are_short, chosen_have_rows, exits_have_rows, label_holds, start_fits};
use code_layout::chosen_jumps;
use image_model::{
    Hosted, guards_hold, jumps_hold, selected_pieces_do, sound_pieces_stay_ready, stubs_exit,
};
use trace_ops::equality_decides;

/// The bytes of compiled loops are those of slots under keys that are numbered through; the pieces stand in them, each jump
/// leads where it should, and the rows are those of its exits: an image, to which no bridge is attached.
pub fn compiled_stands<T: Hosted>()
    ensures { (x : T) → CompiledStands (T.host x) }
{
    equality_decides();
    chosen_jumps();
    chosen_are_short();
    chosen_have_rows();
    exits_have_rows();
    selected_pieces_do::<T>();
    stubs_exit::<T>();
    jumps_hold();
    guards_hold();
    sound_pieces_stay_ready();
}

/// A machine that is started at an entry of the printed image comes to its loop's first operation, with the inputs at the
/// places of the label.
pub fn compiled_begins<T: Hosted>()
    ensures { (x : T) → CompiledBegins (T.host x) }
{
    equality_decides();
    chosen_jumps();
    chosen_are_short();
    label_holds();
    start_fits();
    sound_pieces_stay_ready();
}

/// So a printed image of compiled loops, without parts, is built.
pub fn compiled_is_built<T: Hosted>()
    ensures { (x : T) → CompiledIsBuilt (T.host x) }
{
    compiled_stands::<T>();
    compiled_begins::<T>();
}
