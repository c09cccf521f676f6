// What selected pieces do. A caller calls a law for its clause.

ghost use Rattle.image_model.specs.Laws.{SelectedPiecesDo, StubsExit, JumpsHold, GuardsHold};
ghost use Rattle.image_model.specs.Staying.{SoundPiecesStayReady};

use crate::Hosted;
use asm_select::{calls_follow, code_follows, label_holds, stub_exits};
use trace_meaning::operations_keep_kinds;
use trace_ops::equality_decides;

/// A piece whose operations are chosen does what an image asks of a piece.
pub fn selected_pieces_do<T: Hosted>()
    ensures { (x : T) → SelectedPiecesDo (T.host x) }
{
    code_follows();
    calls_follow();
}

/// A jump into a stub comes to the return, with all words saved.
pub fn stubs_exit<T: Hosted>()
    ensures { (x : T) → StubsExit (T.host x) }
{
    stub_exits();
}

/// A jump into a piece begins it, where its label has the places to which the values were brought.
pub fn jumps_hold()
    ensures { JumpsHold }
{
    label_holds();
}

/// A failing guard begins a bridge's piece, where its boxes have been brought to the places of the label.
pub fn guards_hold()
    ensures { GuardsHold }
{
    label_holds();
}

/// A sound piece that begins with values of the kinds of its label, each reference of which is there, over objects that hold what
/// they should, asks the host in no other way than it should, and leaves with such values over such objects.
pub fn sound_pieces_stay_ready()
    ensures { SoundPiecesStayReady }
{
    equality_decides();
    operations_keep_kinds();
}
