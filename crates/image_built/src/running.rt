// Any list of events over the printed image of compiled loops.

ghost use Rattle.std.specs.Prelude.{List as Items};
ghost use Rattle.trace_ops.specs.declared.trace.TraceSet.{TraceSet};
ghost use Rattle.trace_ops.specs.declared.piece.PieceId.{PieceId};
ghost use Rattle.trace_ops.specs.declared.piece.Piece.{Piece};
ghost use Rattle.asm_select.specs.Chosen.{Setting};
ghost use Rattle.image_runs.specs.Printed.{Printed};
ghost use Rattle.image_built.specs.Running.{CompiledRuns, AttachedRuns};

use crate::attached::attached_is_built;
use crate::laws::compiled_is_built;
use asm_select::chosen_are_short;
use code_layout::chosen_jumps;
use guard_exit::ExitRow;
use image_model::{Hosted, sound_pieces_stay_ready};
use image_runs::{
    Selection, built_stands, calls_are_had, ends_backward, ends_forward, sessions_stand,
};
use trace_ops::{List, equality_decides};

/// The code of compiled pieces, as what tells where values stand in it, and the rows that are printed of it.
#[derive(Drop)]
pub struct Code<T: Drop> {
    pub told: T,
    pub rows: List<ExitRow>,
}

// the host shows ends by the rows that are printed
impl<T: Hosted + Drop> Hosted for Code<T> {
    ghost use Rattle.image_built.specs.Printing.{only_by};

    ghost host = { λ c. only_by c.rows (T.host c.told) };
}

impl<T: Hosted + Drop> Selection for Code<T> {
    ghost use Rattle.image_built.specs.Printing.{only_by};
    ghost use Rattle.image_model.specs.Modelled.{model_of};

    ghost model = { λ c told. model_of (only_by c.rows (T.host c.told)) told.set told.whole told.settings told.pieces };
}

/// Whatever is started on the printed image of compiled loops, and whatever events there are: each activation runs as the pieces
/// of its loop, forward and backward, with the same calls and failures.
pub fn compiled_runs<T: Hosted + Drop>()
    ensures { (x : T) (set : TraceSet) (whole ps : Items Piece) (settings : PieceId → Setting) (im : Printed) → CompiledRuns (T.host x) set whole ps settings im }
{
    compiled_is_built::<Code<T>>();
    equality_decides();
    chosen_jumps();
    chosen_are_short();
    sound_pieces_stay_ready();
    built_stands::<Code<T>>();
    sessions_stand::<Code<T>>();
    ends_forward::<Code<T>>();
    ends_backward::<Code<T>>();
    calls_are_had::<Code<T>>();
}

/// Whatever is started on the printed image of compiled loops, and whatever events there are, attachments among them: each
/// activation runs as the pieces that are attached by then, under its own cuts, forward and backward, with the same calls and
/// failures.
pub fn attached_runs<T: Hosted + Drop>()
    ensures { (x : T) (set : TraceSet) (whole ps : Items Piece) (settings : PieceId → Setting) (im : Printed) → AttachedRuns (T.host x) set whole ps settings im }
{
    attached_is_built::<Code<T>>();
    equality_decides();
    chosen_jumps();
    chosen_are_short();
    sound_pieces_stay_ready();
    built_stands::<Code<T>>();
    sessions_stand::<Code<T>>();
    ends_forward::<Code<T>>();
    ends_backward::<Code<T>>();
    calls_are_had::<Code<T>>();
}
