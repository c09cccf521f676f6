// A printed image shows what its traces show. A caller calls a law for its clause.

ghost use Rattle.std.specs.Prelude.{ℕ, List};
ghost use Rattle.trace_ops.specs.declared.trace.TraceSet.{TraceSet};
ghost use Rattle.trace_ops.specs.declared.piece.PieceId.{PieceId};
ghost use Rattle.trace_ops.specs.declared.piece.Piece.{Piece};
ghost use Rattle.asm_select.specs.Chosen.{Setting};
ghost use Rattle.image_runs.specs.Printed.{Printed};
ghost use Rattle.image_shows.specs.Laws.{CompiledImagesShow, AttachedImagesShow};

use agreement::rebuilt_same;
use heap_shape::roots_are_numbered_alone;
use image_built::{arena_hosts_do, attached_runs, compiled_runs};
use opt_meaning::{ends_show_alike, pieces_run};
use opt_promise::made_pieces_promise_legs;
use resume_rebuild::sound_snapshots_rebuild;
use session_host::{ArenaHost, exits_show, finishes_show};
use trace_meaning::{boxes_keep_their_values, operations_keep_kinds};
use trace_ops::equality_decides;

/// Whatever is started on the printed image of compiled loops, and whatever events there are: each activation keeps to its trace.
/// It ends where that has ended, and shows the same; or its arena has fewer bytes left than are asked for.
pub fn compiled_images_show()
    ensures { (set : TraceSet) (whole ps : List Piece) (settings : PieceId → Setting) (im : Printed) (arena_bytes : ℕ) → CompiledImagesShow set whole ps settings im arena_bytes }
{
    compiled_runs::<ArenaHost>();
    arena_hosts_do();
    made_pieces_promise_legs();
    rebuilt_same();
    ends_show_alike();
    roots_are_numbered_alone();
    pieces_run();
    exits_show();
    finishes_show();
    sound_snapshots_rebuild();
    equality_decides();
    boxes_keep_their_values();
    operations_keep_kinds();
}

/// The same where bridges are attached meanwhile: each activation keeps to its trace under its own cuts.
pub fn attached_images_show()
    ensures { (set : TraceSet) (whole ps : List Piece) (settings : PieceId → Setting) (im : Printed) (arena_bytes : ℕ) → AttachedImagesShow set whole ps settings im arena_bytes }
{
    attached_runs::<ArenaHost>();
    arena_hosts_do();
    made_pieces_promise_legs();
    rebuilt_same();
    ends_show_alike();
    roots_are_numbered_alone();
    pieces_run();
    exits_show();
    finishes_show();
    sound_snapshots_rebuild();
    equality_decides();
    boxes_keep_their_values();
    operations_keep_kinds();
}
