// All pieces of several traces.
#![tactic(auto)]

ghost use Rattle.std.specs.Prelude.{◌≡◌, ◌++◌, map, IfOk, OnOk};
ghost use Rattle.std.specs.Borrow.{Bor};
ghost use Rattle.trace_ops.specs.declared.piece.Piece.{Piece};
ghost use Rattle.opt_meaning.specs.Pieces.{all_pieces};

use std::alloc::{AllocError, Global};
use trace_ops::{OptTrace, Piece};

// Adds the pieces of one trace.
pub(crate) fn add_pieces<'a>(
    all: &mut Vec<&'a Piece>,
    pieces: &'a [Piece],
) -> Result<(), AllocError>
    ensures { OnOk result (map (λ (b : Bor Piece). b.now) all.new.items ≡ map (λ (b : Bor Piece). b.now) all.old.items ++ pieces.now) }
{
    for piece in pieces {
        all.push(piece)?;
    }
    Ok(())
}
