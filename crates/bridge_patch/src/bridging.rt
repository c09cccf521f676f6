// The pieces of a bridge, laid out behind an image.
#![tactic(auto)]

ghost use Rattle.std.specs.Prelude.{◌≡◌, ℕ, ◌≤◌, length, IfOk};
ghost use Rattle.std.specs.Option.{option_map};
ghost use Rattle.std.specs.Borrow.{Bor};
ghost use Rattle.trace_ops.specs.declared.piece.OptOp.{OptOp as Op};
ghost use Rattle.linear_scan.specs.Placing.{words_used};
ghost use Rattle.bridge_patch.specs.Bridged.{comes_from};
ghost use Rattle.bridge_patch.specs.Attached.{entry_code};
ghost use Rattle.bridge_patch.specs.Planning.{CanPlace};
ghost use Rattle.bridge_patch.specs.Bridging.{same_half, row_places, places_by, label_behind, label_among, target_label, target_places, starts_among, CanLay, IsLaidBehind};

use crate::bridged::is_copy;
use crate::entry::{entry_code, label_behind};
use crate::image::{Image, PieceHere};
use crate::laying::{Laid, add_piece, here_of};
use crate::layout::exits_in;
use crate::plan::{Ends, planned};
use asm_select::labels_serve;
use code_layout::{Draft, slots_are_emitted};
use guard_exit::ExitRow;
use resume_numbering::sound_pieces_can_be_numbered;
use std::alloc::{AllocError, Global};
use target_base::Place;
use trace_ops::{Half, List, OptOp, Piece, PieceId, TraceSet};

// Whether two halves are the same.
fn same_half(a: Half, b: Half) -> bool
    ensures { result ≡ same_half a b }
{
    match (a, b) {
        (Half::Pre, Half::Pre) | (Half::Body, Half::Body) => true,
        _ => false,
    }
}

// The places of a row's boxes.
fn row_places(alloc: Global, row: &ExitRow) -> Result<Vec<Place>, AllocError>
    ensures { IfOk result (λ places. places.items ≡ row_places row.now) }
{
    let mut places = Vec::new(alloc);
    for pair in row.places.items() {
        places.push(pair.1)?;
    }
    Ok(places)
}

// Those of the first copy of a guard in a piece of this half.
fn guard_places(
    alloc: Global,
    rows: &[ExitRow],
    source: Option<(usize, u32)>,
    half: Half,
) -> Result<Vec<Place>, AllocError>
    ensures { IfOk result (λ places. places.items ≡ places_by source half rows.now) }
{
    for row in rows {
        if is_copy(source, row) && same_half(row.id.half, half) {
            return row_places(alloc, row);
        }
    }
    Ok(Vec::new(alloc))
}

// The places of the label of the piece of this name.
fn label_among(alloc: Global, heres: &[PieceHere], id: PieceId) -> Result<List<Place>, AllocError>
    ensures { IfOk result (λ label. label ≡ label_among heres.now id) }
{
    for here in heres {
        if id == here.id {
            return here.label.copy();
        }
    }
    Ok(List::of(Vec::new(alloc)))
}

// Those of the label to which an operation jumps.
fn target_label(
    alloc: Global,
    heres: &[PieceHere],
    op: Option<&OptOp>,
) -> Result<List<Place>, AllocError>
    ensures { IfOk result (λ label. label ≡ target_label heres.now (option_map (λ (b : Bor Op). b.now) op.entry)) }
{
    match op {
        Some(OptOp::Jump { to, .. }) => label_among(alloc, heres, *to),
        _ => Ok(List::of(Vec::new(alloc))),
    }
}

// Where the pieces start.
fn starts_among(alloc: Global, heres: &[PieceHere]) -> Result<Vec<(PieceId, u32)>, AllocError>
    ensures { IfOk result (λ starts. starts.items ≡ starts_among heres.now) }
{
    let mut starts = Vec::new(alloc);
    for here in heres {
        starts.push((here.id, here.start))?;
    }
    Ok(starts)
}

// What stands before and behind a piece of the bridge of a guard.
fn bridge_ends(
    image: &Image,
    source: Option<(usize, u32)>,
    piece: &Piece,
) -> Result<Ends, AllocError>
    requires place { (registers : ℕ) × CanPlace piece.now registers }
    requires long { length (places_by source piece.now.id.half image.now.exits) ≤ length piece.now.label }
    requires low { words_used (places_by source piece.now.id.half image.now.exits) ≤ 524272 }
    requires label { words_used (label_behind piece.now (places_by source piece.now.id.half image.now.exits)) ≤ 524288 }
    ensures front { IfOk result (λ ends. ends.front ≡ entry_code (places_by source piece.now.id.half image.now.exits) (label_behind piece.now (places_by source piece.now.id.half image.now.exits))) }
    ensures label { IfOk result (λ ends. ends.label ≡ label_behind piece.now (places_by source piece.now.id.half image.now.exits)) }
    ensures to { IfOk result (λ ends. ends.to ≡ target_places image.now.pieces piece.now.ops) }
{
    let guards = guard_places(image.alloc, &image.exits, source, piece.id.half)?;
    let label = label_behind(image.alloc, piece, &guards)?;
    let front = entry_code(image.alloc, &guards, label.items())?;
    let to = target_label(image.alloc, &image.pieces, piece.ops.items().last())?;
    Ok(Ends { front, label, to })
}

// The pieces of the bridge of a guard, laid out behind an image.
pub(crate) fn lay_out_bridge(
    image: &Image,
    set: &TraceSet,
    source: Option<(usize, u32)>,
    pieces: &[Piece],
) -> Result<Laid, AllocError>
    requires { CanLay set.now image.now source pieces.now }
    ensures { IfOk result (λ laid. IsLaidBehind set.now image.now source pieces.now laid) }
{
    sound_pieces_can_be_numbered();
    slots_are_emitted();
    labels_serve();
    let alloc = image.alloc;
    let starts = starts_among(alloc, &image.pieces)?;
    let mut draft = Draft {
        from: image.code.len(),
        bytes: Vec::new(alloc),
        jumps: Vec::new(alloc),
    };
    let mut exit = image.exits.len() as u32;
    let mut exits = Vec::new(alloc);
    let mut heres = Vec::new(alloc);
    for piece in pieces {
        let ends = bridge_ends(image, source, piece)?;
        let at = draft.from + draft.bytes.len() as u32;
        let plan = planned(alloc, set, piece, image.registers, ends, at, exit)?;
        add_piece(alloc, &mut draft, &mut exits, &starts, &plan, piece)?;
        heres.push(here_of(alloc, &plan, piece)?)?;
        exit += exits_in(piece.ops.items());
    }
    Ok(Laid {
        bytes: draft.bytes,
        exits,
        pieces: heres,
    })
}
