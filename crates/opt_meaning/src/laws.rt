//! What holds of every run of pieces: laws over the definitions that contracts cite.

ghost use Rattle.opt_meaning.specs.Laws.{MeetingPiecesCompose, PiecesAreShort, PiecesKeepCalls, LegsStayPaired, EndsForward, EndsBackward, PlainAdmitsItself, StartsArePaired, CallsForward, CallsBackward, LegsForward, LegsBackward, LegCallsBackward, BytesBackward, EndedBytes, PiecesKeepObjects, PiecesRun};
ghost use Rattle.opt_meaning.specs.Showing.{EndsShowAlike};
ghost use Rattle.opt_meaning.specs.Worded.{PiecesKeepWords};

use heap_shape::{
    same_calls_have_the_same_numbers, same_calls_have_the_same_roots, same_heaps_list_alike,
};
use std::marker::Model;
use trace_meaning::{
    boxes_keep_their_values, bridges_are_seen, lawful_legs_can_begin, operations_keep_words,
    operations_only_add, recorded_runs, runs_of_programs, runs_only_add,
};
use trace_ops::{OptOp, PieceId};

// The state inside a piece, as the laws on all programs name it.
struct PieceState {}

impl Model for PieceState {
    ghost use Rattle.std.specs.Prelude.{[], false};
    ghost use Rattle.opt_meaning.specs.Step.{Opt};

    ghost Value = { Opt };

    ghost view = { λ s. record { boxes = []; world = record { objects = []; answers = []; log = []; failures = 0; overflow = false } } };
}

/// Pieces are one more program: what holds of every run of straight code that leads on holds of theirs.
pub fn pieces_run()
    ensures { PiecesRun }
{
    runs_of_programs::<PieceId, OptOp, PieceState>();
    operations_only_add();
}

/// Where each piece does what its trace does and each way into a piece is by its entry, legs that begin at a pair that the
/// entry admits stay paired: at such a pair, or ended alike, or the trace has gone wrong.
pub fn legs_stay_paired()
    ensures { LegsStayPaired }
{}

/// Where one side has ended, the other has ended alike after a bounded number of operations, or the trace has gone wrong.
pub fn ends_match()
    ensures forward { EndsForward }
    ensures backward { EndsBackward }
{
    pieces_run();
    recorded_runs();
}

/// The same in legs of the pieces, whatever an operation of theirs is made of.
pub fn legs_match()
    ensures forward { LegsForward }
    ensures backward { LegsBackward }
    ensures calls { LegCallsBackward }
{
    pieces_run();
    recorded_runs();
    runs_only_add();
}

/// Where the label's boxes are distinct and each object that is named is there, the entry of a loop's first piece admits
/// one state of both sides.
pub fn plain_entries_admit_one_state()
    ensures { PlainAdmitsItself }
{
    boxes_keep_their_values();
}

/// Pieces that do what their traces do, with bridges and jumps that are entered as guards and pieces are left, compose.
pub fn meeting_pieces_compose()
    ensures { MeetingPiecesCompose }
{
    pieces_run();
    bridges_are_seen();
}

/// A leg makes at most as many operations as its piece has.
pub fn legs_are_short()
    ensures { PiecesAreShort }
{
    pieces_run();
}

/// A run of pieces only adds calls and objects behind those that there are.
pub fn pieces_only_add()
    ensures calls { PiecesKeepCalls }
    ensures objects { PiecesKeepObjects }
{
    pieces_run();
}

/// A loop and its first piece start at a pair, with any inputs and answers that are words.
pub fn starts_are_paired()
    ensures { StartsArePaired }
{
    boxes_keep_their_values();
    lawful_legs_can_begin();
}

/// What ends alike shows the same, where what guards rebuild does.
pub fn ends_show_alike()
    ensures { EndsShowAlike }
{
    boxes_keep_their_values();
    same_heaps_list_alike();
    same_calls_have_the_same_roots();
    same_calls_have_the_same_numbers();
}

/// Both sides have had the same calls, also in mid-leg: those of either run begin those of the other after a bounded number of
/// operations, or the trace has gone wrong.
pub fn calls_match()
    ensures forward { CallsForward }
    ensures backward { CallsBackward }
{
    pieces_run();
    recorded_runs();
    runs_only_add();
}

/// Pieces allocate no more than their traces, where pairs that entries admit have.
pub fn bytes_match()
    ensures backward { BytesBackward }
    ensures ended { EndedBytes }
{
    pieces_run();
    recorded_runs();
    runs_only_add();
}

/// From words there come words alone: in boxes, in objects and in the values with which pieces are left.
pub fn pieces_keep_words()
    ensures { PiecesKeepWords }
{
    operations_keep_words();
}
