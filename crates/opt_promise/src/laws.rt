//! The promise, from the laws on runs of pieces.

ghost use Rattle.opt_promise.specs.Promise.{MadePiecesPromise};
ghost use Rattle.opt_promise.specs.Legs.{MadePiecesPromiseLegs};

use agreement::rebuilt_same;
use opt_meaning::{
    calls_match, ends_match, ends_show_alike, legs_are_short, legs_match, meeting_pieces_compose,
    starts_are_paired,
};
use trace_meaning::{lawful_legs_can_begin, recorded_legs_are_runs};

/// Pieces that do what their traces do, and are entered as others lead to them, end as the recorded runs do and show the
/// same, for every loop of a well-formed set, all inputs, answers and cuts, within as many operations as are told.
pub fn made_pieces_promise()
    ensures { MadePiecesPromise }
{
    rebuilt_same();
    ends_match();
    ends_show_alike();
    legs_are_short();
    meeting_pieces_compose();
    starts_are_paired();
    lawful_legs_can_begin();
    recorded_legs_are_runs();
}

/// The same leg by leg, with how both have ended; and the recorded run has had the calls of the pieces, or is wrong.
pub fn made_pieces_promise_legs()
    ensures { MadePiecesPromiseLegs }
{
    legs_match();
    calls_match();
    rebuilt_same();
    ends_match();
    ends_show_alike();
    legs_are_short();
    meeting_pieces_compose();
    starts_are_paired();
    lawful_legs_can_begin();
    recorded_legs_are_runs();
}
