//! What holds of the pieces of any trace.
ghost use Rattle.loop_peel.specs.Laws.{GuardsFit};
ghost use Rattle.loop_peel.specs.Serving.{EntriesServe};

/// The entry at which a guard of a piece fails is that of its snapshot, whose frames are the recorded ones.
pub fn guards_fit_their_trace()
    ensures { GuardsFit }
{}

/// The entry at which a guard fails is one with which a piece of its bridge may begin.
pub fn entries_serve_bridges()
    ensures { EntriesServe }
{}
