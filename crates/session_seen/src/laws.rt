//! What lines do to a session.
ghost use Rattle.session_seen.specs.Lines.{LinesAreARun};

/// Whatever lines do to the run of a session is a run of it.
pub fn lines_are_a_run()
    ensures { LinesAreARun }
{}
