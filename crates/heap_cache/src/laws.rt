//! What is promised of all calls, one after another: laws over the definitions that the contracts cite.

ghost use Rattle.heap_cache.specs.Calls.{ReadsWhatStands, ReadsAreTrue, StoresHaveOneFate, LateIsAtOnce};

use trace_ops::equality_decides;

/// A read gives the value that a call gave the spot of the base last, where that still stands, and nothing else.
pub fn reads_what_stands()
    ensures { ReadsWhatStands }
{
    equality_decides();
}

/// What a read gives is there, whichever bases are one object.
pub fn reads_are_true()
    ensures { ReadsAreTrue }
{
    equality_decides();
}

/// Each late store comes out once, in order, or is still pending, or was replaced.
pub fn stores_have_one_fate()
    ensures { StoresHaveOneFate }
{
    equality_decides();
}

/// Late stores do what stores at once do, whichever bases are one object.
pub fn late_is_at_once()
    ensures { LateIsAtOnce }
{
    equality_decides();
}
