//! Ends.

ghost use Rattle.agreement.specs.Entering.{EntryAdmits, GuardAdmits, PlainAdmits};
ghost use Rattle.opt_meaning.specs.Showing.{RebuiltSame};

use heap_shape::{same_calls_have_the_same_roots, same_heaps_list_alike};
use trace_ops::equality_decides;

/// An entry that has what is known, over the boxes of its label, admits the pair.
pub fn entry_admits()
    ensures { EntryAdmits }
{
    equality_decides();
}

/// Where a guard fails, its entry admits the pair.
pub fn guard_admits()
    ensures { GuardAdmits }
{
    equality_decides();
}

/// What is rebuilt from a snapshot, of whose entry the pair is, shows what the trace shows.
pub fn rebuilt_same()
    ensures { RebuiltSame }
{
    same_heaps_list_alike();
    same_calls_have_the_same_roots();
}

/// Where nothing is pending and all values are those of the piece, the plain entry admits the pair.
pub fn plain_admits()
    ensures { PlainAdmits }
{
    equality_decides();
}
