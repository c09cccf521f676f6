//! More is known.

ghost use Rattle.agreement.specs.Growing.{BoxesGrow, NamesGrow, FactsChange, FactsGrow, FoldsAlike, PureAgrees};
ghost use Rattle.agreement.specs.Renaming.{RenamesAgree, EntryStarts, CallsAreSame};

use trace_ops::equality_decides;

/// More boxes of the piece have values.
pub fn boxes_grow()
    ensures { BoxesGrow }
{}

/// A recorded box gets a value, for which a name is known.
pub fn names_grow()
    ensures { NamesGrow }
{
    equality_decides();
}

/// Other facts, which hold.
pub fn facts_change()
    ensures { FactsChange }
{}

/// One fact more, which holds.
pub fn facts_grow()
    ensures { FactsGrow }
{}

/// A pure operation gives the same value on both sides, comparisons of references too.
pub fn folds_alike()
    ensures { FoldsAlike }
{}

/// A pure operation on both sides.
pub fn pure_agrees()
    ensures { PureAgrees }
{
    equality_decides();
}

/// The same is known by other names.
pub fn renames_agree()
    ensures { RenamesAgree }
{}

/// Where a piece begins, what its entry says agrees.
pub fn entry_starts()
    ensures { EntryStarts }
{
    equality_decides();
}

/// So far both have had the same calls.
pub fn calls_are_same()
    ensures { CallsAreSame }
{}
