//! What holds of every run: laws over the definitions that the contracts cite.

ghost use Rattle.trace_meaning.specs.Legs.{Program};
ghost use Rattle.trace_meaning.specs.Boxes.{BindingLaws};
ghost use Rattle.trace_meaning.specs.Growing.{OperationsGrow};
ghost use Rattle.trace_meaning.specs.RunLaws.{RunLaws};
ghost use Rattle.trace_meaning.specs.Sound.{LawfulLegsCanBegin};
ghost use Rattle.trace_meaning.specs.Worded.{RunsKeepWords, WordLaws};
ghost use Rattle.trace_meaning.specs.Keeping.{LawfulLegsKeepKinds};
ghost use Rattle.trace_meaning.specs.Kinds.{BoxesKeepKinds, PartsKeepKinds, EndsKeepKinds};
ghost use Rattle.trace_meaning.specs.Holding.{OperationsKeepKinds};
ghost use Rattle.trace_meaning.specs.There.{WhatIsNamedIsThere};
ghost use Rattle.trace_meaning.specs.Undefined.{OnlyUndefinedGoWrong, RunsMakeProgress};
ghost use Rattle.trace_meaning.specs.Laws.{CallsAreKept, ObjectsAreKept, NoFewerObjects, PrebuiltsStayFirst, AnswersAreCounted, LegsAreRuns, WellFormedLegsAreRuns, LegsAreShort, RecordedRuns, StartsCanBegin, SeenIsBridge, SeesWhereThereIsOne};

use trace_ops::equality_decides;

/// What holds of every run of any straight code that leads on: a run that has ended stays; m operations and then n are
/// m + n; a leg is at most one operation more than its code has, and at most as many where the last one leaves; any number
/// of legs are made by so many operations, and any number of operations stand in a leg; and where each step only adds calls
/// and objects, so does each run.
pub fn runs_of_programs<P, O, S>()
    ensures { (a : Program P O S) → RunLaws a }
{}

/// Recorded traces are such code, and their steps only add.
pub fn recorded_runs()
    ensures { RecordedRuns }
{}

/// A leg of a trace is at most as many operations as the trace has, where it ends, and one more where it doesn't; the legs of
/// a well-formed set are at most as many as its longest trace has.
pub fn recorded_legs_are_runs()
    ensures any { LegsAreRuns }
    ensures well_formed { WellFormedLegsAreRuns }
    ensures short { LegsAreShort }
{}

/// A failure goes into a bridge exactly where it sees one of its guard, and what it goes into is one that it sees.
pub fn bridges_are_seen()
    ensures bridge { SeenIsBridge }
    ensures where_one { SeesWhereThereIsOne }
{}

/// An operation only adds to its world: calls and objects come behind those that there are.
pub fn operations_only_add()
    ensures { OperationsGrow }
{}

/// A run only adds: calls and objects come behind those that there are, and the objects keep their shapes.
pub fn runs_only_add()
    ensures calls { CallsAreKept }
    ensures objects { ObjectsAreKept }
    ensures number { NoFewerObjects }
    ensures prebuilts { PrebuiltsStayFirst }
{}

/// A run has taken as many answers as it has calls that were answered, in order.
pub fn answers_are_counted()
    ensures { AnswersAreCounted }
{}

/// A box has the value that it got last, and no other box another one.
pub fn boxes_keep_their_values()
    ensures { BindingLaws }
{
    equality_decides();
}

/// Of a set in range and well formed, from inputs of a loop's kinds, whatever is answered and attached: each box that
/// holds a value, and each part of an object, holds an integer where its kind is that, and else null or an object that
/// is there. The values with which a run ends are there too, and those of a guard are of the kinds of its slots.
pub fn boxes_keep_kinds()
    ensures boxes { BoxesKeepKinds }
    ensures parts { PartsKeepKinds }
    ensures ends { EndsKeepKinds }
{
    equality_decides();
}

/// An operation whose arguments are as it takes them, and of their kinds, leaves objects that hold values of their kinds, no
/// fewer of them, and gives a value of its kind.
pub fn operations_keep_kinds()
    ensures { OperationsKeepKinds }
{}

/// In each such run, an object has the parts of its size; and what parts and calls name is there.
pub fn what_is_named_is_there()
    ensures { WhatIsNamedIsThere }
{
    equality_decides();
}

/// From words in a set, in inputs and in answers there come words alone: in boxes, in objects, in answers to come, in calls
/// and in the values with which traces are left.
pub fn runs_keep_words()
    ensures { RunsKeepWords }
{
    equality_decides();
}

/// Operations give words where they take words, and boxes hold the words that they got.
pub fn operations_keep_words()
    ensures { WordLaws }
{
    equality_decides();
}

/// In a lawful set whose constants are words, a run starts where its loop can begin, each leg leads to where a trace can
/// begin, and inside it each box holds a value of its kind.
pub fn lawful_legs_can_begin()
    ensures starts { StartsCanBegin }
    ensures legs { LawfulLegsCanBegin }
    ensures kinds { LawfulLegsKeepKinds }
{
    equality_decides();
}

/// Of a lawful set, where objects have the parts of their shapes, an operation goes wrong only for one of these causes, and
/// else gives a value where its code does: a base that is null, an object that isn't of the field's size or of the array, an
/// index below 0 or not below the length, a length below 0, and a write of an immutable field of a prebuilt object.
pub fn only_undefined_operations_go_wrong()
    ensures { OnlyUndefinedGoWrong }
{}

/// In each run of a lawful set, from inputs of a loop's kinds, each box that is known has a value, there is an operation to
/// come, and it goes wrong only where it is undefined on its values.
pub fn runs_make_progress()
    ensures { RunsMakeProgress }
{
    equality_decides();
}
