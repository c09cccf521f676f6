//! Guards and calls.

ghost use Rattle.agreement.specs.Guarding.{PassesAlike, PassedTells};
ghost use Rattle.agreement.specs.Narrowing.{PassedFixes, PassedNarrows, ZeroIsCompared};
ghost use Rattle.agreement.specs.Calling.{CallsAgree};
ghost use Rattle.agreement.specs.Performs.{PerformsAgree, OverflowIsApart, OverflowsAlike};
ghost use Rattle.agreement.specs.Comparing.{VirtualsCompare, VirtualsPass};

/// A guard passes on both sides, or fails, or is wrong.
pub fn passes_alike()
    ensures { PassesAlike }
{}

/// What a passed guard tells of its argument.
pub fn passed_tells()
    ensures { PassedTells }
{}

/// Behind a passed guard its argument is a constant: zero, null, or what it was compared with.
pub fn passed_fixes()
    ensures { PassedFixes }
{}

/// Behind a passed guard on a comparison of words, its answer is 1 or 0, and the words lie where their intervals narrow to.
/// Whether a word is zero is such a comparison.
pub fn passed_narrows()
    ensures narrows { PassedNarrows }
    ensures zero { ZeroIsCompared }
{}

/// A call makes one event on both sides, and its answer does the same.
pub fn calls_agree()
    ensures { CallsAgree }
{}

/// A virtual object is another object only where it has its number.
pub fn virtuals_compare()
    ensures { VirtualsCompare }
{}

/// A virtual object isn't null, and is of its shape's size.
pub fn virtuals_pass()
    ensures { VirtualsPass }
{}

/// An operation that both sides perform, where nothing is pending.
pub fn performs_agree()
    ensures { PerformsAgree }
{}

/// Whether the last operation overflowed is no part of what agrees.
pub fn overflow_is_apart()
    ensures { OverflowIsApart }
{}

/// An operation that can overflow does so on both sides or on none.
pub fn overflows_alike()
    ensures { OverflowsAlike }
{}
