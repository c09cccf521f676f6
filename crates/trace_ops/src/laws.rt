//! What other layers cite of the data of traces and of words: laws over the definitions that the contracts cite.
ghost use Rattle.trace_ops.specs.Equality.{EqualityDecides};
ghost use Rattle.trace_ops.specs.OpNames.{NamesAreApart};
ghost use Rattle.trace_ops.specs.Words.{ShiftsMultiply};

/// The derived `==` of each type finds two values equal exactly where they are the same.
pub fn equality_decides()
    ensures { EqualityDecides }
{}

/// A word that names an operation is read as that operation, and as no other.
pub fn names_are_apart()
    ensures { NamesAreApart }
{}

/// Moving the bits of a word to the left multiplies it by a power of two, modulo 2^64.
pub fn shifts_multiply()
    ensures { ShiftsMultiply }
{}
