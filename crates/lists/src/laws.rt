//! What the words of this crate mean by places.

ghost use Rattle.lists.specs.Laws.{HasIsPlace, OnceIsOnePlace, OnceIsShort};

/// A list has what stands at one of its places.
pub fn has_is_place()
    ensures { HasIsPlace }
{}

/// Nothing stands twice exactly where two places of the same number are one place.
pub fn once_is_one_place()
    ensures { OnceIsOnePlace }
{}

/// Numbers below n of which none stands twice are at most n.
pub fn once_is_short()
    ensures { OnceIsShort }
{}
