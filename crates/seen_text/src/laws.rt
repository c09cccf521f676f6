//! What is promised of the texts: laws over the definitions that the contracts cite.

ghost use Rattle.seen_text.specs.Shown.{CallsShowTheirValues, HiddenObjectsAreFree};

/// Where the numbers of the roots of calls are taken off in order, each call is written with the numbers of its own
/// arguments and of what was seen of them, by whatever numbering.
pub fn calls_show_their_values()
    ensures { CallsShowTheirValues }
{}

/// Where neither a finish, an exit nor calls show values, the text is the same whatever objects there are: a caller needn't read them.
pub fn hidden_objects_are_free()
    ensures { HiddenObjectsAreFree }
{}
