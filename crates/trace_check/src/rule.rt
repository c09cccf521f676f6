//! The rules of well-formed sets, by name.
ghost use Rattle.std.specs.Prelude.{◌≡◌, ◌≤◌};
ghost use Rattle.trace_check.specs.Faults.{number_of};

/// A rule that a set must keep.
#[derive(Clone, Copy, Debug, PartialEq, Eq)]
pub enum Rule {
    /// The inputs are distinct boxes.
    DistinctInputs,
    /// A result isn't an input or an earlier result.
    NewResult,
    /// A box in arguments or a snapshot is an input or an earlier result.
    KnownBoxes,
    /// Number and kinds of arguments fit the operation.
    Arguments,
    /// There is a result of the operation's kind, or none where it has none.
    ResultKind,
    /// The descr is of the class and kind that the operation wants.
    DescrClass,
    /// An operation that sets overflow and the guard that reads it stand together.
    OverflowGuards,
    /// A guard has at least one frame, and nothing else has one.
    Frames,
    /// The last operation is a jump or a finish, and no earlier one is.
    End,
    /// A label repeats the inputs, as that of every trace of a set does.
    Label,
    /// A jump goes to a loop of the set, and its arguments fit that loop's inputs.
    JumpTarget,
    /// A bridge's parent is in the set and has that guard.
    Parent,
    /// A bridge's inputs are the slots of its guard, and no earlier bridge names that guard.
    BridgeInputs,
    /// No earlier trace has this name, and the parents go in no circle.
    Order,
}

impl Rule {
    /// The number of the rule, from 1.
    pub fn number(self) -> u8
        ensures { result ≡ number_of self }
    {
        match self {
            Rule::DistinctInputs => 1,
            Rule::NewResult => 2,
            Rule::KnownBoxes => 3,
            Rule::Arguments => 4,
            Rule::ResultKind => 5,
            Rule::DescrClass => 6,
            Rule::OverflowGuards => 7,
            Rule::Frames => 8,
            Rule::End => 9,
            Rule::Label => 10,
            Rule::JumpTarget => 11,
            Rule::Parent => 12,
            Rule::BridgeInputs => 13,
            Rule::Order => 14,
        }
    }

    /// The rule of this number.
    pub(crate) fn numbered(number: u8) -> Rule
        requires from { 1 ≤ number }
        requires to { number ≤ 14 }
        ensures { number_of result ≡ number }
    {
        match number {
            1 => Rule::DistinctInputs,
            2 => Rule::NewResult,
            3 => Rule::KnownBoxes,
            4 => Rule::Arguments,
            5 => Rule::ResultKind,
            6 => Rule::DescrClass,
            7 => Rule::OverflowGuards,
            8 => Rule::Frames,
            9 => Rule::End,
            10 => Rule::Label,
            11 => Rule::JumpTarget,
            12 => Rule::Parent,
            13 => Rule::BridgeInputs,
            _ => Rule::Order,
        }
    }
}
