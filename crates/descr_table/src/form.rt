//! The forms of a table's lines.

use trace_ops::{Kind, List, Text, Word};

/// What a line of a table says. Its names are not looked up yet.
#[derive(Debug, Drop)]
pub enum Form {
    /// A structure, with or without a vtable.
    Size {
        name: Text,
        vtable: Option<Text>,
    },
    /// A field of a structure.
    Field {
        name: Text,
        size: Text,
        kind: Kind,
        immutable: bool,
    },
    /// An array of integers or references.
    Array {
        name: Text,
        kind: Kind,
    },
    /// What a call takes, gives, reads and writes. No result is `None`.
    Call {
        name: Text,
        args: List<Kind>,
        result: Option<Kind>,
        reads: List<Text>,
        writes: List<Text>,
    },
    /// A function of the host.
    Function {
        name: Text,
    },
    /// A prebuilt structure with some of its fields.
    Object {
        name: Text,
        size: Text,
        fields: List<Part>,
    },
    /// A prebuilt array with its items.
    Items {
        name: Text,
        array: Text,
        items: List<Given>,
    },
}

/// A value as it is written. A name is that of a prebuilt object.
#[derive(Clone, Copy, Debug)]
pub enum Given {
    Int(Word),
    Null,
    Name(Text),
}

/// A field with its value.
#[derive(Clone, Copy, Debug)]
pub struct Part {
    pub name: Text,
    pub value: Given,
}
