//! The lines of a session.

use trace_meaning::{Answer, Value};
use trace_ops::{List, Text};

/// What a line asks for. Activations are numbered from 0 in the order of their starts; `trace` and `bridge` are
/// places in the list of traces.
#[derive(Debug, PartialEq, Eq, Drop)]
pub enum Line {
    /// An activation of a loop, with its inputs and what the host answers to its calls, in order.
    Start {
        activation: u32,
        trace: u32,
        inputs: List<Value>,
        answers: List<Answer>,
    },
    /// At most this many instructions.
    Step {
        activation: u32,
        count: u32,
    },
    /// At most this number plus 1, times the length of the code, instructions.
    Run {
        activation: u32,
        n: u32,
    },
    /// A bridge is attached.
    Attach {
        bridge: u32,
    },
}

/// The lines of a session, and the names of its activations by number.
#[derive(Debug, PartialEq, Eq, Drop)]
pub struct SessionText {
    pub lines: List<Line>,
    pub names: List<Text>,
}
