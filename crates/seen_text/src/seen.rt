//! What an activation is seen to be.

use trace_meaning::Value;

/// The state of an activation as it is shown. `Exited` has the failed guard, counted from 0 in its trace, `Misfit` the
/// call whose answer doesn't fit, counted from 0. `Full` has the bytes that were asked for and those that were left, and
/// `Wrong` the address of the instruction; a recorded trace has none.
#[derive(Clone, Copy, Debug, PartialEq, Eq)]
pub enum Seen {
    Going,
    Finished(Option<Value>),
    Exited { trace: u32, guard: u32 },
    Waits,
    Misfit { call: u32 },
    Full { asked: u64, left: u64 },
    Wrong(Option<u64>),
}
