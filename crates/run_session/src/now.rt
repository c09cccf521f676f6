//! Where activations stand, and why starts are refused.

use trace_meaning::Value;
use trace_ops::What;

/// Where an activation stands. A full arena tells the bytes that were asked for and those that are left, a misfit the number of
/// the call, from 0, and a wrong one the word by which it is wrong, read unsigned.
#[derive(Clone, Copy, Debug, PartialEq, Eq)]
pub enum Now {
    Going,
    Finished(Option<Value>),
    Exited { trace: u32, guard: u32 },
    ArenaFull { asked: u64, left: u64 },
    Waits,
    Misfit { call: u32 },
    Wrong { at: u64 },
}

/// A start that is refused: no loop or inputs that don't fit it; too many activations or answers, with the limit and one; or want
/// of memory.
#[derive(Clone, Copy, Debug, PartialEq, Eq)]
pub enum StartFault {
    BadInput,
    Limit { what: What, count: u64 },
    OutOfMemory,
}
