//! Why a set is refused.

use thiserror::Error;
use trace_ops::{Text, What};

/// Why a set is refused: the least rule that fails, with the trace and the operation at which it
/// fails, both counted from 0, and that trace's name; or a limit that is passed, with the count.
#[derive(Debug, Drop, Error)]
pub enum CheckFault {
    #[error("trace {trace} op {op}: rule {rule}")]
    IllFormed {
        trace: u32,
        name: Text,
        op: u32,
        rule: u8,
    },
    #[error("limit {what:?}: {count}")]
    Limit {
        what: What,
        count: u64,
    },
    #[error("out of memory")]
    OutOfMemory,
}
