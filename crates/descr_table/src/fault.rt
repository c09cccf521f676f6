//! Why a table is refused.

use thiserror::Error;
use trace_ops::What;

/// Why a line is refused. A limit comes with what was counted.
#[derive(Clone, Copy, Debug)]
pub enum Refusal {
    Syntax,
    Twice,
    UnknownName,
    BadInitial,
    Limit { what: What, count: u64 },
}

/// Why a table is refused: the first line that is, by its number, or a limit that it passes with the
/// count that passes it.
#[derive(Debug, Drop, Error)]
pub enum TableFault {
    #[error("line {line}: syntax")]
    Syntax { line: u32 },
    #[error("line {line}: twice")]
    Twice { line: u32 },
    #[error("line {line}: unknown name")]
    UnknownName { line: u32 },
    #[error("line {line}: bad initial value")]
    BadInitial { line: u32 },
    #[error("limit {what:?}: {count}")]
    Limit { what: What, count: u64 },
    #[error("out of memory")]
    OutOfMemory,
}
