//! Why a text is refused.

ghost use Rattle.std.specs.Prelude.{◌≡◌};
ghost use Rattle.trace_text.specs.Faults.{fault_at, table_fault};

use descr_table::TableFault;
use thiserror::Error;
use trace_ops::What;

/// Why a line is refused. A limit comes with what was counted.
#[derive(Clone, Copy, Debug)]
pub enum Refusal {
    Syntax,
    Float,
    UnknownOp,
    UnknownDescr,
    UnknownBox,
    Limit { what: What, count: u64 },
}

/// Why a text is refused: the first line that is, by its number, or a limit that it passes with the
/// count that passes it. `Table` holds each refusal of a line behind `%table`, and no want of memory.
#[derive(Debug, Drop, Error)]
pub enum TextFault {
    #[error("{0}")]
    Table(TableFault),
    #[error("line {line}: syntax")]
    Syntax { line: u32 },
    #[error("line {line}: float")]
    Float { line: u32 },
    #[error("line {line}: unknown operation")]
    UnknownOp { line: u32 },
    #[error("line {line}: unknown descr")]
    UnknownDescr { line: u32 },
    #[error("line {line}: unknown box")]
    UnknownBox { line: u32 },
    #[error("limit {what:?}: {count}")]
    Limit { what: What, count: u64 },
    #[error("out of memory")]
    OutOfMemory,
}

/// A refusal at its line.
pub fn fault_at(line: u32, why: Refusal) -> TextFault
    ensures { result ≡ fault_at line why }
{
    match why {
        Refusal::Syntax => TextFault::Syntax { line },
        Refusal::Float => TextFault::Float { line },
        Refusal::UnknownOp => TextFault::UnknownOp { line },
        Refusal::UnknownDescr => TextFault::UnknownDescr { line },
        Refusal::UnknownBox => TextFault::UnknownBox { line },
        Refusal::Limit { what, count } => TextFault::Limit { what, count },
    }
}

/// A refusal of the table.
pub fn table_fault(fault: TableFault) -> TextFault
    ensures { result ≡ table_fault fault }
{
    match fault {
        TableFault::OutOfMemory => TextFault::OutOfMemory,
        TableFault::Syntax { line } => TextFault::Table(TableFault::Syntax { line }),
        TableFault::Twice { line } => TextFault::Table(TableFault::Twice { line }),
        TableFault::UnknownName { line } => TextFault::Table(TableFault::UnknownName { line }),
        TableFault::BadInitial { line } => TextFault::Table(TableFault::BadInitial { line }),
        TableFault::Limit { what, count } => TextFault::Table(TableFault::Limit { what, count }),
    }
}
