//! Where a recorded run stands.
ghost use Rattle.std.specs.Prelude.{◌≡◌, IfOk};

use crate::Value;
use std::alloc::AllocError;
use trace_ops::{CopyIn, List, Text};

/// A frame of the interpreter at a failing guard.
#[derive(Debug, PartialEq, Eq, Hash, Drop)]
pub struct RecFrame {
    pub name: Text,
    pub pc: u32,
    pub slots: List<Value>,
}

/// Where a run stands: it goes on, or has ended in one of five ways.
///
/// `Exited` has the guard that failed, counted from 0 in its trace, and the frames, outermost
/// first. `Waits` stands at a call without an answer, `Misfit` at a call, counted from 0, whose
/// answer doesn't fit.
#[derive(Debug, PartialEq, Eq, Hash, Drop)]
pub enum RecState {
    Going,
    Finished(Option<Value>),
    Exited {
        trace: u32,
        guard: u32,
        frames: List<RecFrame>,
    },
    Waits,
    Misfit {
        call: u32,
    },
    Wrong,
}

impl RecFrame {
    /// An equal frame.
    pub fn copy(&self) -> Result<RecFrame, AllocError>
        ensures { IfOk result (λ c. c ≡ self.now) }
    {
        let slots = self.slots.copy()?;
        Ok(RecFrame {
            name: self.name,
            pc: self.pc,
            slots,
        })
    }
}

impl CopyIn for RecFrame {
    fn copy_in(&self) -> Result<Self, AllocError> {
        self.copy()
    }
}

impl RecState {
    /// An equal state.
    pub fn copy(&self) -> Result<RecState, AllocError>
        ensures { IfOk result (λ c. c ≡ self.now) }
    {
        match self {
            RecState::Going => Ok(RecState::Going),
            RecState::Finished(value) => Ok(RecState::Finished(*value)),
            RecState::Exited {
                trace,
                guard,
                frames,
            } => {
                let frames = frames.copy_each()?;
                Ok(RecState::Exited {
                    trace: *trace,
                    guard: *guard,
                    frames,
                })
            }
            RecState::Waits => Ok(RecState::Waits),
            RecState::Misfit { call } => Ok(RecState::Misfit { call: *call }),
            RecState::Wrong => Ok(RecState::Wrong),
        }
    }
}
