//! Calls of host functions, and what the host answers.
ghost use Rattle.std.specs.Prelude.{◌≡◌, IfOk};

use crate::Value;
use std::alloc::AllocError;
use trace_ops::{CopyIn, List, Word};

/// A call: the function, its arguments, what the host sees of them, and what it gave.
///
/// `seen` has, for each reference argument that isn't null, in order, the values of those fields
/// which the call descr reads and which belong to that object's size, in the order of the descr.
#[derive(Debug, PartialEq, Eq, Hash, Drop)]
pub struct CallEvent {
    pub function: u32,
    pub args: List<Value>,
    pub seen: List<Value>,
    pub gives: Option<Value>,
}

/// A value that the host gives or stores. `Arg(k)` is the k-th reference argument, from 0;
/// `New` is a new zeroed object of a size.
#[derive(Clone, Copy, Debug, PartialEq, Eq, Hash)]
pub enum Give {
    Nothing,
    Int(Word),
    Null,
    Arg(u32),
    Prebuilt(u32),
    New(u32),
}

/// A store that the host makes into a field of the call's `arg`-th reference argument, from 0.
#[derive(Clone, Copy, Debug, PartialEq, Eq, Hash)]
pub struct AnswerStore {
    pub arg: u32,
    pub field: u32,
    pub value: Give,
}

/// What the host answers to one call: its result, and its stores in order.
#[derive(Debug, PartialEq, Eq, Hash, Drop)]
pub struct Answer {
    pub gives: Give,
    pub stores: List<AnswerStore>,
}

impl CallEvent {
    /// An equal event.
    pub fn copy(&self) -> Result<CallEvent, AllocError>
        ensures { IfOk result (λ c. c ≡ self.now) }
    {
        let args = self.args.copy()?;
        let seen = self.seen.copy()?;
        Ok(CallEvent {
            function: self.function,
            args,
            seen,
            gives: self.gives,
        })
    }
}

impl CopyIn for CallEvent {
    fn copy_in(&self) -> Result<Self, AllocError> {
        self.copy()
    }
}

impl Answer {
    /// An equal answer.
    pub fn copy(&self) -> Result<Answer, AllocError>
        ensures { IfOk result (λ c. c ≡ self.now) }
    {
        let stores = self.stores.copy()?;
        Ok(Answer {
            gives: self.gives,
            stores,
        })
    }
}

impl CopyIn for Answer {
    fn copy_in(&self) -> Result<Self, AllocError> {
        self.copy()
    }
}
