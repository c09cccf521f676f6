//! The known pure operations: common subexpressions by value numbering.
ghost use Rattle.std.specs.Prelude.{◌≡◌, ℕ, ◌≤◌, [], length, IfOk, OnOk, OnErr};
ghost use Rattle.box_forward.specs.Noted.{noted, key, Notes};

use indexmap::IndexMap;
use std::alloc::{AllocError, Global};
use std::marker::Model;
use trace_ops::{Arg, OpCode, equality_decides};

/// An operation with its one or two arguments.
#[derive(Clone, Copy, PartialEq, Eq, Hash)]
pub struct Key {
    pub code: OpCode,
    pub first: Arg,
    pub second: Option<Arg>,
}

/// The known operations, each with the value that was noted last.
#[derive(Drop)]
pub struct Pure {
    known: IndexMap<Key, Arg>,
}

impl Model for Pure {
    ghost use Rattle.std.specs.Prelude.{List};
    ghost use Rattle.trace_ops.specs.declared.trace.Arg.{Arg};
    ghost use Rattle.box_forward.specs.declared.pure.Key.{Key};

    ghost Value = { List (Key × Arg) };

    ghost view = { λ p. p.known.entries };
}

// The key of an operation.
fn key_of(code: OpCode, args: &[Arg]) -> Key
    requires some { 1 ≤ length args.now }
    requires few { length args.now ≤ 2 }
    ensures { result ≡ key code args.now }
{
    Key {
        code,
        first: args[0],
        second: args.get(1).copied(),
    }
}

impl Pure {
    /// Nothing is known.
    pub fn new(alloc: Global) -> Result<Pure, AllocError>
        ensures { IfOk result (λ p. p ≡ []) }
    {
        Ok(Pure {
            known: IndexMap::new(alloc),
        })
    }

    /// The value that was noted last for the operation, if any was.
    pub fn look_up(&self, code: OpCode, args: &[Arg]) -> Option<Arg>
        requires some { 1 ≤ length args.now }
        requires few { length args.now ≤ 2 }
        ensures { result ≡ noted self.now code args.now }
    {
        self.known.get(&key_of(code, args)).copied()
    }

    /// Notes the value of the operation.
    pub fn note(&mut self, code: OpCode, args: &[Arg], value: Arg) -> Result<(), AllocError>
        requires some { 1 ≤ length args.now }
        requires few { length args.now ≤ 2 }
        ensures ok { OnOk result (Notes self.old self.new code args.now value) }
        ensures err { OnErr result (self.new ≡ self.old) }
    {
        equality_decides();
        self.known.insert(key_of(code, args), value)?;
        Ok(())
    }
}
