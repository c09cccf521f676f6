//! The data of optimised traces, and of what is known where one begins.
ghost use Rattle.std.specs.Prelude.{◌≡◌, IfOk};

use crate::{Arg, BoxId, CopyIn, Descr, List, OpCode, ShapeOf, Text, Word};
use std::alloc::AllocError;

/// What a slot, a part or a spot holds: an argument, or a virtual object by its number.
#[derive(Clone, Copy, Debug, PartialEq, Eq, Hash)]
pub enum Val {
    Known(Arg),
    Virtual(u32),
}

/// A virtual object: what it would be, and what its fields or items hold.
#[derive(Debug, PartialEq, Eq, Hash, Drop)]
pub struct Shape {
    pub of: ShapeOf,
    pub parts: List<Val>,
}

/// A field, or an item by its array and a constant index.
#[derive(Clone, Copy, Debug, PartialEq, Eq, Hash)]
pub enum Spot {
    Field(u32),
    Item(u32, Word),
}

/// A store that is still to be done.
#[derive(Clone, Copy, Debug, PartialEq, Eq, Hash)]
pub struct Pending {
    pub base: Arg,
    pub spot: Spot,
    pub value: Val,
}

/// A frame of a guard of a piece: as recorded, with slots that may be virtual objects.
#[derive(Debug, PartialEq, Eq, Hash, Drop)]
pub struct OptFrame {
    pub name: Text,
    pub pc: u32,
    pub slots: List<Val>,
}

/// What a guard needs to go on in the recorded trace.
#[derive(Debug, PartialEq, Eq, Hash, Drop)]
pub struct Snapshot {
    pub frames: List<OptFrame>,
    pub shapes: List<Shape>,
    pub pending: List<Pending>,
}

/// Which piece of a trace: `Pre` is the first round of a peeled loop, or all of a trace that is not peeled; `Body` is every
/// later round.
#[derive(Clone, Copy, Debug, PartialEq, Eq, Hash)]
pub enum Half {
    Pre,
    Body,
}

/// A piece by the place of its trace in the set, and its half.
#[derive(Clone, Copy, Debug, PartialEq, Eq, Hash)]
pub struct PieceId {
    pub trace: u32,
    pub half: Half,
}

/// An operation of a piece. `guard` is the place of a guard among those of the recorded trace; `Exit` leaves at that guard
/// whatever holds.
#[derive(Debug, PartialEq, Eq, Hash, Drop)]
pub enum OptOp {
    Plain {
        code: OpCode,
        result: Option<BoxId>,
        args: List<Arg>,
        descr: Descr,
    },
    Guard {
        code: OpCode,
        args: List<Arg>,
        guard: u32,
        snap: Snapshot,
    },
    Exit {
        guard: u32,
        snap: Snapshot,
    },
    Jump {
        to: PieceId,
        args: List<Arg>,
    },
    Finish {
        value: Option<Arg>,
    },
}

/// An optimised straight trace, which begins with the values of its label.
#[derive(Debug, PartialEq, Eq, Hash, Drop)]
pub struct Piece {
    pub id: PieceId,
    pub label: List<BoxId>,
    pub ops: List<OptOp>,
}

/// The pieces of one recorded trace.
#[derive(Debug, PartialEq, Eq, Hash, Drop)]
pub struct OptTrace {
    pub pieces: List<Piece>,
}

/// What is known of the boxes at an entry: a range of words, that a reference is an object or one of a size, what a spot
/// of a base holds, and what a pure operation gives.
#[derive(Debug, PartialEq, Eq, Hash, Drop)]
pub enum Fact {
    Between(BoxId, Word, Word),
    Nonnull(BoxId),
    ClassOf(BoxId, u32),
    Holds(Arg, Spot, Arg),
    Same(OpCode, List<Arg>, Arg),
}

/// What is known where a piece begins. The recorded inputs have the `values`, in order, told by boxes of the label, by
/// constants and by virtual objects; `pending` stores are still to be done.
#[derive(Debug, PartialEq, Eq, Hash, Drop)]
pub struct Entry {
    pub label: List<BoxId>,
    pub values: List<Val>,
    pub shapes: List<Shape>,
    pub pending: List<Pending>,
    pub facts: List<Fact>,
}

impl Shape {
    /// An equal shape.
    pub fn copy(&self) -> Result<Shape, AllocError>
        ensures { IfOk result (λ c. c ≡ self.now) }
    {
        let parts = self.parts.copy()?;
        Ok(Shape { of: self.of, parts })
    }
}

impl CopyIn for Shape {
    fn copy_in(&self) -> Result<Self, AllocError> {
        self.copy()
    }
}

impl OptFrame {
    /// An equal frame.
    pub fn copy(&self) -> Result<OptFrame, AllocError>
        ensures { IfOk result (λ c. c ≡ self.now) }
    {
        let slots = self.slots.copy()?;
        Ok(OptFrame {
            name: self.name,
            pc: self.pc,
            slots,
        })
    }
}

impl CopyIn for OptFrame {
    fn copy_in(&self) -> Result<Self, AllocError> {
        self.copy()
    }
}

impl Snapshot {
    /// An equal snapshot.
    pub fn copy(&self) -> Result<Snapshot, AllocError>
        ensures { IfOk result (λ c. c ≡ self.now) }
    {
        let frames = self.frames.copy_each()?;
        let shapes = self.shapes.copy_each()?;
        let pending = self.pending.copy()?;
        Ok(Snapshot {
            frames,
            shapes,
            pending,
        })
    }
}

impl OptOp {
    /// An equal operation.
    pub fn copy(&self) -> Result<OptOp, AllocError>
        ensures { IfOk result (λ c. c ≡ self.now) }
    {
        match self {
            OptOp::Plain {
                code,
                result: gives,
                args,
                descr,
            } => {
                let args = args.copy()?;
                Ok(OptOp::Plain {
                    code: *code,
                    result: *gives,
                    args,
                    descr: *descr,
                })
            }
            OptOp::Guard {
                code,
                args,
                guard,
                snap,
            } => {
                let args = args.copy()?;
                let snap = snap.copy()?;
                Ok(OptOp::Guard {
                    code: *code,
                    args,
                    guard: *guard,
                    snap,
                })
            }
            OptOp::Exit { guard, snap } => {
                let snap = snap.copy()?;
                Ok(OptOp::Exit {
                    guard: *guard,
                    snap,
                })
            }
            OptOp::Jump { to, args } => {
                let args = args.copy()?;
                Ok(OptOp::Jump { to: *to, args })
            }
            OptOp::Finish { value } => Ok(OptOp::Finish { value: *value }),
        }
    }
}

impl CopyIn for OptOp {
    fn copy_in(&self) -> Result<Self, AllocError> {
        self.copy()
    }
}

impl Piece {
    /// An equal piece.
    pub fn copy(&self) -> Result<Piece, AllocError>
        ensures { IfOk result (λ c. c ≡ self.now) }
    {
        let label = self.label.copy()?;
        let ops = self.ops.copy_each()?;
        Ok(Piece {
            id: self.id,
            label,
            ops,
        })
    }
}

impl CopyIn for Piece {
    fn copy_in(&self) -> Result<Self, AllocError> {
        self.copy()
    }
}

impl OptTrace {
    /// An equal trace.
    pub fn copy(&self) -> Result<OptTrace, AllocError>
        ensures { IfOk result (λ c. c ≡ self.now) }
    {
        let pieces = self.pieces.copy_each()?;
        Ok(OptTrace { pieces })
    }
}

impl CopyIn for OptTrace {
    fn copy_in(&self) -> Result<Self, AllocError> {
        self.copy()
    }
}

impl Fact {
    /// An equal fact.
    pub fn copy(&self) -> Result<Fact, AllocError>
        ensures { IfOk result (λ c. c ≡ self.now) }
    {
        match self {
            Fact::Between(of, low, high) => Ok(Fact::Between(*of, *low, *high)),
            Fact::Nonnull(of) => Ok(Fact::Nonnull(*of)),
            Fact::ClassOf(of, size) => Ok(Fact::ClassOf(*of, *size)),
            Fact::Holds(base, spot, value) => Ok(Fact::Holds(*base, *spot, *value)),
            Fact::Same(code, args, value) => {
                let args = args.copy()?;
                Ok(Fact::Same(*code, args, *value))
            }
        }
    }
}

impl CopyIn for Fact {
    fn copy_in(&self) -> Result<Self, AllocError> {
        self.copy()
    }
}

impl Entry {
    /// An equal entry.
    pub fn copy(&self) -> Result<Entry, AllocError>
        ensures { IfOk result (λ c. c ≡ self.now) }
    {
        let label = self.label.copy()?;
        let values = self.values.copy()?;
        let shapes = self.shapes.copy_each()?;
        let pending = self.pending.copy()?;
        let facts = self.facts.copy_each()?;
        Ok(Entry {
            label,
            values,
            shapes,
            pending,
            facts,
        })
    }
}

impl CopyIn for Entry {
    fn copy_in(&self) -> Result<Self, AllocError> {
        self.copy()
    }
}
