//! The data of the descriptions that traces cite.
ghost use Rattle.std.specs.Prelude.{◌≡◌, IfOk};

use crate::{CopyIn, Kind, List, Text, Word};
use std::alloc::AllocError;

/// A size or an array by its row.
#[derive(Clone, Copy, Debug, PartialEq, Eq, Hash)]
pub enum ShapeOf {
    Size(u32),
    Array(u32),
}

/// A structure: its vtable, if it has one, and its fields by their rows.
#[derive(Debug, PartialEq, Eq, Hash, Drop)]
pub struct SizeRow {
    pub name: Text,
    pub vtable: Option<Text>,
    pub fields: List<u32>,
}

/// A field of the size of that row.
#[derive(Clone, Copy, Debug, PartialEq, Eq, Hash)]
pub struct FieldRow {
    pub name: Text,
    pub size: u32,
    pub kind: Kind,
    pub immutable: bool,
}

/// Arrays of items of one kind.
#[derive(Clone, Copy, Debug, PartialEq, Eq, Hash)]
pub struct ArrayRow {
    pub name: Text,
    pub kind: Kind,
}

/// A kind of call: what is passed behind the function, what comes back, and the fields that the callee may read and write.
#[derive(Debug, PartialEq, Eq, Hash, Drop)]
pub struct CallRow {
    pub name: Text,
    pub args: List<Kind>,
    pub result: Option<Kind>,
    pub reads: List<u32>,
    pub writes: List<u32>,
}

/// What a part of a prebuilt object holds at first.
#[derive(Clone, Copy, Debug, PartialEq, Eq, Hash)]
pub enum Initial {
    Int(Word),
    Null,
    Ptr(u32),
}

/// An object that is there before any trace runs.
#[derive(Debug, PartialEq, Eq, Hash, Drop)]
pub struct PrebuiltRow {
    pub name: Text,
    pub of: ShapeOf,
    pub parts: List<Initial>,
}

/// The descriptions that a set of traces cites. `shapes` has each size and each array, in the order of their lines.
#[derive(Debug, PartialEq, Eq, Hash, Drop)]
pub struct Table {
    pub shapes: List<ShapeOf>,
    pub sizes: List<SizeRow>,
    pub fields: List<FieldRow>,
    pub arrays: List<ArrayRow>,
    pub calls: List<CallRow>,
    pub functions: List<Text>,
    pub prebuilts: List<PrebuiltRow>,
}

/// What a limit counts.
#[derive(Clone, Copy, Debug, PartialEq, Eq, Hash)]
pub enum What {
    Input,
    Traces,
    Operations,
    Inputs,
    Frames,
    Slots,
    Shapes,
    Functions,
    Calls,
    Fields,
    Arguments,
    Reads,
    Writes,
    Prebuilt,
    Weight,
    Session,
    Activations,
    Answers,
    RvWeight,
    Codes,
    Instructions,
}

impl SizeRow {
    /// An equal row.
    pub fn copy(&self) -> Result<SizeRow, AllocError>
        ensures { IfOk result (λ c. c ≡ self.now) }
    {
        let fields = self.fields.copy()?;
        Ok(SizeRow {
            name: self.name,
            vtable: self.vtable,
            fields,
        })
    }
}

impl CopyIn for SizeRow {
    fn copy_in(&self) -> Result<Self, AllocError> {
        self.copy()
    }
}

impl CallRow {
    /// An equal row.
    pub fn copy(&self) -> Result<CallRow, AllocError>
        ensures { IfOk result (λ c. c ≡ self.now) }
    {
        let args = self.args.copy()?;
        let reads = self.reads.copy()?;
        let writes = self.writes.copy()?;
        Ok(CallRow {
            name: self.name,
            args,
            result: self.result,
            reads,
            writes,
        })
    }
}

impl CopyIn for CallRow {
    fn copy_in(&self) -> Result<Self, AllocError> {
        self.copy()
    }
}

impl PrebuiltRow {
    /// An equal row.
    pub fn copy(&self) -> Result<PrebuiltRow, AllocError>
        ensures { IfOk result (λ c. c ≡ self.now) }
    {
        let parts = self.parts.copy()?;
        Ok(PrebuiltRow {
            name: self.name,
            of: self.of,
            parts,
        })
    }
}

impl CopyIn for PrebuiltRow {
    fn copy_in(&self) -> Result<Self, AllocError> {
        self.copy()
    }
}

impl Table {
    /// An equal table.
    pub fn copy(&self) -> Result<Table, AllocError>
        ensures { IfOk result (λ c. c ≡ self.now) }
    {
        let shapes = self.shapes.copy()?;
        let sizes = self.sizes.copy_each()?;
        let fields = self.fields.copy()?;
        let arrays = self.arrays.copy()?;
        let calls = self.calls.copy_each()?;
        let functions = self.functions.copy()?;
        let prebuilts = self.prebuilts.copy_each()?;
        Ok(Table {
            shapes,
            sizes,
            fields,
            arrays,
            calls,
            functions,
            prebuilts,
        })
    }
}
