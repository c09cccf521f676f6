//! A table that is being read.

ghost use Rattle.std.specs.Prelude.{◌≡◌, [], OnOk};
ghost use Rattle.descr_table.specs.Meaning.{nothing};
ghost use Rattle.descr_table.specs.Draft.{table_of};

use crate::known::Known;
use std::alloc::Global;
use trace_ops::{ArrayRow, CallRow, FieldRow, List, PrebuiltRow, ShapeOf, SizeRow, Table, Text};

/// The rows so far, their names, and the bytes of the prebuilt objects.
#[derive(Drop)]
pub struct Draft {
    pub alloc: Global,
    pub known: Known,
    pub bytes: u64,
    pub shapes: Vec<ShapeOf>,
    pub sizes: Vec<SizeRow>,
    pub fields: Vec<FieldRow>,
    pub arrays: Vec<ArrayRow>,
    pub calls: Vec<CallRow>,
    pub functions: Vec<Text>,
    pub prebuilts: Vec<PrebuiltRow>,
}

impl Draft {
    /// An empty table.
    pub fn new(alloc: Global) -> Draft
        ensures table { table_of result ≡ nothing }
        ensures known { result.known ≡ record { sizes = []; vtables = []; fields = []; arrays = []; calls = []; functions = []; prebuilts = [] } }
        ensures bytes { result.bytes ≡ 0 }
    {
        Draft {
            alloc,
            known: Known::new(alloc),
            bytes: 0,
            shapes: Vec::new(alloc),
            sizes: Vec::new(alloc),
            fields: Vec::new(alloc),
            arrays: Vec::new(alloc),
            calls: Vec::new(alloc),
            functions: Vec::new(alloc),
            prebuilts: Vec::new(alloc),
        }
    }

    /// The table that was read.
    pub fn finish(self) -> Table
        ensures { result ≡ table_of self }
    {
        Table {
            shapes: List::of(self.shapes),
            sizes: List::of(self.sizes),
            fields: List::of(self.fields),
            arrays: List::of(self.arrays),
            calls: List::of(self.calls),
            functions: List::of(self.functions),
            prebuilts: List::of(self.prebuilts),
        }
    }
}
