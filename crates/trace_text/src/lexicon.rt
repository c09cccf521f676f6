//! The names of a table's rows, with what each stands for.

ghost use Rattle.std.specs.Prelude.{◌≡◌, ◌+◌, [], IfOk, OnOk};
ghost use Rattle.trace_text.specs.Names.{Names, look, with_entry, with_class, vtables_from, functions_from, prebuilts_from, sizes_from, fields_from, arrays_from, calls_from, names_of};

use indexmap::IndexMap;
use std::alloc::{AllocError, Global};
use std::marker::Model;
use trace_ops::{Arg, ArrayRow, CallRow, Descr, FieldRow, PrebuiltRow, SizeRow, Table, Text};

/// The names that lines of traces may cite.
#[derive(Drop)]
pub struct Lexicon {
    classes: IndexMap<Text, Arg>,
    prebuilts: IndexMap<Text, Arg>,
    descrs: IndexMap<Text, Descr>,
}

impl Model for Lexicon {
    ghost use Rattle.trace_text.specs.Names.{Names};

    ghost Value = { Names };

    ghost view = { λ l. record { classes = l.classes.entries; prebuilts = l.prebuilts.entries; descrs = l.descrs.entries } };
}

fn add_vtable(
    entries: &mut IndexMap<Text, Arg>,
    vtable: &Option<Text>,
    row: u32,
) -> Result<(), AllocError>
    ensures { OnOk result (entries.new.entries ≡ with_class vtable.now row entries.old.entries) }
{
    match vtable {
        None => Ok(()),
        Some(name) => {
            entries.insert(*name, Arg::Class(row))?;
            Ok(())
        }
    }
}

// Rows past the numbers of 32 bits can't be cited.
fn next_row(row: u32) -> Result<u32, AllocError>
    ensures { IfOk result (λ n. n ≡ row + 1) }
{
    match row.checked_add(1) {
        None => Err(AllocError),
        Some(next) => Ok(next),
    }
}

#[tactic(auto, unfolding(crate::specs::Names::vtables_from))]
fn add_vtables(entries: &mut IndexMap<Text, Arg>, rows: &[SizeRow]) -> Result<(), AllocError>
    ensures { OnOk result (entries.new.entries ≡ vtables_from 0 rows.now entries.old.entries) }
{
    let mut k = 0u32;
    for row in rows {
        add_vtable(entries, &row.vtable, k)?;
        k = next_row(k)?;
    }
    Ok(())
}

#[tactic(auto, unfolding(crate::specs::Names::functions_from))]
fn add_functions(entries: &mut IndexMap<Text, Arg>, names: &[Text]) -> Result<(), AllocError>
    ensures { OnOk result (entries.new.entries ≡ functions_from 0 names.now entries.old.entries) }
{
    let mut k = 0u32;
    for name in names {
        entries.insert(*name, Arg::Func(k))?;
        k = next_row(k)?;
    }
    Ok(())
}

#[tactic(auto, unfolding(crate::specs::Names::prebuilts_from))]
fn add_prebuilts(entries: &mut IndexMap<Text, Arg>, rows: &[PrebuiltRow]) -> Result<(), AllocError>
    ensures { OnOk result (entries.new.entries ≡ prebuilts_from 0 rows.now entries.old.entries) }
{
    let mut k = 0u32;
    for row in rows {
        entries.insert(row.name, Arg::Ptr(k))?;
        k = next_row(k)?;
    }
    Ok(())
}

#[tactic(auto, unfolding(crate::specs::Names::sizes_from))]
fn add_sizes(entries: &mut IndexMap<Text, Descr>, rows: &[SizeRow]) -> Result<(), AllocError>
    ensures { OnOk result (entries.new.entries ≡ sizes_from 0 rows.now entries.old.entries) }
{
    let mut k = 0u32;
    for row in rows {
        entries.insert(row.name, Descr::Size(k))?;
        k = next_row(k)?;
    }
    Ok(())
}

#[tactic(auto, unfolding(crate::specs::Names::fields_from))]
fn add_fields(entries: &mut IndexMap<Text, Descr>, rows: &[FieldRow]) -> Result<(), AllocError>
    ensures { OnOk result (entries.new.entries ≡ fields_from 0 rows.now entries.old.entries) }
{
    let mut k = 0u32;
    for row in rows {
        entries.insert(row.name, Descr::Field(k))?;
        k = next_row(k)?;
    }
    Ok(())
}

#[tactic(auto, unfolding(crate::specs::Names::arrays_from))]
fn add_arrays(entries: &mut IndexMap<Text, Descr>, rows: &[ArrayRow]) -> Result<(), AllocError>
    ensures { OnOk result (entries.new.entries ≡ arrays_from 0 rows.now entries.old.entries) }
{
    let mut k = 0u32;
    for row in rows {
        entries.insert(row.name, Descr::Array(k))?;
        k = next_row(k)?;
    }
    Ok(())
}

#[tactic(auto, unfolding(crate::specs::Names::calls_from))]
fn add_calls(entries: &mut IndexMap<Text, Descr>, rows: &[CallRow]) -> Result<(), AllocError>
    ensures { OnOk result (entries.new.entries ≡ calls_from 0 rows.now entries.old.entries) }
{
    let mut k = 0u32;
    for row in rows {
        entries.insert(row.name, Descr::Call(k))?;
        k = next_row(k)?;
    }
    Ok(())
}

impl Lexicon {
    /// The names of a table's rows.
    pub fn of(alloc: Global, table: &Table) -> Result<Lexicon, AllocError>
        ensures { IfOk result (λ l. l ≡ names_of table.now) }
    {
        let mut classes = IndexMap::new(alloc);
        add_vtables(&mut classes, table.sizes.items())?;
        add_functions(&mut classes, table.functions.items())?;
        let mut prebuilts = IndexMap::new(alloc);
        add_prebuilts(&mut prebuilts, table.prebuilts.items())?;
        let mut descrs = IndexMap::new(alloc);
        add_sizes(&mut descrs, table.sizes.items())?;
        add_fields(&mut descrs, table.fields.items())?;
        add_arrays(&mut descrs, table.arrays.items())?;
        add_calls(&mut descrs, table.calls.items())?;
        Ok(Lexicon {
            classes,
            prebuilts,
            descrs,
        })
    }

    /// The size with this vtable, or the function of this name.
    pub fn class_named(&self, name: &Text) -> Option<Arg>
        ensures { result ≡ look name.now self.now.classes }
    {
        self.classes.get(name).copied()
    }

    /// The prebuilt object of this name.
    pub fn object_named(&self, name: &Text) -> Option<Arg>
        ensures { result ≡ look name.now self.now.prebuilts }
    {
        self.prebuilts.get(name).copied()
    }

    /// The size, field, array or call descr of this name.
    pub fn descr_named(&self, name: &Text) -> Option<Descr>
        ensures { result ≡ look name.now self.now.descrs }
    {
        self.descrs.get(name).copied()
    }
}
