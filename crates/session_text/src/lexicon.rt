//! The names that the lines of a session may cite, with what each stands for.

ghost use Rattle.std.specs.Prelude.{◌≡◌, ◌+◌, [], map, IfOk, OnOk, Some};
ghost use Rattle.session_text.specs.Names.{Names, look, with_first, with_first_if, firsts_from, loop_name, bridge_name, names_of};

use indexmap::IndexMap;
use std::alloc::{AllocError, Global};
use std::marker::Model;
use trace_ops::{FieldRow, Origin, PrebuiltRow, SizeRow, Text, Trace, TraceSet};

/// The first trace or row of each name.
#[derive(Drop)]
pub struct Lexicon {
    loops: IndexMap<Text, u32>,
    bridges: IndexMap<Text, u32>,
    prebuilts: IndexMap<Text, u32>,
    sizes: IndexMap<Text, u32>,
    fields: IndexMap<Text, u32>,
}

impl Model for Lexicon {
    ghost use Rattle.session_text.specs.Names.{Names};

    ghost Value = { Names };

    ghost view = { λ l. record { loops = l.loops.entries; bridges = l.bridges.entries; prebuilts = l.prebuilts.entries; sizes = l.sizes.entries; fields = l.fields.entries } };
}

fn loop_name(trace: &Trace) -> Option<Text>
    ensures { result ≡ loop_name trace.now }
{
    match trace.origin {
        Origin::Loop => Some(trace.name),
        Origin::Bridge { .. } => None,
    }
}

fn bridge_name(trace: &Trace) -> Option<Text>
    ensures { result ≡ bridge_name trace.now }
{
    match trace.origin {
        Origin::Loop => None,
        Origin::Bridge { .. } => Some(trace.name),
    }
}

// Rows past the numbers of 32 bits can't be cited.
fn next_row(row: u32) -> Result<u32, AllocError>
    ensures { IfOk result (λ n. n ≡ row + 1) }
{
    match row.checked_add(1) {
        None => Err(AllocError),
        Some(next) => Ok(next),
    }
}

fn add_first(entries: &mut IndexMap<Text, u32>, name: Text, row: u32) -> Result<(), AllocError>
    ensures { OnOk result (entries.new.entries ≡ with_first name row entries.old.entries) }
{
    if entries.get(&name).copied().is_some() {
        return Ok(());
    }
    entries.insert(name, row)?;
    Ok(())
}

fn add_if(entries: &mut IndexMap<Text, u32>, name: Option<Text>, row: u32) -> Result<(), AllocError>
    ensures { OnOk result (entries.new.entries ≡ with_first_if name row entries.old.entries) }
{
    match name {
        None => Ok(()),
        Some(name) => add_first(entries, name, row),
    }
}

#[tactic(auto, unfolding(crate::specs::Names::firsts_from))]
fn add_loops(entries: &mut IndexMap<Text, u32>, traces: &[Trace]) -> Result<(), AllocError>
    ensures { OnOk result (entries.new.entries ≡ firsts_from 0 (map loop_name traces.now) entries.old.entries) }
{
    let mut k = 0u32;
    for trace in traces {
        add_if(entries, loop_name(trace), k)?;
        k = next_row(k)?;
    }
    Ok(())
}

#[tactic(auto, unfolding(crate::specs::Names::firsts_from))]
fn add_bridges(entries: &mut IndexMap<Text, u32>, traces: &[Trace]) -> Result<(), AllocError>
    ensures { OnOk result (entries.new.entries ≡ firsts_from 0 (map bridge_name traces.now) entries.old.entries) }
{
    let mut k = 0u32;
    for trace in traces {
        add_if(entries, bridge_name(trace), k)?;
        k = next_row(k)?;
    }
    Ok(())
}

#[tactic(auto, unfolding(crate::specs::Names::firsts_from))]
fn add_prebuilts(entries: &mut IndexMap<Text, u32>, rows: &[PrebuiltRow]) -> Result<(), AllocError>
    ensures { OnOk result (entries.new.entries ≡ firsts_from 0 (map (λ r. Some r.name) rows.now) entries.old.entries) }
{
    let mut k = 0u32;
    for row in rows {
        add_first(entries, row.name, k)?;
        k = next_row(k)?;
    }
    Ok(())
}

#[tactic(auto, unfolding(crate::specs::Names::firsts_from))]
fn add_sizes(entries: &mut IndexMap<Text, u32>, rows: &[SizeRow]) -> Result<(), AllocError>
    ensures { OnOk result (entries.new.entries ≡ firsts_from 0 (map (λ r. Some r.name) rows.now) entries.old.entries) }
{
    let mut k = 0u32;
    for row in rows {
        add_first(entries, row.name, k)?;
        k = next_row(k)?;
    }
    Ok(())
}

#[tactic(auto, unfolding(crate::specs::Names::firsts_from))]
fn add_fields(entries: &mut IndexMap<Text, u32>, rows: &[FieldRow]) -> Result<(), AllocError>
    ensures { OnOk result (entries.new.entries ≡ firsts_from 0 (map (λ r. Some r.name) rows.now) entries.old.entries) }
{
    let mut k = 0u32;
    for row in rows {
        add_first(entries, row.name, k)?;
        k = next_row(k)?;
    }
    Ok(())
}

impl Lexicon {
    /// The names of a set.
    pub fn of(alloc: Global, set: &TraceSet) -> Result<Lexicon, AllocError>
        ensures { IfOk result (λ l. l ≡ names_of set.now) }
    {
        let mut loops = IndexMap::new(alloc);
        add_loops(&mut loops, set.traces.items())?;
        let mut bridges = IndexMap::new(alloc);
        add_bridges(&mut bridges, set.traces.items())?;
        let mut prebuilts = IndexMap::new(alloc);
        add_prebuilts(&mut prebuilts, set.table.prebuilts.items())?;
        let mut sizes = IndexMap::new(alloc);
        add_sizes(&mut sizes, set.table.sizes.items())?;
        let mut fields = IndexMap::new(alloc);
        add_fields(&mut fields, set.table.fields.items())?;
        Ok(Lexicon {
            loops,
            bridges,
            prebuilts,
            sizes,
            fields,
        })
    }

    /// The loop of this name.
    pub fn loop_named(&self, name: &Text) -> Option<u32>
        ensures { result ≡ look name.now self.now.loops }
    {
        self.loops.get(name).copied()
    }

    /// The bridge of this name.
    pub fn bridge_named(&self, name: &Text) -> Option<u32>
        ensures { result ≡ look name.now self.now.bridges }
    {
        self.bridges.get(name).copied()
    }

    /// The prebuilt object of this name.
    pub fn object_named(&self, name: &Text) -> Option<u32>
        ensures { result ≡ look name.now self.now.prebuilts }
    {
        self.prebuilts.get(name).copied()
    }

    /// The size of this name.
    pub fn size_named(&self, name: &Text) -> Option<u32>
        ensures { result ≡ look name.now self.now.sizes }
    {
        self.sizes.get(name).copied()
    }

    /// The field of this name, of whatever size.
    pub fn field_named(&self, name: &Text) -> Option<u32>
        ensures { result ≡ look name.now self.now.fields }
    {
        self.fields.get(name).copied()
    }
}
