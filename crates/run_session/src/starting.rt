// Whether a start fits, and how it begins.

ghost use Rattle.std.specs.Prelude.{◌≡◌, ◌↔◌, ◌≤◌, [], IsTrue, IfOk, OnOk, length, map};
ghost use Rattle.std.specs.List.{All, Contains};
ghost use Rattle.trace_ops.specs.declared.trace.Origin.TheVariants.{Loop as IsLoop};
ghost use Rattle.trace_ops.specs.InRange.{IsInRange, IsTableInRange};
ghost use Rattle.trace_meaning.specs.Sound.{HasWord};
ghost use Rattle.trace_meaning.specs.Starting.{Starts};
ghost use Rattle.arena_world.specs.Prebuilt.{IsHostOf};
ghost use Rattle.bridge_patch.specs.Image.{entry_in};
ghost use Rattle.opt_meaning.specs.Pieces.{all_pieces, preamble};
ghost use Rattle.session_host.specs.Hosting.{IsStarted};
ghost use Rattle.bridge_patch.specs.declared.image.PieceHere.{PieceHere as OneHere};
ghost use Rattle.resume_numbering.specs.Lawful.{IsLawful};
ghost use Rattle.resume_numbering.specs.declared.rows.ResumeTable.{ResumeTable as OneTable};
ghost use Rattle.resume_rebuild.specs.Reserved.{IsReserved};
ghost use Rattle.run_session.specs.Beginning.{Begins, HaveRoom, input_by};
ghost use Rattle.run_session.specs.Fitting.{fits_kind, fit_each};
ghost use Rattle.run_session.specs.Keeping.{IsServed, IsArenaSize, AreReserved};

use crate::active::Active;
use crate::log::Log;
use crate::now::Now;
use arena_world::{Host, first_words};
use bridge_patch::Image;
use resume_rebuild::Rebuilt;
use std::alloc::{AllocError, Global};
use trace_meaning::{Answer, Value};
use trace_ops::{BoxId, Kind, OptTrace, Origin, Piece, Table, TraceSet, Word};
use x64_machine::Machine;

// Whether an input is an integer, null or a prebuilt object of a kind.
fn fits_box(table: &Table, of: BoxId, input: Value) -> bool
    ensures { result ≡ fits_kind table.now of.kind input }
{
    match (of.kind, input) {
        (Kind::Int, Value::Int(_)) => true,
        (Kind::Ref, Value::Null) => true,
        (Kind::Ref, Value::Obj(k)) => (k as usize) < table.prebuilts.items().len(),
        _ => false,
    }
}

// Whether there is such an input for each box.
fn fit_boxes(table: &Table, boxes: &[BoxId], inputs: &[Value]) -> bool
    ensures { result ≡ fit_each table.now boxes.now inputs.now }
{
    if boxes.len() != inputs.len() {
        return false;
    }
    for k in 0..boxes.len() {
        if !fits_box(table, boxes[k], inputs[k]) {
            return false;
        }
    }
    true
}

fn is_loop(origin: &Origin) -> bool
    ensures { IsTrue result ↔ (origin.now ≡ IsLoop) }
{
    match origin {
        Origin::Loop => true,
        Origin::Bridge { .. } => false,
    }
}

/// Whether a trace is a loop whose inputs these are.
pub(crate) fn fits_loop(set: &TraceSet, trace: u32, inputs: &[Value]) -> bool
    ensures { IsTrue result ↔ Starts set.now trace inputs.now }
{
    match set.traces.items().get(trace as usize) {
        None => false,
        Some(one) => { is_loop(&one.origin) && fit_boxes(&set.table, one.inputs.items(), inputs) }
    }
}

fn input_word(host: &Host, input: Value) -> Word
    ensures value { result ≡ input_by host.now input }
    ensures word { HasWord input }
{
    match input {
        Value::Int(word) => word,
        Value::Null => 0,
        Value::Obj(k) => host.prebuilt(k),
    }
}

fn input_words(alloc: Global, host: &Host, inputs: &[Value]) -> Result<Vec<Word>, AllocError>
    ensures words { IfOk result (λ ws. ws.items ≡ map (input_by host.now) inputs.now) }
    ensures are { IfOk result (λ ws. All HasWord inputs.now) }
{
    let mut words = Vec::with_capacity(alloc, inputs.len())?;
    for input in inputs {
        words.push(input_word(host, *input))?;
    }
    Ok(words)
}

// Room for what each guard of the pieces rebuilds, as far as these are in the image.
fn reserve_for(image: &Image, pieces: &[Piece], rebuilt: &mut Rebuilt) -> Result<(), AllocError>
    requires lawful { (here : OneHere) → Contains image.now.pieces here → IsLawful here.table }
    requires once { (a b : OneHere) → Contains image.now.pieces a → Contains image.now.pieces b → a.id ≡ b.id → a ≡ b }
    ensures frames { OnOk result (rebuilt.old.frames ≡ [] → rebuilt.new.frames ≡ []) }
    ensures room { OnOk result (HaveRoom (length pieces.now) image.now.pieces pieces.now rebuilt.new) }
    ensures others { OnOk result ((table : OneTable) → IsReserved table rebuilt.old → IsReserved table rebuilt.new) }
    ensures table { rebuilt.new.table ≡ rebuilt.old.table }
{
    for piece in pieces {
        if let Some(resume) = image.resume(piece.id) {
            rebuilt.reserve(resume)?;
        }
    }
    Ok(())
}

// The same of the pieces of all traces.
fn room_for(
    alloc: Global,
    table: &Table,
    opt: &[OptTrace],
    image: &Image,
) -> Result<Rebuilt, AllocError>
    requires { IsServed table.now (all_pieces opt.now) image.now }
    ensures room { IfOk result (λ r. AreReserved image.now.pieces r) }
    ensures table { IfOk result (λ r. r.table ≡ table.now) }
    ensures frames { IfOk result (λ r. r.frames ≡ []) }
{
    let mut rebuilt = Rebuilt::new(alloc)?;
    rebuilt.adopt(table)?;
    for one in opt {
        reserve_for(image, one.pieces.items(), &mut rebuilt)?;
    }
    Ok(rebuilt)
}

// The attached bridges, seen from failure 0 on, with room for all bridges of a set.
fn first_cuts(alloc: Global, attached: &[u32], most: usize) -> Result<Vec<(u32, u64)>, AllocError>
    ensures { IfOk result (λ cuts. cuts.items ≡ map (λ b. (b, 0)) attached.now) }
{
    let mut cuts = Vec::with_capacity(alloc, most)?;
    for bridge in attached {
        cuts.push((*bridge, 0))?;
    }
    Ok(cuts)
}

/// What a session has beside its activations.
#[derive(Clone, Copy)]
pub(crate) struct Setting<'a> {
    pub(crate) set: &'a TraceSet,
    pub(crate) opt: &'a [OptTrace],
    pub(crate) image: &'a Image,
    pub(crate) host: &'a Host,
    pub(crate) arena_bytes: u64,
}

impl<'a> Setting<'a> {
    // A machine at a loop's entry, with the words of the inputs.
    fn machine(&self, alloc: Global, trace: u32, inputs: &[Value]) -> Result<Machine, AllocError>
        requires range { IsInRange self.now.set.now }
        requires fits { Starts self.now.set.now trace inputs.now }
        requires host { IsHostOf self.now.set.now.table self.now.host.now }
        requires size { IsArenaSize self.now.arena_bytes }
        ensures { IfOk result (λ m. IsStarted self.now.set.now self.now.arena_bytes trace (entry_in self.now.image.now.pieces (preamble trace)) inputs.now m) }
    {
        let prebuilt = first_words(alloc, &self.set.table, self.host)?;
        let words = input_words(alloc, self.host, inputs)?;
        let entry = self.image.entry(trace);
        Machine::start(alloc, self.arena_bytes, &prebuilt, entry, &words)
    }

    /// An activation of a loop at its start.
    pub(crate) fn begin(
        &self,
        alloc: Global,
        trace: u32,
        inputs: Vec<Value>,
        answers: Vec<Answer>,
    ) -> Result<Active, AllocError>
        requires range { IsInRange self.now.set.now }
        requires fits { Starts self.now.set.now trace inputs.items }
        requires host { IsHostOf self.now.set.now.table self.now.host.now }
        requires size { IsArenaSize self.now.arena_bytes }
        requires served { IsServed self.now.set.now.table (all_pieces self.now.opt.now) self.now.image.now }
        requires few { length answers.items ≤ 4096 }
        ensures { IfOk result (λ a. Begins self.now.set.now self.now.image.now self.now.arena_bytes trace inputs.items answers.items a) }
    {
        let table = &self.set.table;
        let machine = self.machine(alloc, trace, &inputs)?;
        let first_taken = machine.arena().taken();
        let most = self.set.traces.items().len();
        Ok(Active {
            trace,
            inputs,
            machine,
            log: Log::new(alloc, table, answers)?,
            failures: 0,
            cuts: first_cuts(alloc, self.image.attached(), most)?,
            stands: Now::Going,
            rebuilt: room_for(alloc, table, self.opt, self.image)?,
            first_taken,
            last_taken: None,
        })
    }
}
