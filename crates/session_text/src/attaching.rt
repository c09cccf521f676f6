//! The session of an input that has none: every bridge is attached.
ghost use Rattle.std.specs.Prelude.{◌≡◌, ◌<◌, ◌≤◌, ◌^◌, length, map, position, slice_get, IfOk, IfSome};
ghost use Rattle.trace_ops.specs.Weights.{place_of, parent_named};
ghost use Rattle.session_text.specs.Attaching.{row_of, rows_of, is_there, parent_is_there, can_attach, first_bridge, is_loop, with_bridge, in_turn, session_of_all};
ghost use Rattle.session_text.specs.declared.session.Line.TheVariants as line;
ghost use Rattle.session_text.specs.Fits.{FitsSet};

use crate::session::{Line, SessionText};
use std::alloc::{AllocError, Global};
use trace_ops::{List, Origin, Text, Trace, TraceSet};

/// What a trace waits for: the place of the trace from whose guard it comes, none for a loop, and whether it is there.
#[derive(Clone, Copy, Debug, PartialEq, Eq)]
pub struct Row {
    pub parent: Option<usize>,
    pub is_there: bool,
}

fn place_of(traces: &[Trace], name: Text) -> Option<usize>
    ensures { result ≡ place_of name traces.now }
{
    traces.iter().position(|t| t.name.is(name.bytes()))
}

fn parent_named(traces: &[Trace], origin: &Origin) -> Option<usize>
    ensures { result ≡ parent_named traces.now origin.now }
{
    match origin {
        Origin::Loop => None,
        Origin::Bridge { parent, guard: _ } => place_of(traces, *parent),
    }
}

fn is_loop(origin: &Origin) -> bool
    ensures { result ≡ is_loop origin.now }
{
    match origin {
        Origin::Loop => true,
        Origin::Bridge { .. } => false,
    }
}

// Loops are there.
fn row_of(traces: &[Trace], trace: &Trace) -> Row
    ensures { result ≡ row_of traces.now trace.now }
{
    Row {
        parent: parent_named(traces, &trace.origin),
        is_there: is_loop(&trace.origin),
    }
}

fn rows_of(alloc: Global, traces: &[Trace]) -> Result<Vec<Row>, AllocError>
    ensures { IfOk result (λ rows. rows.items ≡ map (row_of traces.now) traces.now) }
{
    let mut rows = Vec::new(alloc);
    for trace in traces {
        rows.push(row_of(traces, trace))?;
    }
    Ok(rows)
}

fn is_there(rows: &[Row], place: usize) -> bool
    ensures { result ≡ is_there (slice_get rows.now place) }
{
    match rows.get(place) {
        None => false,
        Some(row) => row.is_there,
    }
}

fn parent_is_there(rows: &[Row], parent: Option<usize>) -> bool
    ensures { result ≡ parent_is_there rows.now parent }
{
    match parent {
        None => false,
        Some(place) => is_there(rows, place),
    }
}

fn can_attach(rows: &[Row], row: Row) -> bool
    ensures { result ≡ can_attach rows.now row }
{
    !row.is_there && parent_is_there(rows, row.parent)
}

fn first_bridge(rows: &[Row]) -> Option<usize>
    ensures value { result ≡ first_bridge rows.now }
    ensures within { IfSome result (λ k. k < length rows.now) }
{
    rows.iter().position(|row| can_attach(rows, *row))
}

// Each time the first bridge that can be attached.
fn bridges_in_turn(alloc: Global, mut rows: Vec<Row>) -> Result<Vec<u32>, AllocError>
    requires { length rows.items < 2 ^ 32 }
    ensures { IfOk result (λ bridges. bridges.items ≡ in_turn (length rows.items) rows.items) }
{
    let mut bridges = Vec::new(alloc);
    for _ in 0..rows.len() {
        let Some(bridge) = first_bridge(&rows) else {
            return Ok(bridges);
        };
        rows[bridge].is_there = true;
        bridges.push(bridge as u32)?;
    }
    Ok(bridges)
}

fn attachments(alloc: Global, bridges: &[u32]) -> Result<Vec<Line>, AllocError>
    ensures { IfOk result (λ lines. lines.items ≡ map line.Attach bridges.now) }
{
    let mut lines = Vec::new(alloc);
    for bridge in bridges {
        lines.push(Line::Attach { bridge: *bridge })?;
    }
    Ok(lines)
}

fn all_attached(alloc: Global, set: &TraceSet) -> Result<SessionText, AllocError>
    requires { length set.now.traces ≤ 256 }
    ensures { IfOk result (λ session. session ≡ session_of_all set.now) }
{
    let bridges = bridges_in_turn(alloc, rows_of(alloc, set.traces.items())?)?;
    Ok(SessionText {
        lines: List::of(attachments(alloc, bridges.as_slice())?),
        names: List::of(Vec::new(alloc)),
    })
}

/// The session of an input without one: each time it attaches the first bridge that isn't attached yet and whose parent
/// is a loop or an attached bridge.
pub fn session_of_all(alloc: Global, set: &TraceSet) -> Result<SessionText, AllocError>
    requires { length set.now.traces ≤ 256 }
    ensures value { IfOk result (λ session. session ≡ session_of_all set.now) }
    ensures fits { IfOk result (FitsSet set.now) }
{
    all_attached(alloc, set)
}
