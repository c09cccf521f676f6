//! Rebuilds from small resume tables, and prints the slots and the objects that there are then.
#![tactic(auto)]

ghost use Rattle.std.specs.Prelude.{◌≤◌, ◌^◌};

mod cases;
mod running;
mod simple;

use anyhow::Result;
use cases::{cycle, items, pending, table, words};
use running::show;
use trace_ops::Table;

// Two objects that lead to each other, in an arena of so many words.
fn show_cycle(rt: &HostRuntime, t: &Table, count: usize) -> Result<()>
    requires some { 3 ≤ count }
    requires few { count ≤ 2 ^ 21 }
{
    println!(rt; "cycle in {count} words")?;
    let table = cycle(rt.alloc())?;
    let words = words(rt.alloc(), count)?;
    show(rt, t, &table, words)
}

fn show_items(rt: &HostRuntime, t: &Table) -> Result<()> {
    println!(rt; "items")?;
    let table = items(rt.alloc())?;
    let words = words(rt.alloc(), 100)?;
    show(rt, t, &table, words)
}

fn show_pending(rt: &HostRuntime, t: &Table) -> Result<()> {
    println!(rt; "pending")?;
    let table = pending(rt.alloc())?;
    let words = words(rt.alloc(), 20)?;
    show(rt, t, &table, words)
}

fn main(rt: HostRuntime) -> Result<()> {
    let t = table(rt.alloc())?;
    show_cycle(&rt, &t, 20)?;
    show_items(&rt, &t)?;
    show_pending(&rt, &t)?;
    show_cycle(&rt, &t, 9)?;
    show_cycle(&rt, &t, 8)?;
    Ok(())
}
