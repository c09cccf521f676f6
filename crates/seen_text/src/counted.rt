//! Writes what was counted.
ghost use Rattle.std.specs.Prelude.{◌≡◌, ◌++◌, OnOk};
ghost use Rattle.seen_text.specs.Counted.{costs_text, counts_text, starred_text};

use crate::puts::put_told;
use opt_meaning::Counts;
use std::alloc::AllocError;

#[tactic(auto, unfolding(crate::specs::Counted::costs_text))]
fn put_costs(out: &mut Vec<u8>, counts: Counts) -> Result<(), AllocError>
    ensures { OnOk result (out.new.items ≡ out.old.items ++ costs_text counts) }
{
    put_told(out, b" instructions ", counts.bytes)?;
    put_told(out, b" bytes ", counts.loads)?;
    put_told(out, b" loads ", counts.stores)?;
    out.extend_from_slice(b" stores\n")?;
    Ok(())
}

/// Adds how many instructions, bytes, loads and stores were counted.
#[tactic(auto, unfolding(crate::specs::Counted::counts_text))]
pub fn put_counts(out: &mut Vec<u8>, counts: Counts) -> Result<(), AllocError>
    ensures { OnOk result (out.new.items ≡ out.old.items ++ counts_text counts) }
{
    put_told(out, b"counts ", counts.instructions)?;
    put_costs(out, counts)
}

/// Adds the same with `*` for the number of instructions, which depends on the code that was chosen.
#[tactic(auto, unfolding(crate::specs::Counted::starred_text))]
pub fn put_starred_counts(out: &mut Vec<u8>, counts: Counts) -> Result<(), AllocError>
    ensures { OnOk result (out.new.items ≡ out.old.items ++ starred_text counts) }
{
    out.extend_from_slice(b"counts *")?;
    put_costs(out, counts)
}
