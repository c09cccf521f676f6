//! Entries that know nothing but where values are.
ghost use Rattle.std.specs.Prelude.{◌≡◌, [], IfOk, map};
ghost use Rattle.opt_meaning.specs.Admits.{plain_entry};
ghost use Rattle.opt_pass.specs.Starting.{known_box};

use std::alloc::{AllocError, Global};
use trace_ops::{Arg, BoxId, Entry, List, Val};

fn known_boxes(alloc: Global, boxes: &[BoxId]) -> Result<List<Val>, AllocError>
    ensures { IfOk result (λ r. r ≡ map known_box boxes.now) }
{
    let mut out = Vec::new(alloc);
    for b in boxes {
        out.push(Val::Known(Arg::Of(*b)))?;
    }
    Ok(List::of(out))
}

/// The entry in which each input is the label's box.
pub fn plain(alloc: Global, boxes: &[BoxId]) -> Result<Entry, AllocError>
    ensures { IfOk result (λ r. r ≡ plain_entry boxes.now) }
{
    let values = known_boxes(alloc, boxes)?;
    let label = List::of(Vec::from_slice(alloc, boxes)?);
    Ok(Entry {
        label,
        values,
        shapes: List::of(Vec::new(alloc)),
        pending: List::of(Vec::new(alloc)),
        facts: List::of(Vec::new(alloc)),
    })
}

/// The entry that knows nothing and has no boxes.
pub fn unknown(alloc: Global) -> Entry
    ensures { result ≡ plain_entry [] }
{
    Entry {
        label: List::of(Vec::new(alloc)),
        values: List::of(Vec::new(alloc)),
        shapes: List::of(Vec::new(alloc)),
        pending: List::of(Vec::new(alloc)),
        facts: List::of(Vec::new(alloc)),
    }
}
