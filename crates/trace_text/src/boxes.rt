//! The boxes that are defined so far, found fast.

ghost use Rattle.std.specs.Prelude.{◌≡◌, [], OnOk};
ghost use Rattle.trace_ops.specs.Parts.{with_boxes};
ghost use Rattle.trace_text.specs.Boxes.{knows, noted};

use indexmap::IndexSet;
use std::alloc::{AllocError, Global};
use std::marker::Model;
use trace_ops::BoxId;

/// Distinct boxes in the order in which they were added.
#[derive(Drop)]
pub struct Boxes {
    kept: IndexSet<BoxId>,
}

impl Model for Boxes {
    ghost use Rattle.std.specs.Prelude.{List};
    ghost use Rattle.trace_ops.specs.declared.trace.BoxId.{BoxId};

    ghost Value = { List BoxId };

    ghost view = { λ n. n.kept.keys };
}

impl Boxes {
    /// No boxes.
    pub fn new(alloc: Global) -> Boxes
        ensures { result ≡ [] }
    {
        Boxes {
            kept: IndexSet::new(alloc),
        }
    }

    /// Whether the box is there.
    pub fn knows(&self, of: &BoxId) -> bool
        ensures { result ≡ knows self.now of.now }
    {
        self.kept.contains(of)
    }

    #[tactic(auto, unfolding(trace_ops::specs::Parts::with_boxes))]
    fn insert(&mut self, of: &BoxId) -> Result<(), AllocError>
        ensures { OnOk result (self.new ≡ noted self.old (Some of.now)) }
    {
        self.kept.insert(*of)?;
        Ok(())
    }

    /// Adds the result of an operation, unless it is there.
    pub fn note(&mut self, made: &Option<BoxId>) -> Result<(), AllocError>
        ensures { OnOk result (self.new ≡ noted self.old made.now) }
    {
        match made {
            None => Ok(()),
            Some(of) => self.insert(of),
        }
    }

    /// Adds the boxes that are not there.
    #[tactic(auto, unfolding(trace_ops::specs::Parts::with_boxes))]
    pub fn note_all(&mut self, boxes: &[BoxId]) -> Result<(), AllocError>
        ensures { OnOk result (self.new ≡ with_boxes self.old boxes.now) }
    {
        for of in boxes {
            self.insert(of)?;
        }
        Ok(())
    }
}
