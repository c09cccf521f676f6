//! The boxes that are defined so far.
ghost use Rattle.std.specs.Prelude.{◌≡◌, ◌++◌, ◌∷◌, [], true, false, IfOk, OnOk, MatchOption};
ghost use Rattle.std.specs.Option.{option_to_list};
ghost use Rattle.trace_check.specs.Boxes.{knows, knows_arg, knows_args, knows_frames, knows_all, lacks, repeats};

use indexmap::IndexSet;
use std::alloc::{AllocError, Global};
use std::marker::Model;
use trace_ops::{Arg, BoxId, Frame, Op};

/// Distinct boxes, in the order in which they were defined.
#[derive(Drop)]
pub(crate) struct Boxes {
    kept: IndexSet<BoxId>,
}

impl Model for Boxes {
    ghost use Rattle.std.specs.Prelude.{List};
    ghost use Rattle.trace_ops.specs.declared.trace.BoxId.{BoxId};

    ghost Value = { List BoxId };

    ghost view = { λ b. b.kept.keys };
}

impl Boxes {
    pub fn new(alloc: Global) -> Boxes
        ensures { result ≡ [] }
    {
        Boxes {
            kept: IndexSet::new(alloc),
        }
    }

    pub fn knows(&self, b: BoxId) -> bool
        ensures { result ≡ knows self.now b }
    {
        self.kept.contains(&b)
    }

    /// Adds a box that isn't there.
    pub fn add(&mut self, b: BoxId) -> Result<(), AllocError>
        requires { knows self.old b ≡ false }
        ensures { OnOk result (self.new ≡ self.old ++ b ∷ []) }
    {
        self.kept.insert(b)?;
        Ok(())
    }

    fn knows_arg(&self, a: Arg) -> bool
        ensures { result ≡ knows_arg self.now a }
    {
        match a {
            Arg::Of(b) => self.knows(b),
            _ => true,
        }
    }

    fn knows_args(&self, args: &[Arg]) -> bool
        ensures { result ≡ knows_args self.now args.now }
    {
        args.iter().all(|a| self.knows_arg(*a))
    }

    fn knows_frames(&self, frames: &[Frame]) -> bool
        ensures { result ≡ knows_frames self.now frames.now }
    {
        frames
            .iter()
            .all(|frame| self.knows_args(frame.slots.items()))
    }

    /// Whether each box of the operation is known.
    pub fn knows_all(&self, op: &Op) -> bool
        ensures { result ≡ knows_all self.now op.now }
    {
        self.knows_args(op.args.items()) && self.knows_frames(op.snapshot.items())
    }

    /// Whether a result is no known box.
    pub fn lacks(&self, made: Option<BoxId>) -> bool
        ensures { result ≡ lacks self.now made }
    {
        match made {
            None => true,
            Some(b) => !self.knows(b),
        }
    }

    /// Adds a result that isn't there.
    pub fn add_result(&mut self, made: Option<BoxId>) -> Result<(), AllocError>
        requires { lacks self.old made ≡ true }
        ensures { OnOk result (self.new ≡ self.old ++ option_to_list made) }
    {
        match made {
            None => Ok(()),
            Some(b) => self.add(b),
        }
    }

    /// Adds the boxes, if none of them repeats: whether one does.
    #[tactic(auto, unfolding(crate::specs::Boxes::repeats))]
    pub fn add_all(&mut self, boxes: &[BoxId]) -> Result<bool, AllocError>
        ensures value { IfOk result (λ b. b ≡ repeats self.old boxes.now) }
        ensures added { OnOk result (repeats self.old boxes.now ≡ false → self.new ≡ self.old ++ boxes.now) }
    {
        for b in boxes {
            if self.knows(*b) {
                return Ok(true);
            }
            self.add(*b)?;
        }
        Ok(false)
    }

    /// The boxes, unless one repeats.
    pub fn of_inputs(alloc: Global, boxes: &[BoxId]) -> Result<Option<Boxes>, AllocError>
        ensures { IfOk result (λ o. MatchOption o (repeats [] boxes.now ≡ true) (λ b. (repeats [] boxes.now ≡ false) × (b ≡ boxes.now))) }
    {
        let mut seen = Boxes::new(alloc);
        if seen.add_all(boxes)? {
            return Ok(None);
        }
        Ok(Some(seen))
    }
}
