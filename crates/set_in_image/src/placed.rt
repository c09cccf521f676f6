//! The optimised pieces of a set, with the image in which they stand.
ghost use Rattle.std.specs.Prelude.{◌≡◌, ◌≤◌, [], List, OnOk, OnErr, IfOk, IfErr};
ghost use Rattle.std.specs.List.{All, AllByRecursion};
ghost use Rattle.trace_ops.specs.declared.piece.Piece.{Piece};
ghost use Rattle.opt_meaning.specs.Pieces.{all_pieces};
ghost use Rattle.opt_meaning.specs.Worded.{OpHasWords};
ghost use Rattle.bridge_patch.specs.Pieces.{Placed};
ghost use Rattle.bridge_patch.specs.Image.{IsImage};
ghost use Rattle.bridge_patch.specs.Attached.{IsImageOf, AreOfBridge, CanAttach, IsChanged, IsGrown};
ghost use Rattle.loop_peel.specs.Peeling.{IsBridge};
ghost use Rattle.opt_set.specs.Optimised.{IsOptimised, with_bridge};
ghost use Rattle.opt_set.specs.Attaching.{IsGranted};
ghost use Rattle.opt_set.specs.Causes.{HasCause};
ghost use Rattle.set_in_image.specs.Placing.{HasNoStep, IsPlaced, IsReady, IsAttached};

use crate::laws::{attached_can_attach, loops_can_compile};
use crate::words::{constants_are_words, pieces_have_words};
use bridge_patch::Image;
use loop_peel::Peeled;
use opt_set::{AttachFault, OptimisedSet};
use std::alloc::{AllocError, Global};
use std::marker::Model;
use trace_check::Checked;
use trace_ops::{OptTrace, TraceSet};

/// A set with its optimised pieces, those of its loops and of the bridges that were attached so far, and the image in which
/// they stand.
#[derive(Drop)]
pub struct PlacedSet {
    checked: Checked,
    optimised: OptimisedSet,
    image: Image,
}

impl Model for PlacedSet {
    ghost use Rattle.set_in_image.specs.Placing.{Placing, IsPlaced};

    ghost Value = { Placing };

    ghost view = { λ p. record { set = p.checked; optimised = p.optimised; image = p.image } };

    ghost invariant = { λ p. IsPlaced p.checked p.optimised p.image };
}

// Attaches the pieces of a bridge that may be attached, where their constants are words, to the image.
fn grow(image: &mut Image, set: &TraceSet, bridge: u32, opt: &OptTrace) -> Result<(), AllocError>
    requires { AllByRecursion (λ (p : Piece). All OpHasWords p.ops) opt.now.pieces → CanAttach set.now image.old bridge opt.now.pieces }
    ensures words { AllByRecursion (λ (p : Piece). All OpHasWords p.ops) opt.now.pieces }
    ensures changed { OnOk result (IsChanged set.now bridge opt.now.pieces image.old image.new) }
    ensures placed { OnOk result ((placed : List Placed) → IsImageOf set.now placed image.old → AreOfBridge set.now placed bridge opt.now.pieces → IsGrown set.now bridge opt.now.pieces placed image.old image.new) }
    ensures err { OnErr result (image.new ≡ image.old) }
{
    pieces_have_words(opt.pieces.items());
    image.attach(set, bridge, opt)
}

impl PlacedSet {
    /// Compiles the optimised loops of a set, to which no bridge is attached yet: the image of their pieces, with boxes in the
    /// first `registers` registers for values and in frame words.
    pub fn compile(
        alloc: Global,
        checked: Checked,
        optimised: OptimisedSet,
        registers: u8,
    ) -> Result<PlacedSet, AllocError>
        requires pieces { IsOptimised checked optimised }
        requires loops { optimised.attached ≡ [] }
        requires least { 3 ≤ registers }
        requires most { registers ≤ 12 }
        ensures set { IfOk result (λ p. p.set ≡ checked) }
        ensures optimised { IfOk result (λ p. p.optimised ≡ optimised) }
        ensures image { IfOk result (λ p. (z : IsImage checked (all_pieces optimised.traces) p.image) × IsImageOf checked z.placed p.image) }
        ensures history { IfOk result (λ p. HasNoStep p) }
        ensures registers { IfOk result (λ p. p.image.registers ≡ registers) }
        ensures changes { IfOk result (λ p. p.image.changes ≡ []) }
    {
        loops_can_compile();
        constants_are_words(optimised.traces());
        let image = Image::compile(alloc, checked.set(), optimised.traces(), registers)?;
        Ok(PlacedSet {
            checked,
            optimised,
            image,
        })
    }

    /// The pieces of a bridge, made from what is known where its guard fails. Nothing is attached yet, so that who needs memory
    /// for them may take it before [`PlacedSet::place`].
    ///
    /// # Errors
    /// Those of [`PlacedSet::attach`].
    pub fn pieces_of(&self, alloc: Global, bridge: u32) -> Result<Peeled, AttachFault>
        requires { IsBridge self.now.set bridge }
        ensures ready { IfOk result (λ made. IsReady bridge made self.now) }
        ensures granted { IfOk result (λ made. IsGranted self.now.set self.now.optimised.attached bridge) }
        ensures cause { IfErr result (λ e. HasCause self.now.set self.now.optimised.attached bridge e) }
    {
        self.optimised.pieces_of(alloc, &self.checked, bridge)
    }

    /// Attaches the pieces that were made for a bridge, to the set and to the image. Where memory is refused, both are as they
    /// were.
    pub fn place(&mut self, bridge: u32, made: Peeled) -> Result<(), AllocError>
        requires { IsReady bridge made self.old }
        ensures attached { OnOk result (IsAttached bridge self.old self.new) }
        ensures pieces { OnOk result (self.new.optimised ≡ with_bridge self.old.optimised bridge made.opt made.at_guards) }
        ensures kept { OnErr result (self.new ≡ self.old) }
    {
        attached_can_attach();
        self.optimised.add_bridge(bridge, made)?;
        let traces = self.optimised.traces();
        let opt = &traces[traces.len() - 1];
        match grow(&mut self.image, self.checked.set(), bridge, opt) {
            Ok(()) => Ok(()),
            Err(error) => {
                self.optimised.take_back();
                Err(error)
            }
        }
    }

    /// Attaches a bridge: its pieces are made from what is known where its guard fails, and attached to the image.
    ///
    /// # Errors
    /// `Already` exactly where the bridge is attached; `NoParent` exactly where it isn't, and its guard's trace is a bridge that
    /// isn't attached; or want of memory. Each leaves the pieces and the image as they were.
    pub fn attach(&mut self, alloc: Global, bridge: u32) -> Result<(), AttachFault>
        requires { IsBridge self.old.set bridge }
        ensures attached { OnOk result (IsAttached bridge self.old self.new) }
        ensures granted { OnOk result (IsGranted self.old.set self.old.optimised.attached bridge) }
        ensures cause { IfErr result (λ e. HasCause self.old.set self.old.optimised.attached bridge e) }
        ensures kept { OnErr result (self.new ≡ self.old) }
    {
        let made = self.pieces_of(alloc, bridge)?;
        match self.place(bridge, made) {
            Ok(()) => Ok(()),
            Err(_) => Err(AttachFault::OutOfMemory),
        }
    }

    /// The set, as it was checked.
    pub fn checked(&self) -> &Checked
        ensures { result.now ≡ self.now.set }
    {
        &self.checked
    }

    /// The pieces of the loops, in order, and then of the attached bridges.
    pub fn optimised(&self) -> &OptimisedSet
        ensures { result.now ≡ self.now.optimised }
    {
        &self.optimised
    }

    /// The image in which they stand.
    pub fn image(&self) -> &Image
        ensures { result.now ≡ self.now.image }
    {
        &self.image
    }

    /// They stand there: the loops were compiled, and then each bridge attached, in order.
    pub fn stands(&self)
        ensures { IsPlaced self.now.set self.now.optimised self.now.image }
    {
        let _ = &self.image;
    }
}
