ghost use Rattle.std.specs.Prelude.{◌≡◌, ◌∷◌, [], length, MatchOption, OnOk};

use asset_names::AssetId;
use sdf_specs::SubLayer;
use sdf_values::LayerOffset;
use std::alloc::{AllocError, Global};
use std::marker::Model;

/// A layer on the chain, with its sublayers that were not visited yet.
#[derive(Drop)]
pub struct Frame<'w> {
    /// The layer.
    pub layer: AssetId,
    /// How its times become those of the stack.
    pub offset: LayerOffset,
    /// Its sublayers that were not visited yet, in their order.
    pub rest: &'w [SubLayer],
}

impl<'w> Model for Frame<'w> {
    ghost use Rattle.layer_stack.specs.Visiting.{OpenLayer};

    ghost Value = { OpenLayer };

    ghost view = { λ f. record { layer = f.layer; offset = f.offset; rest = f.rest.now } };
}

/// The layers on the chain. Contracts see the innermost one first.
#[derive(Drop)]
pub struct Frames<'w> {
    frames: Vec<Frame<'w>>,
}

impl<'w> Model for Frames<'w> {
    ghost use Rattle.std.specs.Prelude.{List, reverse};
    ghost use Rattle.layer_stack.specs.Visiting.{OpenLayer};

    ghost Value = { List OpenLayer };

    ghost view = { λ f. reverse f.frames.items };
}

impl<'w> Frames<'w> {
    /// No layers. Takes no memory.
    pub fn new(alloc: Global) -> Frames<'w>
        ensures { result ≡ [] }
    {
        Frames {
            frames: Vec::new(alloc),
        }
    }

    /// How many layers there are.
    pub fn len(&self) -> usize
        ensures { result ≡ length self.now }
    {
        self.frames.len()
    }

    /// Puts a layer below the others.
    pub fn push(&mut self, frame: Frame<'w>) -> Result<(), AllocError>
        ensures { OnOk result (self.new ≡ frame.entry ∷ self.old) }
    {
        self.frames.push(frame)?;
        Ok(())
    }

    /// Takes the innermost layer out.
    pub fn pop(&mut self) -> Option<Frame<'w>>
        ensures { MatchOption result ((self.old ≡ []) × (self.new ≡ [])) (λ f. self.old ≡ f ∷ self.new) }
    {
        self.frames.pop()
    }
}
