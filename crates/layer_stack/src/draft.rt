ghost use Rattle.std.specs.Prelude.{◌≡◌, OnOk};
ghost use Rattle.composition.specs.Stacks.{nothing_listed, with_layer, with_fault, with_asked};

use asset_names::AssetId;
use plain_data::{Items, Text, copy};
use prim_view::{SublayerFault, SublayerReason};
use sdf_values::LayerOffset;
use std::alloc::{AllocError, Global};
use std::marker::Model;

/// A layer stack so far: its layers, the faults of sublayers, and the names that were asked, each as often as it was.
#[derive(Drop)]
pub struct StackDraft {
    layers: Items<(AssetId, LayerOffset)>,
    faults: Items<SublayerFault>,
    asked: Items<AssetId>,
}

impl Model for StackDraft {
    ghost use Rattle.composition.specs.Stacks.{LayerStack};

    ghost Value = { LayerStack };

    ghost view = { λ d. record { layers = d.layers; faults = d.faults; asked = d.asked } };
}

impl StackDraft {
    /// Nothing yet. Takes no memory.
    pub fn new(alloc: Global) -> StackDraft
        ensures { result ≡ nothing_listed }
    {
        StackDraft {
            layers: Items::new(alloc),
            faults: Items::new(alloc),
            asked: Items::new(alloc),
        }
    }

    /// Adds a layer as the weakest so far.
    pub fn add_layer(&mut self, name: AssetId, offset: LayerOffset) -> Result<(), AllocError>
        ensures { OnOk result (self.new ≡ with_layer self.old name offset) }
    {
        self.layers.push((name, offset))
    }

    /// Adds the fault of a sublayer that a layer lists.
    pub fn add_fault(
        &mut self,
        reason: SublayerReason,
        layer: &AssetId,
        asset: Text,
    ) -> Result<(), AllocError>
        ensures { OnOk result (self.new ≡ with_fault self.old reason layer.now asset) }
    {
        let layer = copy(layer)?;
        self.faults.push(SublayerFault {
            reason,
            layer,
            asset,
        })
    }

    /// Adds a name that is asked.
    pub fn add_asked(&mut self, name: &AssetId) -> Result<(), AllocError>
        ensures { OnOk result (self.new ≡ with_asked self.old name.now) }
    {
        self.asked.push(copy(name)?)
    }

    /// The faults.
    pub fn faults(&self) -> &Items<SublayerFault>
        ensures { result.now ≡ self.now.faults }
    {
        &self.faults
    }

    /// The names that were asked.
    pub fn asked(&self) -> &Items<AssetId>
        ensures { result.now ≡ self.now.asked }
    {
        &self.asked
    }

    /// The layers.
    pub fn into_layers(self) -> Items<(AssetId, LayerOffset)>
        ensures { result ≡ self.layers }
    {
        let StackDraft {
            layers,
            faults: _,
            asked: _,
        } = self;
        layers
    }
}
