//! What the layers of a stack say at a path.
ghost use Rattle.std.specs.Prelude.{◌≡◌, IfOk};
ghost use Rattle.layer_set.specs.LookUps.{look_ups};
ghost use Rattle.arc_expand.specs.Authoring.{opinions_in};

use asset_names::AssetId;
use layer_set::World;
use layer_stack::LayerStack;
use plain_data::Items;
use sdf_paths::Path;
use sdf_specs::Spec;
use sdf_values::LayerOffset;
use std::alloc::{AllocError, Global};
use std::marker::Model;

/// What one layer of a stack says at a path.
#[derive(Drop)]
pub struct LayerOpinion<'w> {
    /// The layer.
    pub layer: &'w AssetId,
    /// How times of the layer become those of the stack.
    pub offset: LayerOffset,
    /// What it says at the path.
    pub spec: &'w Spec,
}

impl<'w> Model for LayerOpinion<'w> {
    ghost use Rattle.composition.specs.Arcs.{Opinion};
    ghost use Rattle.std.specs.Coded.{codes};
    ghost use Rattle.spec_parts.specs.contracts.spec.Spec as of_spec;

    ghost Value = { Opinion };

    ghost coded = { Prim.hlevel (codes, of_spec.the_row.coded) };

    ghost view = { λ o. record { layer = o.layer.now; offset = o.offset; spec = o.spec.now } };
}

/// The opinions of a stack's layers, the strongest first.
pub fn opinions<'w>(
    alloc: Global,
    world: &'w World,
    stack: &'w LayerStack,
    at: &Path,
) -> Result<Items<LayerOpinion<'w>>, AllocError>
    ensures { IfOk result (λ all. all ≡ opinions_in (look_ups world.now) stack.now.layers at.now) }
{
    let mut all = Items::new(alloc);
    for entry in stack.layers.as_slice() {
        if let Some(spec) = world.spec(&entry.0, at) {
            all.push(LayerOpinion {
                layer: &entry.0,
                offset: entry.1,
                spec,
            })?;
        }
    }
    Ok(all)
}
