//! The stacks of some sites, each built once.
ghost use Rattle.std.specs.Prelude.{◌≡◌, true, IfOk, OnOk, is_some};
ghost use Rattle.std.specs.BTreeMap.{get};
ghost use Rattle.layer_set.specs.LookUps.{look_ups};
ghost use Rattle.layer_stack.specs.Meant.{defined_stack};
ghost use Rattle.prim_opinions.specs.Stacks.{name_cmp, AreStacks, layers_or_none};

use asset_names::AssetId;
use layer_set::World;
use layer_stack::{LayerStack, stack};
use plain_data::{Items, copy};
use prim_view::StackName;
use sdf_values::LayerOffset;
use std::alloc::{AllocError, Global};
use std::collections::BTreeMap;

/// Layers with their offsets, by the name of their stack.
pub type Stacks = BTreeMap<StackName, Items<(AssetId, LayerOffset)>>;

/// The layers of a stack.
fn layers_named(
    alloc: Global,
    world: &World,
    name: &StackName,
) -> Result<Items<(AssetId, LayerOffset)>, AllocError>
    ensures { IfOk result (λ layers. layers ≡ (defined_stack (look_ups world.now) name.now).layers) }
{
    let LayerStack {
        name,
        layers,
        faults,
        asked,
    } = stack(alloc, world, name)?;
    drop((name, faults, asked));
    Ok(layers)
}

/// Notes the layers of a stack, unless they are noted.
pub fn note_stack(
    alloc: Global,
    world: &World,
    stacks: &mut Stacks,
    name: &StackName,
) -> Result<(), AllocError>
    requires { AreStacks (look_ups world.now) (get name_cmp stacks.old) }
    ensures stacks { OnOk result (AreStacks (look_ups world.now) (get name_cmp stacks.new)) }
    ensures noted { OnOk result (is_some (get name_cmp stacks.new name.now) ≡ true) }
{
    if stacks.contains_key(name) {
        return Ok(());
    }
    let key = copy(name)?;
    let layers = layers_named(alloc, world, name)?;
    drop(stacks.insert(key, layers)?);
    Ok(())
}

/// The layers that are noted for a stack; none where none are.
pub fn layers_of<'t>(stacks: &'t Stacks, name: &StackName) -> &'t [(AssetId, LayerOffset)]
    ensures { result.now ≡ layers_or_none (get name_cmp stacks.now name.now) }
{
    match stacks.get(name) {
        Some(layers) => layers.as_slice(),
        None => &[],
    }
}
