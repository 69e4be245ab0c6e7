//! Operations on one layer that is present.
ghost use Rattle.std.specs.Prelude.{◌≡◌, Ok};
ghost use Rattle.std.specs.Option.{option_copied};
ghost use Rattle.layer_edit.specs.Outcomes.{Does};
ghost use Rattle.layer_apply.specs.Edits.{in_layer};
ghost use Rattle.layer_apply.specs.Parts.{layer_of, layer_edited};
ghost use Rattle.layer_apply.specs.Answers.{DoesOne};

use crate::worlds::put_present;
use asset_names::AssetId;
use edit_batches::{EditFault, Op, OpRefused};
use layer_edit::{
    add_attribute, add_prim, add_relationship, add_variant, clear_default, clear_meta,
    clear_sample, remove, set_default, set_list, set_meta, set_order, set_sample, set_selection,
    set_sublayers,
};
use layer_set::World;
use plain_data::copy;
use sdf_specs::Layer;
use std::alloc::Global;

/// The layer that an operation wants to be present, if any.
pub fn layer_of(op: &Op) -> Option<&AssetId>
    ensures { option_copied result ≡ layer_of op.now }
{
    match op {
        Op::AddPrim { layer, .. } => Some(layer),
        Op::AddVariant { layer, .. } => Some(layer),
        Op::AddAttribute { layer, .. } => Some(layer),
        Op::AddRelationship { layer, .. } => Some(layer),
        Op::Remove { layer, .. } => Some(layer),
        Op::SetDefault { layer, .. } => Some(layer),
        Op::ClearDefault { layer, .. } => Some(layer),
        Op::SetSample { layer, .. } => Some(layer),
        Op::ClearSample { layer, .. } => Some(layer),
        Op::SetMeta { layer, .. } => Some(layer),
        Op::ClearMeta { layer, .. } => Some(layer),
        Op::SetList { layer, .. } => Some(layer),
        Op::Select { layer, .. } => Some(layer),
        Op::Unselect { layer, .. } => Some(layer),
        Op::SetOrder { layer, .. } => Some(layer),
        Op::SetSublayers { layer, .. } => Some(layer),
        Op::NewLayer { .. } => None,
        Op::Load { .. } => None,
        Op::Unload { .. } => None,
        Op::Unrule { .. } => None,
        Op::PutLayer { .. } => None,
    }
}

/// Carries out an operation on its layer; any other leaves the layer.
fn edit_layer(alloc: Global, layer: &mut Layer, op: &Op) -> Result<(), OpRefused>
    ensures { Does result layer.old layer.new (layer_edited op.now layer.old) }
{
    match op {
        Op::AddPrim {
            path,
            specifier,
            type_name,
            ..
        } => add_prim(alloc, layer, path, *specifier, type_name),
        Op::AddVariant { path, .. } => add_variant(alloc, layer, path),
        Op::AddAttribute {
            path,
            ty,
            custom,
            uniform,
            ..
        } => add_attribute(alloc, layer, path, *ty, *custom, *uniform),
        Op::AddRelationship { path, custom, .. } => add_relationship(alloc, layer, path, *custom),
        Op::Remove { path, .. } => remove(alloc, layer, path),
        Op::SetDefault { path, value, .. } => set_default(alloc, layer, path, value),
        Op::ClearDefault { path, .. } => clear_default(alloc, layer, path),
        Op::SetSample {
            path,
            time,
            value,
            ..
        } => set_sample(alloc, layer, path, *time, value),
        Op::ClearSample { path, time, .. } => clear_sample(alloc, layer, path, *time),
        Op::SetMeta {
            path,
            key,
            value,
            ..
        } => set_meta(alloc, layer, path, key, value),
        Op::ClearMeta { path, key, .. } => clear_meta(alloc, layer, path, key),
        Op::SetList {
            layer: name,
            path,
            edit,
            list,
        } => set_list(alloc, name, layer, path, *edit, list),
        Op::Select {
            path,
            set,
            variant,
            ..
        } => set_selection(alloc, layer, path, set, Some(copy(variant)?)),
        Op::Unselect { path, set, .. } => set_selection(alloc, layer, path, set, None),
        Op::SetOrder {
            path,
            word,
            names,
            ..
        } => set_order(alloc, layer, path, *word, names),
        Op::SetSublayers { sublayers, .. } => set_sublayers(alloc, layer, sublayers),
        Op::NewLayer { .. } => Ok(()),
        Op::Load { .. } => Ok(()),
        Op::Unload { .. } => Ok(()),
        Op::Unrule { .. } => Ok(()),
        Op::PutLayer { .. } => Ok(()),
    }
}

/// Carries out an operation on the layer of a name.
pub fn edit_in_layer(
    alloc: Global,
    world: &mut World,
    name: &AssetId,
    op: &Op,
) -> Result<(), OpRefused>
    ensures { DoesOne result world.new (in_layer name.now (layer_edited op.now) world.old) }
{
    match world.take_layer(name)? {
        Some(layer) => {
            let mut layer = layer;
            match edit_layer(alloc, &mut layer, op) {
                Ok(()) => {
                    put_present(world, name, layer)?;
                    Ok(())
                }
                Err(refused) => {
                    drop(layer);
                    Err(refused)
                }
            }
        }
        None => Err(OpRefused::Fault(EditFault::NoLayer)),
    }
}
