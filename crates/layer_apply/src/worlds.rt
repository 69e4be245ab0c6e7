//! Operations on whole layers and on load rules.
ghost use Rattle.std.specs.Prelude.{◌≡◌, Some, true, OnOk};
ghost use Rattle.layer_set.specs.Worlds.{with_held};
ghost use Rattle.layer_set.specs.declared.held.Held.TheVariants.{Present};
ghost use Rattle.layer_edit.specs.Outcomes.{Gives};
ghost use Rattle.layer_apply.specs.Edits.{is_over, layer_or_fault, new_layer, layer_added, is_named, is_root_name, layer_put, rule_set};
ghost use Rattle.layer_apply.specs.Parts.{world_edited};
ghost use Rattle.layer_apply.specs.Answers.{DoesOne};
ghost use Rattle.usda_reader.specs.Reading.{read};

use asset_names::AssetId;
use edit_batches::{EditFault, Op, OpRefused};
use layer_edit::is_plain_prim;
use layer_set::{Held, MAX_LAYER_NAMES, World};
use plain_data::{Text, copy};
use sdf_paths::Path;
use sdf_specs::Layer;
use std::alloc::{AllocError, Global};
use usda_reader::{LayerFault, read_layer};

/// Whether a name would be one too many.
fn is_over(world: &World, name: &AssetId) -> bool
    ensures { result ≡ is_over name.now world.now }
{
    !world.has(name) && world.names() >= MAX_LAYER_NAMES
}

fn read_text(alloc: Global, text: &Text) -> Result<Layer, OpRefused>
    ensures { Gives result (layer_or_fault (read text.now)) }
{
    match read_layer(alloc, text.as_bytes()) {
        Ok(layer) => Ok(layer),
        Err(LayerFault::Refused(refusal)) => {
            Err(OpRefused::Fault(EditFault::LayerText(refusal)))
        }
        Err(LayerFault::NoMemory) => Err(OpRefused::NoMemory),
    }
}

/// An empty layer, or the layer of a text.
fn new_layer(alloc: Global, text: &Option<Text>) -> Result<Layer, OpRefused>
    ensures { Gives result (new_layer text.now) }
{
    match text {
        Some(text) => read_text(alloc, text),
        None => Ok(Layer::new(alloc)),
    }
}

/// Puts a layer at a name.
pub fn put_present(world: &mut World, name: &AssetId, layer: Layer) -> Result<(), AllocError>
    ensures { OnOk result (world.new ≡ with_held name.now (Present layer) world.old) }
{
    match copy(name) {
        Ok(name) => world.put(name, Held::Present(layer)),
        Err(error) => {
            drop(layer);
            Err(error)
        }
    }
}

/// Adds a layer at a name that has none.
#[tactic(auto, unfolding(crate::specs::Edits::layer_added, layer_edit::specs::Outcomes::passing))]
fn add_layer(
    alloc: Global,
    world: &mut World,
    name: &AssetId,
    text: &Option<Text>,
) -> Result<(), OpRefused>
    ensures { DoesOne result world.new (layer_added name.now text.now world.old) }
{
    if world.held(name).is_present() {
        return Err(OpRefused::Fault(EditFault::LayerThere));
    }
    if is_over(world, name) {
        return Err(OpRefused::Fault(EditFault::LayerLimit));
    }
    let layer = new_layer(alloc, text)?;
    put_present(world, name, layer)?;
    Ok(())
}

fn is_session(world: &World, name: &AssetId) -> bool
    ensures { result ≡ is_named name.now world.now.session }
{
    match world.session() {
        Some(session) => name == session,
        None => false,
    }
}

fn is_root_name(world: &World, name: &AssetId) -> bool
    ensures { result ≡ is_root_name name.now world.now }
{
    name == world.root() || is_session(world, name)
}

/// Puts what stands at a name.
#[tactic(auto, unfolding(crate::specs::Edits::layer_put, layer_edit::specs::Outcomes::passing))]
fn put_layer(world: &mut World, name: &AssetId, held: &Held) -> Result<(), OpRefused>
    ensures { DoesOne result world.new (layer_put name.now held.now world.old) }
{
    if is_root_name(world, name) && !held.is_present() {
        return Err(OpRefused::Fault(EditFault::RootLayer));
    }
    if is_over(world, name) {
        return Err(OpRefused::Fault(EditFault::LayerLimit));
    }
    world.put(copy(name)?, copy(held)?)?;
    Ok(())
}

/// Puts a load rule at a plain prim path, or takes it away.
#[tactic(auto, unfolding(crate::specs::Edits::rule_set, layer_edit::specs::Outcomes::passing))]
fn set_rule(world: &mut World, path: &Path, rule: Option<bool>) -> Result<(), OpRefused>
    ensures { DoesOne result world.new (rule_set path.now rule world.old) }
{
    if !is_plain_prim(path) {
        return Err(OpRefused::Fault(EditFault::WrongPath));
    }
    world.set_load(path, rule)?;
    Ok(())
}

/// Carries out an operation on a world; one on a layer that has to be present leaves it.
pub fn edit_world(alloc: Global, world: &mut World, op: &Op) -> Result<(), OpRefused>
    ensures { DoesOne result world.new (world_edited op.now world.old) }
{
    match op {
        Op::NewLayer { layer, text } => add_layer(alloc, world, layer, text),
        Op::Load { path } => set_rule(world, path, Some(true)),
        Op::Unload { path } => set_rule(world, path, Some(false)),
        Op::Unrule { path } => set_rule(world, path, None),
        Op::PutLayer { id, held } => put_layer(world, id, held),
        _ => Ok(()),
    }
}
