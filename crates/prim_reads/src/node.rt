//! The keys that are read at a node.
ghost use Rattle.std.specs.Prelude.{◌≡◌, ◌++◌, map, OnOk};
ghost use Rattle.composition.specs.Faults.{wants_prim};
ghost use Rattle.layer_set.specs.LookUps.{look_ups};
ghost use Rattle.layer_set.specs.declared.key.Key.TheVariants.{Head};
ghost use Rattle.prim_reads.specs.Gathered.{arcs_of, bodies_of, level_arcs, asked_heads, heads_if_there, source_heads, item_heads, items_heads, stack_keys, node_keys, bodies_at};

use asset_names::AssetId;
use class_arcs::path_above;
use layer_set::{Key, World};
use layer_stack::{StackName, stack};
use node_branches::levels;
use path_maps::ArcKind;
use plain_data::{Items, copy};
use prim_nodes::{Here, Node, Tried};
use prim_view::ItemSource;
use sdf_paths::Path;
use sdf_values::LayerOffset;
use std::alloc::AllocError;

/// Appends the heads of layers.
fn push_heads(out: &mut Items<Key>, names: &[AssetId]) -> Result<(), AllocError>
    ensures { OnOk result (out.new ≡ out.old ++ map Head names.now) }
{
    for name in names {
        out.push(Key::Head(copy(name)?))?;
    }
    Ok(())
}

/// Appends the arcs at a path of each layer.
fn push_arcs(
    out: &mut Items<Key>,
    layers: &[(AssetId, LayerOffset)],
    path: &Path,
) -> Result<(), AllocError>
    ensures { OnOk result (out.new ≡ out.old ++ arcs_of layers.now path.now) }
{
    for (name, _) in layers {
        out.push(Key::Arcs(copy(name)?, copy(path)?))?;
    }
    Ok(())
}

/// Appends the bodies at a path of each layer.
fn push_bodies(
    out: &mut Items<Key>,
    layers: &[(AssetId, LayerOffset)],
    path: &Path,
) -> Result<(), AllocError>
    ensures { OnOk result (out.new ≡ out.old ++ bodies_of layers.now path.now) }
{
    for (name, _) in layers {
        out.push(Key::Body(copy(name)?, copy(path)?))?;
    }
    Ok(())
}

/// Appends the arcs at each level of a path.
fn push_levels(
    out: &mut Items<Key>,
    layers: &[(AssetId, LayerOffset)],
    path: &Path,
) -> Result<(), AllocError>
    ensures { OnOk result (out.new ≡ out.old ++ level_arcs layers.now path.now) }
{
    for level in 0..levels(path.elements()) {
        let author = path_above(path, level)?;
        push_arcs(out, layers, &author)?;
    }
    Ok(())
}

/// Appends the heads that a stack asks.
#[tactic(auto, unfolding(crate::specs::Gathered::asked_heads))]
pub fn push_asked(out: &mut Items<Key>, world: &World, name: &StackName) -> Result<(), AllocError>
    ensures { OnOk result (out.new ≡ out.old ++ asked_heads (look_ups world.now) name.now) }
{
    let found = stack(out.allocator(), world, name)?;
    push_heads(out, found.asked.as_slice())?;
    Ok(())
}

/// Appends the heads that the stack of a layer asks, where the layer is there.
fn push_if_there(out: &mut Items<Key>, world: &World, name: &AssetId) -> Result<(), AllocError>
    ensures { OnOk result (out.new ≡ out.old ++ heads_if_there (look_ups world.now) name.now ((look_ups world.now).heading name.now)) }
{
    if !world.held(name).is_present() {
        return Ok(());
    }
    let named = StackName::Asset(copy(name)?);
    push_asked(out, world, &named)?;
    Ok(())
}

/// Appends the head of the layer that an item names, and those that its stack asks.
fn push_source(out: &mut Items<Key>, world: &World, source: &ItemSource) -> Result<(), AllocError>
    ensures { OnOk result (out.new ≡ out.old ++ source_heads (look_ups world.now) source.now) }
{
    match source {
        ItemSource::Own => Ok(()),
        ItemSource::Unanchored(_) => Ok(()),
        ItemSource::Named(name) => {
            out.push(Key::Head(copy(name)?))?;
            push_if_there(out, world, name)?;
            Ok(())
        }
    }
}

/// Whether the kind of arcs wants a prim at its target.
fn wants_prim(kind: ArcKind) -> bool
    ensures { result ≡ wants_prim kind }
{
    match kind {
        ArcKind::Reference => true,
        ArcKind::Payload => true,
        ArcKind::Inherits => false,
        ArcKind::Variant => false,
        ArcKind::Specializes => false,
    }
}

/// Appends what an item of a reference or a payload asks.
#[tactic(auto, unfolding(crate::specs::Gathered::item_heads))]
fn push_item(out: &mut Items<Key>, world: &World, item: &Tried) -> Result<(), AllocError>
    ensures { OnOk result (out.new ≡ out.old ++ item_heads (look_ups world.now) item.now) }
{
    if !wants_prim(item.kind) {
        return Ok(());
    }
    push_source(out, world, &item.authored.item.source)?;
    Ok(())
}

/// Appends what items of references and payloads ask.
#[tactic(auto, unfolding(crate::specs::Gathered::items_heads))]
fn push_items(out: &mut Items<Key>, world: &World, items: &[Tried]) -> Result<(), AllocError>
    ensures { OnOk result (out.new ≡ out.old ++ items_heads (look_ups world.now) items.now) }
{
    for item in items {
        push_item(out, world, item)?;
    }
    Ok(())
}

/// Appends the arcs at each level of a node and the heads that its stack asks. The stack is looked up once.
fn push_stack(out: &mut Items<Key>, world: &World, node: &Node) -> Result<(), AllocError>
    ensures { OnOk result (out.new ≡ out.old ++ stack_keys (look_ups world.now) node.now) }
{
    let found = stack(out.allocator(), world, &node.stack)?;
    push_levels(out, found.layers.as_slice(), &node.path)?;
    push_heads(out, found.asked.as_slice())?;
    Ok(())
}

/// Appends what is read at a node at which this is said.
#[tactic(auto, unfolding(crate::specs::Gathered::node_keys), using(crate::proofs::Steps::two_parts))]
pub fn push_node(
    out: &mut Items<Key>,
    world: &World,
    node: &Node,
    here: &Here,
) -> Result<(), AllocError>
    ensures { OnOk result (out.new ≡ out.old ++ node_keys (look_ups world.now) node.now here.now) }
{
    push_stack(out, world, node)?;
    push_items(out, world, here.arcs.as_slice())?;
    Ok(())
}

/// Appends the bodies at a site.
#[tactic(auto, unfolding(crate::specs::Gathered::bodies_at))]
pub fn push_bodies_at(
    out: &mut Items<Key>,
    world: &World,
    name: &StackName,
    path: &Path,
) -> Result<(), AllocError>
    ensures { OnOk result (out.new ≡ out.old ++ bodies_at (look_ups world.now) name.now path.now) }
{
    let found = stack(out.allocator(), world, name)?;
    push_bodies(out, found.layers.as_slice(), path)?;
    Ok(())
}
