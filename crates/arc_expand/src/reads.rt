//! The keys that arcs are made of.
ghost use Rattle.std.specs.Prelude.{◌≡◌, ◌++◌, IfOk, OnOk, map, flat_map};
ghost use Rattle.layer_set.specs.LookUps.{look_ups, heading_of};
ghost use Rattle.layer_set.specs.Worlds.{held_at};
ghost use Rattle.composition.specs.World.{stack_of};
ghost use Rattle.layer_set.specs.declared.key.Key.TheVariants.{Head, Arcs};
ghost use Rattle.arc_expand.specs.Arcs.{asked_below, asked_by, asked_in_turn, reads};

use crate::stacks::stack_of;
use asset_names::AssetId;
use layer_set::{Held, Key, World};
use layer_stack::{LayerStack, each_once};
use path_maps::ArcKind;
use plain_data::{Items, copy};
use prim_nodes::Authored;
use prim_view::{ItemSource, StackName};
use sdf_paths::Path;
use sdf_values::LayerOffset;
use std::alloc::{AllocError, Global};

/// Appends copies of names.
fn push_names(out: &mut Items<AssetId>, names: &[AssetId]) -> Result<(), AllocError>
    ensures { OnOk result (out.new ≡ out.old ++ names.now) }
{
    for name in names {
        out.push(copy(name)?)?;
    }
    Ok(())
}

/// The names that a layer's stack asks, where the layer is present.
fn asked_below(alloc: Global, world: &World, name: &AssetId) -> Result<Items<AssetId>, AllocError>
    ensures { IfOk result (λ names. names ≡ asked_below (look_ups world.now) (stack_of (look_ups world.now) name.now) (heading_of (held_at world.now name.now))) }
{
    match world.held(name) {
        Held::Present(_) => {
            let stack = stack_of(alloc, world, &StackName::Asset(copy(name)?))?;
            let names = copy(&stack.asked);
            drop(stack);
            names
        }
        Held::Absent => Ok(Items::new(alloc)),
        Held::Broken(_) => Ok(Items::new(alloc)),
    }
}

/// Appends the layer that an item names and, where it is present, the names that its stack asks.
fn push_asked(
    alloc: Global,
    world: &World,
    out: &mut Items<AssetId>,
    source: &ItemSource,
) -> Result<(), AllocError>
    ensures { OnOk result (out.new ≡ out.old ++ asked_by (look_ups world.now) source.now) }
{
    let ItemSource::Named(name) = source else {
        return Ok(());
    };
    out.push(copy(name)?)?;
    let below = asked_below(alloc, world, name)?;
    push_names(out, below.as_slice())?;
    Ok(())
}

/// The names that the layers of items ask.
fn asked_by_all(
    alloc: Global,
    world: &World,
    all: &[Authored],
) -> Result<Items<AssetId>, AllocError>
    ensures { IfOk result (λ names. names ≡ flat_map (λ a. asked_by (look_ups world.now) a.item.source) all.now) }
{
    let mut names = Items::new(alloc);
    for one in all {
        push_asked(alloc, world, &mut names, &one.item.source)?;
    }
    Ok(names)
}

/// The names that are asked for items of a kind.
fn asked_in_turn(
    alloc: Global,
    world: &World,
    kind: ArcKind,
    all: &[Authored],
) -> Result<Items<AssetId>, AllocError>
    ensures { IfOk result (λ names. names ≡ asked_in_turn (look_ups world.now) kind all.now) }
{
    match kind {
        ArcKind::Reference => asked_by_all(alloc, world, all),
        ArcKind::Payload => asked_by_all(alloc, world, all),
        ArcKind::Inherits => Ok(Items::new(alloc)),
        ArcKind::Variant => Ok(Items::new(alloc)),
        ArcKind::Specializes => Ok(Items::new(alloc)),
    }
}

/// The keys of the arcs of layers at a path.
fn arc_keys(
    alloc: Global,
    layers: &[(AssetId, LayerOffset)],
    at: &Path,
) -> Result<Items<Key>, AllocError>
    ensures { IfOk result (λ keys. keys ≡ map (λ e. Arcs e.0 at.now) layers.now) }
{
    let mut keys = Items::new(alloc);
    for layer in layers {
        keys.push(Key::Arcs(copy(&layer.0)?, copy(at)?))?;
    }
    Ok(keys)
}

/// Appends the keys of the heads of layers.
fn push_heads(out: &mut Items<Key>, names: &[AssetId]) -> Result<(), AllocError>
    ensures { OnOk result (out.new ≡ out.old ++ map Head names.now) }
{
    for name in names {
        out.push(Key::Head(copy(name)?))?;
    }
    Ok(())
}

/// The arcs of each layer of the stack at the path, and the heads of the layers that are asked, each once.
pub fn reads(
    alloc: Global,
    world: &World,
    stack: &LayerStack,
    at: &Path,
    kind: ArcKind,
    all: &[Authored],
) -> Result<Items<Key>, AllocError>
    ensures { IfOk result (λ keys. keys ≡ reads (look_ups world.now) stack.now.layers at.now kind all.now) }
{
    let asked = asked_in_turn(alloc, world, kind, all)?;
    let names = each_once(alloc, &asked)?;
    let mut keys = arc_keys(alloc, stack.layers.as_slice(), at)?;
    push_heads(&mut keys, names.as_slice())?;
    Ok(keys)
}
