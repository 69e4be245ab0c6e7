ghost use Rattle.std.specs.Prelude.{◌≡◌, map, IfOk};
ghost use Rattle.composition.specs.Stacks.{nothing_listed};
ghost use Rattle.layer_set.specs.LookUps.{look_ups};
ghost use Rattle.layer_stack.specs.Meant.{meant, means_root, each_once, defined_stack, with_stack, stack_within};
ghost use Rattle.prim_view.specs.declared.fault.PrimFault.TheVariants.{Sublayer};

use crate::draft::StackDraft;
use crate::once::each_once;
use crate::walk::Walk;
use asset_names::AssetId;
use layer_set::{MAX_LAYER_NAMES, World};
use plain_data::{Items, copy, same};
use prim_view::{PrimFault, StackName, SublayerFault};
use sdf_values::LayerOffset;
use std::alloc::{AllocError, Global};

/// The layers of a stack.
#[derive(Debug, Drop)]
pub struct LayerStack {
    /// The name of the stack.
    pub name: StackName,
    /// The layers, the strongest first, each with the offset by which its times become those of the stack.
    pub layers: Items<(AssetId, LayerOffset)>,
    /// The sublayers that are not part of it, in the order in which they are met.
    pub faults: Items<PrimFault>,
    /// The names whose presence and heads were looked at, each once, in the order in which they were first asked.
    pub asked: Items<AssetId>,
}

/// Whether a layer's name means the root's stack: there is no session layer, and it is the root layer's own name.
fn means_root(world: &World, id: &AssetId) -> bool
    ensures { result ≡ means_root (look_ups world.now) id.now }
{
    match world.session() {
        Some(_) => false,
        None => same(id, world.root()),
    }
}

/// The name that a name of a stack means: without a session layer the root layer's own name means the root's stack.
fn meant(world: &World, name: &StackName) -> Result<StackName, AllocError>
    ensures { IfOk result (λ n. n ≡ meant (look_ups world.now) name.now) }
{
    match name {
        StackName::Root => Ok(StackName::Root),
        StackName::Asset(id) => {
            if means_root(world, id) {
                Ok(StackName::Root)
            } else {
                Ok(StackName::Asset(copy(id)?))
            }
        }
    }
}

/// Faults of sublayers as faults of a prim.
fn prim_faults(alloc: Global, faults: &Items<SublayerFault>) -> Result<Items<PrimFault>, AllocError>
    ensures { IfOk result (λ all. all ≡ map Sublayer faults.now) }
{
    let mut all = Items::new(alloc);
    for fault in faults.as_slice() {
        all.push(PrimFault::Sublayer(copy(fault)?))?;
    }
    Ok(all)
}

/// A layer with what stands below it, where at most `most` layers stand on a chain.
fn one_stack(
    alloc: Global,
    world: &World,
    most: usize,
    name: &AssetId,
) -> Result<StackDraft, AllocError>
    ensures { IfOk result (λ draft. draft ≡ with_stack most (look_ups world.now) name.now nothing_listed) }
{
    let mut walk = Walk::new(alloc);
    match walk.list_from(world, most, name) {
        Ok(()) => Ok(walk.into_draft()),
        Err(error) => {
            drop(walk);
            Err(error)
        }
    }
}

/// Two layers with what stands below them, one after the other.
fn two_stacks(
    alloc: Global,
    world: &World,
    most: usize,
    first: &AssetId,
    second: &AssetId,
) -> Result<StackDraft, AllocError>
    ensures { IfOk result (λ draft. draft ≡ with_stack most (look_ups world.now) second.now (with_stack most (look_ups world.now) first.now nothing_listed)) }
{
    let mut walk = Walk::new(alloc);
    let listed = match walk.list_from(world, most, first) {
        Ok(()) => walk.list_from(world, most, second),
        Err(error) => Err(error),
    };
    match listed {
        Ok(()) => Ok(walk.into_draft()),
        Err(error) => {
            drop(walk);
            Err(error)
        }
    }
}

/// The stack of a name: that of a layer, or the session layer's, if there is one, and then the root layer's.
fn stack_within(
    alloc: Global,
    world: &World,
    most: usize,
    name: &StackName,
) -> Result<StackDraft, AllocError>
    ensures { IfOk result (λ draft. draft ≡ stack_within most (look_ups world.now) name.now) }
{
    match name {
        StackName::Asset(id) => one_stack(alloc, world, most, id),
        StackName::Root => match world.session() {
            Some(session) => two_stacks(alloc, world, most, session, world.root()),
            None => one_stack(alloc, world, most, world.root()),
        },
    }
}

/// The layer stack of a name: its layers with their offsets, the faults of sublayers that are not followed, and the names that were
/// asked. In a world of more than `MAX_LAYER_NAMES` names, what lies deeper on a chain of sublayers than so many layers is left out
/// without a fault.
///
/// # Errors
///
/// Memory ran out.
pub fn stack(alloc: Global, world: &World, name: &StackName) -> Result<LayerStack, AllocError>
    ensures name { IfOk result (λ s. s.name ≡ meant (look_ups world.now) name.now) }
    ensures layers { IfOk result (λ s. s.layers ≡ (defined_stack (look_ups world.now) name.now).layers) }
    ensures faults { IfOk result (λ s. s.faults ≡ map Sublayer (defined_stack (look_ups world.now) name.now).faults) }
    ensures asked { IfOk result (λ s. s.asked ≡ each_once (defined_stack (look_ups world.now) name.now).asked) }
{
    let meant = meant(world, name)?;
    let draft = stack_within(alloc, world, MAX_LAYER_NAMES, name)?;
    let faults = prim_faults(alloc, draft.faults())?;
    let asked = each_once(alloc, draft.asked())?;
    Ok(LayerStack {
        name: meant,
        layers: draft.into_layers(),
        faults,
        asked,
    })
}
