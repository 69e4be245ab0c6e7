//! What becomes of an item: an arc, or the first reason why there is none.
ghost use Rattle.std.specs.Prelude.{◌≡◌, IfOk};
ghost use Rattle.layer_set.specs.LookUps.{look_ups, heading_of};
ghost use Rattle.composition.specs.World.{first_layer};
ghost use Rattle.arc_expand.specs.Authoring.{IsStackOf};
ghost use Rattle.arc_expand.specs.Outcomes.{outcome_of, outcome_within, outcome_to};

use crate::offset::{leaves_with, ranged};
use crate::stacks::stack_of;
use crate::target::{is_no_target, target};
use asset_names::AssetId;
use layer_set::{Held, World};
use layer_stack::LayerStack;
use plain_data::copy;
use prim_nodes::{Lead, Outcome};
use prim_view::{ArcReason, FaultItem, FaultOffset, ItemSource, StackName};
use sdf_paths::Path;
use std::alloc::{AllocError, Global};

/// The layer that a stack is named for.
fn first_layer<'w>(world: &'w World, name: &'w StackName) -> &'w AssetId
    ensures { result.now ≡ first_layer (look_ups world.now) name.now }
{
    match name {
        StackName::Root => world.root(),
        StackName::Asset(id) => id,
    }
}

/// What becomes of an item whose layer is that of a stack, where its offset and its target are known.
fn outcome_to(
    world: &World,
    stack: &LayerStack,
    offset: FaultOffset,
    target: Option<Path>,
) -> Result<Outcome, AllocError>
    requires { IsStackOf (look_ups world.now) stack.now }
    ensures { IfOk result (λ outcome. outcome ≡ outcome_to (look_ups world.now) stack.now.name offset target) }
{
    let Some(target) = target else {
        return Ok(Outcome::GivesNoArc(ArcReason::NoDefaultPrim));
    };
    if is_no_target(&target) {
        return Ok(Outcome::GivesNoArc(ArcReason::BadTarget));
    }
    let Some(offset) = ranged(offset) else {
        return Ok(Outcome::GivesNoArc(ArcReason::OffsetRange));
    };
    if leaves_with(stack.layers.as_slice(), offset) {
        return Ok(Outcome::GivesNoArc(ArcReason::OffsetRange));
    }
    Ok(Outcome::Leads(Lead {
        stack: copy(&stack.name)?,
        target,
        offset,
    }))
}

/// What becomes of an item that leads to a stack, where `held` is what stands at the first layer's name.
fn outcome_within(
    alloc: Global,
    world: &World,
    stack: &LayerStack,
    item: &FaultItem,
    held: &Held,
) -> Result<Outcome, AllocError>
    requires { IsStackOf (look_ups world.now) stack.now }
    ensures { IfOk result (λ outcome. outcome ≡ outcome_within (look_ups world.now) stack.now.name item.now (heading_of held.now)) }
{
    match held {
        Held::Absent => Ok(Outcome::GivesNoArc(ArcReason::MissingLayer)),
        Held::Broken(refusal) => Ok(Outcome::GivesNoArc(ArcReason::BrokenLayer(*refusal))),
        Held::Present(layer) => {
            let target = target(alloc, &item.path, layer.head())?;
            outcome_to(world, stack, item.offset, target)
        }
    }
}

/// What becomes of an item of a stack.
pub fn outcome(
    alloc: Global,
    world: &World,
    stack: &LayerStack,
    item: &FaultItem,
) -> Result<Outcome, AllocError>
    requires { IsStackOf (look_ups world.now) stack.now }
    ensures { IfOk result (λ outcome. outcome ≡ outcome_of (look_ups world.now) stack.now.name item.now) }
{
    match &item.source {
        ItemSource::Own => {
            let held = world.held(first_layer(world, &stack.name));
            outcome_within(alloc, world, stack, item, held)
        }
        ItemSource::Named(name) => {
            let stack = stack_of(alloc, world, &StackName::Asset(copy(name)?))?;
            let outcome = outcome_within(alloc, world, &stack, item, world.held(name));
            drop(stack);
            outcome
        }
        ItemSource::Unanchored(_) => Ok(Outcome::GivesNoArc(ArcReason::BadTarget)),
    }
}
