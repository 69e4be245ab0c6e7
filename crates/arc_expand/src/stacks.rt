ghost use Rattle.std.specs.Prelude.{◌≡◌, IfOk, map};
ghost use Rattle.layer_set.specs.LookUps.{look_ups};
ghost use Rattle.layer_stack.specs.Meant.{meant, defined_stack, each_once};
ghost use Rattle.prim_view.specs.declared.fault.PrimFault.TheVariants.{Sublayer};
ghost use Rattle.arc_expand.specs.Authoring.{IsStackOf};

use layer_set::World;
use layer_stack::{LayerStack, StackName, stack};
use std::alloc::{AllocError, Global};

/// The layer stack of a name, as one that the world defines for its own name.
///
/// # Errors
///
/// Memory ran out.
pub fn stack_of(alloc: Global, world: &World, name: &StackName) -> Result<LayerStack, AllocError>
    ensures name { IfOk result (λ s. s.name ≡ meant (look_ups world.now) name.now) }
    ensures stack { IfOk result (λ s. IsStackOf (look_ups world.now) s) }
    ensures faults { IfOk result (λ s. s.faults ≡ map Sublayer (defined_stack (look_ups world.now) name.now).faults) }
    ensures asked { IfOk result (λ s. s.asked ≡ each_once (defined_stack (look_ups world.now) name.now).asked) }
{
    let found = stack(alloc, world, name)?;
    Ok(found)
}
