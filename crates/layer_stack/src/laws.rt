//! A law of stacks.
ghost use Rattle.std.specs.Prelude.{◌≡◌, ◌≤◌, length};
ghost use Rattle.layer_set.specs.LookUps.{look_ups};
ghost use Rattle.layer_stack.specs.Meant.{defined_stack, meant, stack_within};

use layer_set::World;
use prim_view::StackName;

/// In a world of at most 4,096 names no stack is cut: it is the same where more layers may stand on a chain.
pub fn no_stack_is_cut(world: &World, most: usize, name: &StackName)
    requires few { length world.now.layers ≤ 4096 }
    requires more { 4096 ≤ most }
    ensures { stack_within most (look_ups world.now) name.now ≡ defined_stack (look_ups world.now) name.now }
{}

/// A name of a stack and the name that it means have one stack.
pub fn a_meant_name_has_the_same_stack(world: &World, name: &StackName)
    ensures { defined_stack (look_ups world.now) (meant (look_ups world.now) name.now) ≡ defined_stack (look_ups world.now) name.now }
{}
