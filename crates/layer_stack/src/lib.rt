//! Layer stacks: the layers that a name of a stack gives, with their offsets and the faults of sublayers.
#![tactic(auto)]

mod draft;
mod frames;
mod laws;
mod look;
mod once;
mod stacks;
mod walk;

pub use laws::{a_meant_name_has_the_same_stack, no_stack_is_cut};
pub use once::each_once;
pub use prim_view::StackName;
pub use stacks::{LayerStack, stack};
