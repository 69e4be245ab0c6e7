//! The branches of a node: which arcs are followed from it, in which order, and the node that each of them leads to.
#![tactic(auto)]

mod branches;
mod children;
mod follow;
mod level;

pub use branches::{lifted_branches, own_branches};
pub use children::{above_target, arc_child, chosen_child, node_at, node_in_round, with_first};
pub use follow::{child_path, refusal};
pub use level::{front, levels};
