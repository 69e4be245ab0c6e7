//! The tree of a prim: a node, what its layers say, and the trees of the arcs that are followed from it.
#![tactic(auto)]

mod tree;

pub use tree::{Child, Tree};
