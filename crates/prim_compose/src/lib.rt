//! The composed view of a path: what layers make of it, whether or not the stage has a prim there.
#![tactic(auto)]

mod below;
mod children;
mod faults;
mod lists;
mod properties;
mod root;
mod view;

pub use below::{ComposedPrim, compose_prim, compose_prim_below, tree_below};
