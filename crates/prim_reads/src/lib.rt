//! What a prim reads of its world, as a list of keys.
//!
//! It knows the world, trees of prims and layer stacks. It must never know what is made of what is read: values, names and fields.
#![tactic(auto)]

mod bodies;
mod gather;
mod node;
mod reading;

pub use reading::reads_at;
