//! Each layer that a text says is proper.
//!
//! `specs/Laws.antt` says it of what the layer, its prims and its variants say in their metadata and their orders, of the
//! properties, and of the whole layer, which also has the tree of `trees_read`. Each law is the clause of a function that does
//! nothing.
#![tactic(auto)]

mod laws;

pub use laws::{layers_are_read, said_is_read, said_properties_are_proper};
