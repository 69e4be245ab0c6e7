//! Reading the canonical text of a layer gives that layer back.
//!
//! `specs/Trees.antt` says where a draft stands behind the statements of a prim with all that stands below it, and
//! `specs/Layers.antt` where it stands behind a whole layer; `specs/Theorem.antt` has the theorem. Each law is the clause
//! of a function that does nothing.
#![tactic(auto)]

mod laws;

pub use laws::{
    examples_come_back, heads_come_back, layers_are_taken, layers_come_back,
    owners_say_their_specs, reached_specs_are_read, specs_are_the_layers, texts_are_taken,
    texts_say_their_layers, trees_are_taken,
};
