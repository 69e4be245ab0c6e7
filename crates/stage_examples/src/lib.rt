//! Examples of what the definitions of arcs' paths, of flattening, of answers and of replies give.
//!
//! Each example is an equation on closed terms that the prover computes. They stand apart from the crates whose definitions they
//! show, so that those need no proof anew.
#![tactic(auto)]

mod laws;

pub use laws::{
    paths_are_translated, questions_are_answered, replies_are_told, stages_are_flattened,
};
