//! Examples of what the definitions of edits give: what each operation makes of a layer or why it is refused, and whole batches.
//!
//! Each example is an equation on closed terms that the prover computes. They stand apart from the crates whose definitions they
//! show, so that those need no proof anew.
#![tactic(auto)]

mod laws;

pub use laws::{
    batches_are_told, fields_are_told, metadata_is_told, prims_are_told, values_are_told,
};
