//! Examples of what the definitions give: tokens, values, lists, paths, list edits and refusals.
//!
//! Each example is an equation or a fact on closed terms that the prover computes. They stand apart from the crates whose
//! definitions they show, so that those need no proof anew.
#![tactic(auto)]

mod laws;

pub use laws::{
    list_edits_are_told, lists_are_told, paths_are_told, refusals_are_told, tokens_are_told,
    values_are_told,
};
