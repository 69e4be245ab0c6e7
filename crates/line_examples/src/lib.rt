//! Examples of what the definitions of a session's script give: lines, questions, operations and whole scripts.
//!
//! Each example is an equation on closed terms that the prover computes. They stand apart from the crates whose definitions they
//! show, so that those need no proof anew.
#![tactic(auto)]

mod laws;

pub use laws::{lines_are_told, operations_are_told, questions_are_told, scripts_are_told};
