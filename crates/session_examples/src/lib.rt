//! Examples of what the definition of a session gives: the replies to batches, publishes and questions, one after the other.
//!
//! Each example is an equation on closed terms that the prover computes, the stage composed with it. They stand apart from the crates
//! whose definitions they show, so that those need no proof anew.
#![tactic(auto)]

mod laws;

pub use laws::sessions_are_told;
