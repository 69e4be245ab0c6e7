//! Batches of edits on worlds: applied whole or refused whole.
#![tactic(auto)]

mod batches;
mod layers;
mod worlds;

pub use batches::edited_world;
