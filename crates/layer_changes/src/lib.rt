//! Batches of edits on worlds, with the keys that they change.
#![tactic(auto)]

mod applying;
mod differing;
mod growing;
mod named;
mod part;
mod parts;
mod trees;

pub use applying::{Applied, apply};
