//! Targets and connections: each translated towards the stage through the arcs of its site, and then folded.
#![tactic(auto)]

mod edits;
mod targets;
mod translate;

pub use targets::{TargetList, resolve_targets, resolve_targets_by};
