//! Prims of a stage as its versions hold them: a version that keeps a prim shares its composed view with the version before.
//!
//! The crate knows composed prims. It must never know how they are composed, nor how a stage is published.
#![tactic(auto)]

mod entry;

pub use entry::StageEntry;
