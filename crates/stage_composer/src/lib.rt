//! The composer of stages: prims of worlds of layers, and the batches that edit such worlds.
#![tactic(auto)]

mod composer;
mod index;

pub use composer::UsdComposer;
pub use index::StageIndex;
pub use prim_compose::compose_prim;
