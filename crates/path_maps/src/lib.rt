//! How the arcs of composition move paths: from the prim that an arc leads to, to the prim that
//! authored it.
#![tactic(auto)]

mod arc_map;
mod kind;
mod moves;
mod same;

pub use arc_map::ArcMap;
pub use kind::ArcKind;
