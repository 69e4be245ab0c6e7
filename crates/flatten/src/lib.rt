//! Flattening: a stage as one layer, without arcs, variant sets and sublayers, and the text of that layer.
#![tactic(auto)]

mod flat;
mod head;
mod prim;

pub use flat::{flatten_layer, flatten_text};
