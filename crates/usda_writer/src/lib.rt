//! Writes layers as text: each layer as its one canonical text.
//!
//! The text is a function of the layer, `specs/Canonical.antt`. It is one text among those that are read as the layer.
#![tactic(auto)]

mod body;
mod fields;
mod laws;
mod lists;
mod properties;
mod texts;
mod write;

pub use laws::examples_are_told;
pub use write::write_layer;
