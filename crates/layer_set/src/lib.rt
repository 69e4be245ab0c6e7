//! Worlds: layers by name and load rules by path, and the keys by which composition looks at them.
#![tactic(auto)]

mod assets;
mod held;
mod key;
mod named;
mod rules;
mod same;
mod shared;
mod world;

pub use assets::anchored;
pub use held::Held;
pub use key::Key;
pub use world::{MAX_LAYER_NAMES, World};
