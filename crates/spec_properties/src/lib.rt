//! Properties of scene description: metadata, samples and selections as tables, and properties by name in their order.
#![tactic(auto)]

mod names;
mod properties;
mod property;
mod small;

pub use properties::Properties;
pub use property::Property;
pub use small::{Meta, Samples, Selections};
