//! Paths to prims and properties of a scene, with variant selections.
//!
//! A path is a list of elements from the root down: names of prims, selections of variants, and at
//! last perhaps the name of a property. `/World/chair{size=big}leg.radius` has five.
#![tactic(auto)]

mod edits;
mod element;
mod fault;
mod looks;
mod path;
mod reader;
mod shared;
mod texts;
mod variants;

pub use element::Element;
pub use fault::PathFault;
pub use looks::is_selection;
pub use path::Path;
pub use reader::{MAX_BYTES, MAX_NAMES};
pub use texts::{path_of, push_path, push_path_text};
pub use variants::is_variant;
