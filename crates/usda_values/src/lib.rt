//! Values of scene description from tokens: read one token at a time, with or without a type, and given a type later.
#![tactic(auto)]

mod draft;
mod entries;
mod fault;
mod level;
mod path_text;
mod read;
mod scalar;
mod shape;
mod shaping;

pub use draft::ValueDraft;
pub use entries::Entries;
pub use fault::{PartFault, ValueFault};
pub use level::{Bracket, Level, Place};
pub use path_text::begins_up;
pub use read::{read_dict, read_shaped, read_value};
pub use scalar::{by_value, finite_time, whole_of};
pub use shape::Shape;
pub use shaping::take_shape;
