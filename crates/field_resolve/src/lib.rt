//! Names and fields of a prim: its children and properties in order, specifier, type, metadata and lists of strings.
#![tactic(auto)]

mod activity;
mod fields;
mod merging;
mod names;
mod strings;

pub use activity::active_names;
pub use fields::{PrimFields, fields_of, prim_fields};
pub use merging::merge_into;
pub use names::{child_names, child_names_of, child_naming, property_names, property_names_of};
pub use strings::{folded_texts, texts_once};
