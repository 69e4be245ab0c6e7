//! What the layers of a stack author at a path: arcs, variant sets and selections.
#![tactic(auto)]

mod arcs;
mod authored;
mod authors;
mod edits;
mod entry;
mod offset;
mod opinion;
mod ordered;
mod outcome;
mod reads;
mod stacks;
mod target;

pub use arcs::{ArcItem, ArcsHere, arcs_at};
pub use authored::{
    authored_in, has_spec_at, selections_at, selections_in, variant_sets_at, variant_sets_in,
};
pub use opinion::{LayerOpinion, opinions};
pub use stacks::stack_of;
