//! Operations of edits on one layer: what each makes of it, and what is judged before.
//!
//! Each operation judges all its faults before it changes anything: one that is refused with a fault leaves the layer as it was. Where
//! memory runs out, `set_sublayers` leaves the layer so too. Any other may by then have taken a spec out to change it, and nothing is
//! said of the layer: its owner gives it up, as `layer_apply` does with the copy of the world that a batch is tried on.
#![tactic(auto)]

mod change;
mod fields;
mod kinds;
mod metadata;
mod names;
mod offsets;
mod places;
mod prims;
mod properties;
mod property_changes;
mod spec_changes;
mod typing;

pub use fields::{set_list, set_order, set_selection, set_sublayers};
pub use kinds::is_plain_prim;
pub use metadata::{clear_meta, set_meta};
pub use places::above;
pub use prims::{add_prim, add_variant, remove};
pub use properties::{
    add_attribute, add_relationship, clear_default, clear_sample, set_default, set_sample,
};
