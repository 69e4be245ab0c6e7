//! Edits of worlds: operations, batches of them, and why one is refused.
//!
//! What an operation makes of a layer is told by `layer_edit`, and what a batch makes of a world by `layer_apply`.
#![tactic(auto)]

mod batch;
mod fault;
mod op;
mod written;

pub use batch::Batch;
pub use fault::{EditFault, EditRefused, OpRefused};
pub use op::{FieldList, Op};
pub use usda_fields::{OrderWord, PathField, ReferenceField, TextField};
pub use usda_lists::ListEdit;
pub use written::{WrittenOffset, WrittenReference, WrittenSubLayer};
