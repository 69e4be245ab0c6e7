//! Edits of lists: what opinions that replace, delete, add, prepend, append and reorder make of a
//! list.
#![tactic(auto)]

mod edits;
mod exact;
mod op;
mod places;

pub use edits::push_all;
pub use op::{ListOp, firsts_ordered, fold, fold_ordered, once_ordered, reorder, reorder_ordered};
