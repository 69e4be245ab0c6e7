//! Tables of values by key, in the order of keys.
#![tactic(auto)]

mod compare;
mod copied;
mod edits;
mod entries;
mod few;
mod form;
mod insert;
mod one;
mod table;

pub use entries::Entries;
pub use table::OrderedTable;
