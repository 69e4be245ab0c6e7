//! Tables of values by key, in the order of keys, whose copies share what did not change.
#![tactic(auto)]

mod compare;
mod entries;
mod entry;
mod exchange;
mod insert;
mod node;
mod remove;
mod search;
mod table;

pub use entries::Entries;
pub use table::SharedTable;
