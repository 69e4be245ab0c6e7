//! A table of places and of the keys that each was made from, which finds the places of changed keys without a walk over the others.
#![tactic(auto)]

mod collect;
mod links;
mod table;

pub use table::Table;
