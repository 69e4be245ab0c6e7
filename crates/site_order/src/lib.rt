//! What is told of the finished tree of a prim: its nodes from strong to weak, its sites, the variants that they choose, and the
//! faults of its arcs.
#![tactic(auto)]

mod best;
mod deciding;
mod faults;
mod keeping;
mod order;
mod ranks;
mod sizes;
mod tables;

pub use deciding::{decided, find_choice};
pub use faults::arc_faults;
pub use keeping::sites;
pub use sizes::{is_overgrown_on_the_way, size};
pub use tables::{ChoiceTable, choice_table};
