//! The index at a plain prim path, whether or not the stage has a prim there, and at `/`: the sites from strong to weak, the variants
//! that are chosen there, and the faults of the arcs.
#![tactic(auto)]

mod child;
mod extend;
mod faults;
mod grow;
mod indexing;
mod lower;
mod reading;
mod settling;

pub use child::extended_tree;
pub use faults::faults_once;
pub use grow::{
    MAX_DEPTH, MAX_NODES, MAX_ROUNDS, Payloads, choice_count, first_frame, is_loaded, is_settled,
    next_frame, path_length, tree_at,
};
pub use indexing::{PrimIndex, has_prims_alone, index, index_of};
pub use settling::stage_tree;
