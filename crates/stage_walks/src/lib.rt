//! The stage by which the program walks is the stage of composition.
//!
//! Both are lists of paths with their views, made by walks of so many levels. `specs/Laws.antt` says that they are one list, and that no
//! bound on levels leaves anything out of it: the clauses of functions that do nothing.
#![tactic(auto)]

mod laws;

pub use laws::{the_program_walks_the_stage, the_stage_is_whole};
