//! A stage that is kept while its layers are edited is the stage that is composed from scratch.
//!
//! `specs/Machine.antt` says what is kept and what befalls it; `specs/Laws.antt` says that after any events what is kept is right, and that what
//! is published of it is the stage of the world after the batches that were accepted: the clauses of functions that do nothing.
#![tactic(auto)]

mod laws;

pub use laws::{
    a_comparison_tells_changes_exactly, a_kept_stage_is_the_composed_one,
    the_dates_of_a_kept_stage_are_right, views_are_dated_by_what_they_read,
    views_are_settled_by_what_they_read,
};
