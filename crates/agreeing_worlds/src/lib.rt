//! What a prim reads covers what is made of it.
//!
//! `specs/Laws.antt` says that worlds that agree on the keys that a path reads have the same view of it and that it reads the same in both, and
//! `specs/Since.antt` that a prim's view is the same in all versions since its date: the clauses of functions that do nothing. So a view may be
//! kept until one of the keys that it read changes.
#![tactic(auto)]

mod laws;

pub use laws::{a_view_is_as_it_is_since_its_date, what_is_read_covers_the_view};
