//! What is listed of a prim's reads is what settles it.
//!
//! `specs/Laws.antt` says that the list has exactly the keys that a path reads, in order, and that worlds which agree at these keys have the
//! same view of the path and the same list: the clause of a function that does nothing. It must never know how the list is made.
#![tactic(auto)]

mod laws;

pub use laws::what_is_listed_settles_a_view;
