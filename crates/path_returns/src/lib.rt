//! A path that is printed is read as itself wherever it stands.
//!
//! `specs/Returns.antt` says what holds of the printed text of a path; each law is the clause of a function that does nothing.
#![tactic(auto)]

mod laws;

pub use laws::{
    path_texts_are_paths, path_texts_are_read, path_texts_are_utf8, paths_return, targets_return,
    value_paths_return,
};
