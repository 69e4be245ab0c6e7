//! The canonical text of a layer passes the checks that stand before its first word.
//!
//! `specs/Utf8.antt` says of which layers this holds, beside that they can be written; `specs/Laws.antt` has the laws, each the
//! clause of a function that does nothing.
#![tactic(auto)]

mod laws;

pub use laws::{examples_are_told, texts_are_utf8, texts_pass, utf8_texts_pass};
