//! The rounds in which composition chooses variants are those of `variant_select`.
//!
//! `specs/Met.antt` says what is met in the tree of a round, as `variant_select` wants it told; `specs/Laws.antt` has the laws, the
//! clause of a function that does nothing.
#![tactic(auto)]

mod laws;

pub use laws::composition_chooses_by_rounds;
