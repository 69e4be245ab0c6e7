//! What is taken of a value as one of a type is a value of the type and means the same.
//!
//! `specs/Meanings.antt` says when one value means what another does, `specs/Laws.antt` the laws, each the clause of a
//! function that does nothing.
#![tactic(auto)]

mod held;
mod laws;
mod shaped;

pub use held::numbers_are_held;
pub use laws::{
    meanings_are_apart, taken_values_are_of_the_meaning, taken_values_are_of_the_type,
    taken_values_are_the_only, taken_values_stay, typed_values_are_of_the_type,
    values_of_the_type_are_kept,
};
pub use shaped::{read_of_type, value_of_type};
