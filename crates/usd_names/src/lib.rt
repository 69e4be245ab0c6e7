//! The names of scene description: which characters and which texts are identifiers, names joined by colons, and names of variants.
#![tactic(auto)]

mod names;

pub use names::{
    goes_on, is_continue, is_identifier, is_name, is_number_word, is_start, is_variant_character,
};
