//! Questions on a published stage. None of them takes memory.
#![tactic(auto)]

mod answer;
mod property;
mod questions;

pub use answer::Answer;
pub use questions::{children_of, default_of, samples_of, targets_of, value_at, view_of};
