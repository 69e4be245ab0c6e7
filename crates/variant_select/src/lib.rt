//! Which variants of a prim are chosen, by rounds over the variant sets that are met.
#![tactic(auto)]

mod met;
mod opinions;
mod round;
mod rounds;

pub use met::{Choices, Met};
pub use opinions::Opinions;
pub use rounds::{MAX_ROUNDS, decide};
