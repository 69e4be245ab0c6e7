//! A lock whose turns are taken in the order of tickets. The value behind it stands for a list of entries, its history, and each seat
//! knows what it has seen of it and which of its entries are its own.
#![tactic(auto)]

mod calls;
mod desk;
mod rule;
mod seat;
mod view;

pub use desk::{Desk, SplitRefused};
pub use rule::Journalled;
pub use seat::Seat;
