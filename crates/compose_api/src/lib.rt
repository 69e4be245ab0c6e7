//! What the incremental core asks of a composer: places with entries, worlds, and batches that change worlds.
#![tactic(auto)]

mod composer;
mod refused;
mod walk;

pub use composer::{Applied, ApplyRefused, Composed, Composer};
pub use refused::StageRefused;
pub use walk::{stage_items, stage_items_within};
