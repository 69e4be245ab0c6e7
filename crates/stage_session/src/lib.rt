//! A session on a world of layers: batches, publishes, and questions on the stage that was published last.
#![tactic(auto)]

mod flat;
mod session;

pub use flat::flatten_world;
pub use session::{MAX_PATHS, Session};
