//! The core of a session: a world, the history of all calls on it, and the stages that are published.
#![tactic(auto)]

mod above;
mod arrive;
mod cache;
mod core_state;
mod differences;
mod history;
mod kept;
mod publish;
mod walk;

pub use core_state::Core;
pub use history::{EditReply, HistoryEntry, MAX_EDITS};
pub use publish::{Items, PublishReply};
