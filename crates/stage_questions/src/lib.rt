//! Questions on a published stage and replies, as they are written.
#![tactic(auto)]

mod answer;
mod lists;
mod question;
mod reply;
mod told;

pub use answer::push_answer;
pub use question::Question;
pub use reply::{push_edit_reply, push_publish_reply};
