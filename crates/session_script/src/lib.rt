//! The script of a session, read line by line from a source in whatever pieces it comes.
#![tactic(auto)]

mod faults;
mod front;
mod moves;
mod script;
mod steps;

pub use faults::{ScriptFault, ScriptKind};
pub use script::Script;
pub use steps::Step;
