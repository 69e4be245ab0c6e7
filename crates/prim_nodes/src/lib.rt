//! What composition visits for a prim: nodes, the arcs that their layers author, and which of them are followed.
//!
//! The types are plain data; what they mean is said by the definitions of composition, which are written over them.
#![tactic(auto)]

mod arcs;
mod exact;
mod here;
mod node;

pub use arcs::{Authored, Branch, Lead, Outcome};
pub use here::{Chosen, Here, Tried};
pub use node::{Frame, Node};
