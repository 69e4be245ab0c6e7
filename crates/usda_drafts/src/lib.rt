//! The draft of a layer of the whole text format: what is read so far, and what each token adds to it.
//!
//! `Draft::act` takes a word by the symbol of the grammar that takes it. Each call cites the definition of what the word adds, or of why
//! it is refused and where.
#![tactic(auto)]

mod acts;
mod aim;
mod bodies;
mod draft;
mod fault;
mod head;
mod lists;
mod metadata;
mod owner;
mod places;
mod prims;
mod table;
mod values;

pub use aim::{Aim, Goal};
pub use draft::{Draft, OpenList, Opening};
pub use fault::{ActFault, Refused};
pub use owner::Owner;
