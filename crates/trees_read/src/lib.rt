//! The tree of prims and variants of each layer that a text says is proper, and no list of it is in the making any more.
//!
//! `specs/Names.antt` has the names of what stands below an owner, and `specs/Trees.antt` the trees of layers, whole and while
//! they are read: what is closed has its spec, and what is open is known by its frame. `specs/Stacks.antt` says what the grammar
//! still awaits of prims and variants, and `specs/Drafts.antt` ties it to what is open in a draft. `specs/Laws.antt` says of each
//! text that each of its words keeps that, and what holds of the layer behind the last. `specs/Lists.antt` says it of the lists
//! of fields, connections and targets.
#![tactic(auto)]

mod laws;

pub use laws::{lists_are_closed, trees_are_read};
