//! Laws of strength in the words of a USD engineer, over the definition of the strength order: LIVRPS, specializes last, each site once,
//! each node at a site.
//!
//! `specs/Laws.antt` has the laws, each the clause of a function that does nothing. The crate knows `composition` alone, and no program
//! stands on it.
#![tactic(auto)]

mod laws;

pub use laws::{
    each_node_stands_at_a_site, each_site_stands_once, specializes_come_last, strength_is_livrps,
};
