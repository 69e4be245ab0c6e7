//! What an owner says in its metadata and its orders is proper, whatever a text says of it. An owner is a prim, a variant or
//! the layer.
//!
//! `specs/Sound.antt` says when that is so of an owner that is being read, also while one of its lists is open, and
//! `specs/Lists.antt` when it is so of the lists of a field. `specs/Laws.antt` has the laws: it is so of an owner of which
//! nothing is read yet, each act of the reader keeps it so, and where no list is open the fields are those that a layer may
//! hold. Each law is the clause of a function that does nothing.
#![tactic(auto)]

mod laws;

pub use laws::{
    owners_begin_sound, read_keys_are_proper, read_lists_are_proper, read_metadata_is_proper,
    said_is_proper, selections_and_orders_are_read, sublayers_are_read,
};
