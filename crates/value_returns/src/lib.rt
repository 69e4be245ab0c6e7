//! Which values, metadata and properties come back from the text of a layer, in terms of them alone.
//!
//! `specs/Proper.antt` says which values, keys and properties are proper, `specs/Fields.antt` which lists, and
//! `specs/FullPaths.antt` which paths in values; nothing there depends on the prim that says them. `specs/Laws.antt` has the
//! laws, each the clause of a function that does nothing.
#![tactic(auto)]

mod laws;

pub use laws::{
    examples_are_proper, full_paths_are_fixed, prints_are_full, proper_fields_are_kept,
    proper_head_keys_are_kept, proper_metadata_is_kept, proper_properties_are_kept,
    proper_values_are_kept, read_values_have_members, typed_values_are_shallow,
    typed_values_have_full_paths,
};
