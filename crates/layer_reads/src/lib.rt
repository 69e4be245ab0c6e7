//! Taking the words of a layer's parts makes the draft that one expects of the parts: of values and lists, of the metadata of prims and layers,
//! of properties, prims and variants.
//!
//! `specs/Taking.antt` says what it is to take words, `specs/Standing.antt` where a draft stands between two statements, `specs/Items.antt`
//! what it is to take statements one behind the other, and `specs/Bodies.antt` where a draft stands between two statements of a body. The laws
//! (`specs/Laws.antt`, `specs/MetadataLaws.antt`, `specs/Bodies.antt`, `specs/Properties.antt`) are each the clause of a function that does nothing.
#![tactic(auto)]

mod laws;

pub use laws::{
    field_lists_are_taken, fields_are_opened, keys_are_read, lines_are_taken, lists_are_read,
    metadata_is_read, orders_are_read, prims_are_read, properties_are_read, values_are_stepped,
    values_are_taken, variants_are_read,
};
