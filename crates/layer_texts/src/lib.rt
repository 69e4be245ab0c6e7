//! The canonical text of a layer is the words that one expects of the layer.
//!
//! `specs/LayerWords.antt` says which words a layer is, and `ListWords`, `FieldWords` and `PropertyWords` beside it which
//! its parts are; `specs/Writable.antt` says of which layers this holds, and `specs/Laws.antt` has the laws, each the
//! clause of a function that does nothing.
#![tactic(auto)]

mod laws;

pub use laws::{
    examples_are_told, layers_are_spelled, lists_are_spelled, metadata_is_spelled,
    parts_are_writable, prims_are_spelled, properties_are_spelled,
};
