//! Which layers come back from their texts, and writing and reading as one call.
//!
//! `specs/Proper.antt` says which layers are proper, in terms of the layer alone. `specs/Laws.antt` has the theorem, that the
//! canonical text of a proper layer says the layer; `read_back` has it as a clause.
#![tactic(auto)]

mod laws;
mod round;

pub use laws::{proper_examples_hold, proper_layers_return, proper_texts_differ};
pub use round::read_back;
