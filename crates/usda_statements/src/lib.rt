//! What the statements of a prim say of its properties, and the value that is being read.
//!
//! Each call that takes a token cites the definition of what the token adds, or of why it is refused.
#![tactic(auto)]

mod heading;
mod open_value;
mod property;

pub use heading::Heading;
pub use open_value::OpenValue;
pub use property::{PropertyDraft, PropertyMarks};
