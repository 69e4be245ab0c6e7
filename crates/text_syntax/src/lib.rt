//! Why words of a text are refused as `Syntax` though some text of the grammar goes on with them.
//!
//! `specs/Open.antt` ties the draft of a layer to the grammar: while a value is open, what the grammar awaits is what the
//! draft of the value awaits. So a word of a value is refused only for a path that is none. `specs/Elsewhere.antt` has the
//! rules for the other words, and `specs/Reasons.antt` says it of each text.
#![tactic(auto)]

mod laws;

pub use laws::{open_values_follow_the_grammar, other_words_have_rules, refusals_have_reasons};
