//! What is printed of a value is read as that value.
//!
//! `specs/Writable.antt` says which values have a text that is their own tokens, `specs/Readable.antt` which of them are
//! read as themselves where something is expected of them, and `specs/Laws.antt` and `specs/Pieces.antt` the laws, each
//! the clause of a function that does nothing. `printed_and_read` and `dictionary_printed_and_read` are the calls that do
//! something.
#![tactic(auto)]

mod back;
mod laws;

pub use back::{dictionary_printed_and_read, printed_and_read};
pub use laws::{
    dictionaries_are_read, examples_are_told, names_are_quoted_plainly, pieces_are_tokens,
    sources_are_read, tokens_are_meant, typed_values_are_read, types_are_read, values_are_given,
    values_are_read, values_are_tokens, values_are_words, values_follow_the_grammar,
};
