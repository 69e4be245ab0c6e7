//! The words of a layer's text: its tokens, each with its kind for the grammar.
//!
//! What is no token is a word too, the last one: with it no text goes on, or it is a number that is too long. So a text has
//! words whatever it says, as long as it is UTF-8.
#![tactic(auto)]

mod laws;
mod word;
mod words;

pub use laws::examples_are_told;
pub use word::Word;
pub use words::Words;
