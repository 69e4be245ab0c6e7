//! The grammar of a layer's text, over kinds of tokens: what may come next, and that this is the grammar.
//!
//! A text is read with a stack of symbols, the next one on top. A token is taken by the first symbol that may begin with
//! it, where each symbol above that one may be absent; then the symbols that `starts` tells stand in its place. The text
//! may end where all symbols that are left may be absent.
#![tactic(auto)]

mod kinds;
mod laws;
mod layers;
mod prims;
mod properties;
mod symbols;
mod table;
mod values;

pub use kinds::{Keyword, WordKind, keyword_of, kind_of_word};
pub use laws::{
    accepted_is_text, examples_are_told, refused_has_no_text, taken_has_text,
    text_has_one_derivation,
};
pub use symbols::Symbol;
pub use table::{layer, may_be_absent, starts};
