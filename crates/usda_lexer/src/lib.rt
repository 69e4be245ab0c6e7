//! The tokens of the whole text format.
//!
//! A token's text is a part of the source, and nothing is copied. No call of [`Tokens`] takes memory. Contracts see the
//! tokens as their source and the place up to which they were taken; `left` are the tokens from there on.
#![tactic(auto)]

mod blanks;
mod escapes;
mod forms;
mod laws;
mod name;
mod place;
mod token;
mod tokens;

pub use blanks::{begins, is_blank};
pub use escapes::{asset_text, decimal_of, number_of, path_text, string_text};
pub use laws::{comments_end_with_their_line, gaps_are_gone_over};
pub use place::{Place, place_of};
pub use token::{LexFault, Mark, Token, TokenKind};
pub use tokens::Tokens;
