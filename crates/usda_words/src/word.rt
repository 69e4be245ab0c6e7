//! What a word is.
ghost use Rattle.std.specs.Prelude.{◌≡◌};
ghost use Rattle.usda_words.specs.Words.{kind_of, kind_of_mark, is_dot};

use usda_grammar::{WordKind, kind_of_word};
use usda_lexer::{Mark, TokenKind};

/// A word of a text.
#[derive(Clone, Copy, Debug)]
pub struct Word<'s> {
    /// What the word is to the grammar: `Fault` where no text goes on with it wherever it stands.
    pub kind: WordKind,
    /// What it is as a token; a name where it is none.
    pub token: TokenKind,
    /// The word as it is written; empty where it is no token, and of a number that is too long.
    pub text: &'s str,
    /// The number of its first byte in the text, from 0.
    pub start: usize,
    /// Whether it is a number with more than 34 digits or an exponent beyond 400, which no value keeps.
    pub too_long: bool,
}

/// What stands before a word.
#[derive(Clone, Copy, Debug)]
pub struct Before {
    /// Where the word before ends.
    pub end: usize,
    /// Whether that is a `.`.
    pub is_dot: bool,
}

fn kind_of_mark(mark: Mark) -> WordKind
    ensures { result ≡ kind_of_mark mark }
{
    match mark {
        Mark::OpenParen => WordKind::OpenParen,
        Mark::CloseParen => WordKind::CloseParen,
        Mark::OpenBrace => WordKind::OpenBrace,
        Mark::CloseBrace => WordKind::CloseBrace,
        Mark::OpenBracket => WordKind::OpenBracket,
        Mark::CloseBracket => WordKind::CloseBracket,
        Mark::Equals => WordKind::Equals,
        Mark::Comma => WordKind::Comma,
        Mark::Semicolon => WordKind::Semicolon,
        Mark::Colon => WordKind::Colon,
        Mark::Dot => WordKind::Dot,
    }
}

/// What a token is to the grammar.
pub fn kind_of(form: TokenKind, text: &str) -> WordKind
    ensures { result ≡ kind_of form text.now }
{
    match form {
        TokenKind::Name => kind_of_word(text),
        TokenKind::Number => WordKind::Number,
        TokenKind::String => WordKind::Quoted,
        TokenKind::Asset => WordKind::Asset,
        TokenKind::Path => WordKind::Path,
        TokenKind::Mark(mark) => kind_of_mark(mark),
    }
}

/// Whether a token is a `.`.
pub fn is_dot(kind: WordKind) -> bool
    ensures { result ≡ is_dot kind }
{
    match kind {
        WordKind::Dot => true,
        _ => false,
    }
}
