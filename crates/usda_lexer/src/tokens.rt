//! The tokens of a source, one after the other.
ghost use Rattle.std.specs.Prelude.{◌≡◌, ◌∷◌, ◌<◌, ◌+◌, ◌-◌, IfOk, IfErr, IfSome, IsTrue, drop, length, Some, None, Ok, Err};
ghost use Rattle.std.specs.Str.{IsCharBoundary};
ghost use Rattle.usda_lexer.specs.Forms.{number_len, EndsIn};
ghost use Rattle.usda_lexer.specs.Words.{found, name_kind, begins_number_word, quoted_or_mark, minus_or_mark, number_or_mark, next_word, left, AnswersNew, AnswersNext, AnswersPeek, Finds, IsAt, StandsAt, StandsIn, word_in_front};

use crate::blanks::gap_len;
use crate::escapes::decimal_of;
use crate::forms::{asset_len, closed_line, number_len, string_len};
use crate::name::name_len;
use crate::token::{LexFault, Token, TokenKind, mark_of};
use std::marker::Model;

/// A token that is no name and no number: `at` is its place, `first` its first byte and `rest` what stands behind that.
fn quoted_or_mark(at: usize, first: u8, rest: &[u8]) -> Result<(TokenKind, usize), LexFault>
    ensures value { result ≡ quoted_or_mark at first rest.now }
    ensures ends { IfOk result (λ f. EndsIn 0 (first ∷ rest.now) f.1) }
    ensures fault { IfErr result (λ e. IsAt at e) }
{
    let (kind, len) = match first {
        b'"' | b'\'' => (TokenKind::String, string_len(first, rest)),
        b'@' => (TokenKind::Asset, asset_len(rest)),
        b'<' => (TokenKind::Path, closed_line(b'>', rest)),
        _ => {
            return match mark_of(first) {
                Some(mark) => Ok((TokenKind::Mark(mark), 1)),
                None => Err(LexFault::BadByte { at }),
            };
        }
    };
    match len {
        Some(len) => Ok((kind, len)),
        None => Err(LexFault::Unclosed { at }),
    }
}

fn name_kind(text: &str) -> TokenKind
    ensures { result ≡ name_kind text.now }
{
    if text == "inf" || text == "nan" {
        TokenKind::Number
    } else {
        TokenKind::Name
    }
}

/// Whether the name in front is `inf` or `nan`.
fn begins_number_word(text: &str) -> bool
    ensures value { result ≡ begins_number_word text.now }
    ensures three { IsTrue result → IsCharBoundary text.now 3 }
{
    let (name, _) = text.split_at(name_len(text));
    name == "inf" || name == "nan"
}

/// A token that is no name and no number written with digits.
fn minus_or_mark(at: usize, text: &str) -> Result<(TokenKind, usize), LexFault>
    ensures value { result ≡ minus_or_mark at text.now }
    ensures boundary { IfOk result (λ f. (0 < f.1) × IsCharBoundary text.now f.1) }
    ensures fault { IfErr result (λ e. IsAt at e) }
{
    let Some((first, rest)) = text.as_bytes().split_first() else {
        return Err(LexFault::BadByte { at });
    };
    if *first == b'-' {
        let (_, word) = text.split_at(1);
        if begins_number_word(word) {
            return Ok((TokenKind::Number, 4));
        }
    }
    quoted_or_mark(at, *first, rest)
}

/// A number, or another token that is no name.
fn number_or_mark(at: usize, text: &str) -> Result<(TokenKind, usize), LexFault>
    ensures value { result ≡ number_or_mark at (number_len text.now) text.now }
    ensures boundary { IfOk result (λ f. (0 < f.1) × IsCharBoundary text.now f.1) }
    ensures fault { IfErr result (λ e. IsAt at e) }
{
    let len = number_len(text.as_bytes());
    if len == 0 {
        return minus_or_mark(at, text);
    }
    let (number, _) = text.split_at(len);
    match decimal_of(number) {
        Some(_) => Ok((TokenKind::Number, len)),
        None => Err(LexFault::NumberTooLong { at }),
    }
}

/// The kind and the length of the token with which the text begins.
#[tactic(auto, unfolding(crate::specs::Words::found))]
fn found(at: usize, text: &str) -> Result<(TokenKind, usize), LexFault>
    ensures value { result ≡ found at text.now }
    ensures boundary { IfOk result (λ f. (0 < f.1) × IsCharBoundary text.now f.1) }
    ensures fault { IfErr result (λ e. IsAt at e) }
{
    let len = name_len(text);
    if len == 0 {
        return number_or_mark(at, text);
    }
    let (name, _) = text.split_at(len);
    Ok((name_kind(name), len))
}

/// The token that stands at a place of the source, before which only blanks and comments stand.
fn token_at<'s>(source: &'s str, start: usize) -> Result<Option<Token<'s>>, LexFault>
    requires { IsCharBoundary source.now start }
    ensures value { Finds result (word_in_front start (drop start source.now)) }
    ensures place { StandsAt result source.now start }
{
    let (_, rest) = source.split_at(start);
    if rest.is_empty() {
        return Ok(None);
    }
    let (kind, len) = found(start, rest)?;
    let (text, _) = rest.split_at(len);
    Ok(Some(Token {
        kind,
        text,
        start,
        end: start + len,
    }))
}

/// The tokens of a source, one after the other.
///
/// A source is any bytes that are UTF-8. Its first line is as any other: `#usda 1.0` is a comment.
#[derive(Debug, Drop)]
pub struct Tokens<'s> {
    source: &'s str,
    at: usize,
}

impl<'s> Model for Tokens<'s> {
    ghost use Rattle.std.specs.Str.{IsCharBoundary};
    ghost use Rattle.usda_lexer.specs.Words.{Lexer};

    ghost Value = { Lexer };

    ghost view = { λ t. record { source = t.source.now; at = t.at } };

    ghost invariant = { λ t. IsCharBoundary t.source.now t.at };
}

impl<'s> Tokens<'s> {
    /// The tokens of a source, none of which is taken yet.
    pub fn new(source: &'s [u8]) -> Result<Tokens<'s>, LexFault>
        ensures { AnswersNew result source.now }
    {
        match str::from_utf8(source) {
            Ok(source) => Ok(Tokens { source, at: 0 }),
            Err(fault) => Err(LexFault::NotUtf8 {
                at: fault.valid_up_to(),
            }),
        }
    }

    /// The next token, which stays; nothing where only blanks and comments are left.
    pub fn peek(&self) -> Result<Option<Token<'s>>, LexFault>
        ensures answer { AnswersPeek result (left self.now) }
        ensures place { StandsIn result self.now }
    {
        self.look()
    }

    /// Takes the next token; nothing where only blanks and comments are left. After a fault nothing is taken, so that each
    /// later call answers it again.
    pub fn next(&mut self) -> Result<Option<Token<'s>>, LexFault>
        ensures answer { AnswersNext result self.old self.new }
        ensures place { StandsIn result self.old }
    {
        match self.look() {
            Ok(Some(token)) => {
                self.at = token.end;
                Ok(Some(token))
            }
            Ok(None) => Ok(None),
            Err(fault) => Err(fault),
        }
    }

    /// How many bytes the source has.
    pub fn source_len(&self) -> usize
        ensures { result ≡ length self.now.source }
    {
        self.source.len()
    }

    /// The next token.
    #[tactic(auto, unfolding(crate::specs::Words::next_word))]
    fn look(&self) -> Result<Option<Token<'s>>, LexFault>
        ensures value { Finds result (next_word self.now.at (drop self.now.at self.now.source)) }
        ensures place { StandsIn result self.now }
        ensures boundary { IfOk result (λ o. IfSome o (λ t. IsCharBoundary self.now.source t.end)) }
    {
        let (_, rest) = self.source.split_at(self.at);
        match gap_len(rest) {
            Ok(gap) => token_at(self.source, self.at + gap),
            Err(gap) => Err(LexFault::Unclosed { at: self.at + gap }),
        }
    }
}
