//! The words of a text, one after the other.
ghost use Rattle.std.specs.Prelude.{◌≡◌};
ghost use Rattle.usda_words.specs.Sources.{Begins, Takes, StandsIn, word_of};
ghost use Rattle.usda_words.specs.Words.{kind_behind, word_at, fault_word, unreadable_at};
ghost use Rattle.usda_lexer.specs.Words.{word_of as token_of};

use crate::word::{Before, Word, is_dot, kind_of};
use std::marker::Model;
use usda_grammar::WordKind;
use usda_lexer::{LexFault, Token, TokenKind, Tokens};

/// A word of this kind at its place: no blank and no comment stands round a `.`.
fn kind_behind(before: Before, start: usize, kind: WordKind) -> WordKind
    ensures { result ≡ kind_behind before start kind }
{
    if (before.is_dot || is_dot(kind)) && start != before.end {
        WordKind::Fault
    } else {
        kind
    }
}

fn word_at<'s>(before: Before, token: Token<'s>) -> Word<'s>
    ensures { word_of result ≡ word_at before (token_of token.entry) }
{
    Word {
        kind: kind_behind(before, token.start, kind_of(token.kind, token.text)),
        token: token.kind,
        text: token.text,
        start: token.start,
        too_long: false,
    }
}

fn unreadable_at<'s>(start: usize) -> Word<'s>
    ensures { word_of result ≡ unreadable_at start }
{
    Word {
        kind: WordKind::Fault,
        token: TokenKind::Name,
        text: "",
        start,
        too_long: false,
    }
}

fn fault_word<'s>(before: Before, fault: LexFault) -> Word<'s>
    ensures { word_of result ≡ fault_word before fault }
{
    match fault {
        LexFault::NumberTooLong { at } => Word {
            kind: kind_behind(before, at, WordKind::Number),
            token: TokenKind::Number,
            text: "",
            start: at,
            too_long: true,
        },
        LexFault::NotUtf8 { at } | LexFault::Unclosed { at } | LexFault::BadByte { at } => {
            unreadable_at(at)
        }
    }
}

/// The words of a text, one after the other.
#[derive(Debug, Drop)]
pub struct Words<'s> {
    tokens: Tokens<'s>,
    before: Before,
    is_over: bool,
}

impl<'s> Model for Words<'s> {
    ghost use Rattle.usda_words.specs.Sources.{Source};

    ghost Value = { Source };

    ghost view = { λ w. record { tokens = w.tokens; before = w.before; is_over = w.is_over } };
}

impl<'s> Words<'s> {
    /// The words of a text, none of which is taken yet. The fault is `NotUtf8`: the text is not UTF-8.
    pub fn new(source: &'s [u8]) -> Result<Words<'s>, LexFault>
        ensures { Begins result source.now }
    {
        Ok(Words {
            tokens: Tokens::new(source)?,
            before: Before {
                end: 0,
                is_dot: false,
            },
            is_over: false,
        })
    }

    /// Takes the next word; nothing behind the last, and from then on.
    pub fn next(&mut self) -> Option<Word<'s>>
        ensures answer { Takes result self.old self.new }
        ensures place { StandsIn result self.old }
        // The words are of one source, the one of `new`.
        ensures source { self.new.tokens.source ≡ self.old.tokens.source }
    {
        if self.is_over {
            return None;
        }
        match self.tokens.next() {
            Ok(Some(token)) => {
                let word = word_at(self.before, token);
                self.before = Before {
                    end: token.end,
                    is_dot: is_dot(kind_of(token.kind, token.text)),
                };
                Some(word)
            }
            Ok(None) => None,
            Err(fault) => {
                self.is_over = true;
                Some(fault_word(self.before, fault))
            }
        }
    }
}
