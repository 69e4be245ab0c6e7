//! Calls on tokens and what they mean.

use crate::fault::CallFault;
use crate::printing::push_word;
use sdf_values::Num;
use std::alloc::{AllocError, Global};
use std::fmt::Write;
use usda_lexer::{
    LexFault, Token, TokenKind, Tokens, asset_text, number_of, path_text, place_of, string_text,
};

/// The letter of a kind.
fn letter_of(kind: TokenKind) -> &'static str {
    match kind {
        TokenKind::Name => "N",
        TokenKind::Number => "#",
        TokenKind::String => "S",
        TokenKind::Asset => "A",
        TokenKind::Path => "P",
        TokenKind::Mark(_) => "M",
    }
}

/// Appends why there is no further token.
fn push_fault(out: &mut String, fault: LexFault) -> Result<(), AllocError> {
    let (name, at) = match fault {
        LexFault::NotUtf8 { at } => ("NotUtf8", at),
        LexFault::Unclosed { at } => ("Unclosed", at),
        LexFault::BadByte { at } => ("BadByte", at),
        LexFault::NumberTooLong { at } => ("NumberTooLong", at),
    };
    write!(out, "{name} {at}")
}

/// Appends the tokens of a source, up to the first fault.
fn push_tokens(out: &mut String, source: &[u8]) -> Result<Result<(), LexFault>, AllocError> {
    let mut tokens = match Tokens::new(source) {
        Ok(tokens) => tokens,
        Err(fault) => return Ok(Err(fault)),
    };
    for _step in 0..source.len().saturating_add(1) {
        match tokens.next() {
            Ok(Some(token)) => {
                out.push_str(letter_of(token.kind))?;
                out.push_str(token.text)?;
                out.push_str("|")?;
            }
            Ok(None) => return Ok(Ok(())),
            Err(fault) => return Ok(Err(fault)),
        }
    }
    Ok(Ok(()))
}

/// `tokens`: the tokens of the text, each as its kind's letter and its text before a bar, and then the fault.
pub(crate) fn push_tokens_call(out: &mut String, source: &[u8]) -> Result<(), CallFault> {
    if let Err(fault) = push_tokens(out, source)? {
        push_fault(out, fault)?;
    }
    Ok(push_word(out, "")?)
}

/// Appends the kind and the place of a token, or that there is none.
fn push_place(
    out: &mut String,
    answer: Result<Option<Token<'_>>, LexFault>,
) -> Result<(), AllocError> {
    match answer {
        Ok(Some(token)) => write!(out, "{:?} {} {}", token.kind, token.start, token.end),
        Ok(None) => out.push_str("end"),
        Err(fault) => push_fault(out, fault),
    }
}

/// `places TIMES`: the next token as it is looked at and as it is taken, so many times.
pub(crate) fn push_places_call(
    out: &mut String,
    words: &str,
    source: &[u8],
) -> Result<(), CallFault> {
    let (Ok(times), Ok(tokens)) = (words.parse::<usize>(), Tokens::new(source)) else {
        return Err(CallFault::Bad);
    };
    let mut tokens = tokens;
    for _step in 0..times {
        push_place(out, tokens.peek())?;
        out.push_str(", ")?;
        push_place(out, tokens.next())?;
        push_word(out, "")?;
    }
    Ok(())
}

/// `meaning string`, `meaning asset` and `meaning path`: what such a token means, `-` where that is no UTF-8.
pub(crate) fn push_meaning_call(
    alloc: Global,
    out: &mut String,
    words: &str,
    token: &str,
) -> Result<(), CallFault> {
    match words {
        "string" => match string_text(alloc, token)? {
            Some(text) => Ok(push_word(out, text.as_str())?),
            None => Ok(push_word(out, "-")?),
        },
        "asset" => Ok(push_word(out, asset_text(token))?),
        _ => Ok(push_word(out, path_text(token))?),
    }
}

/// `numeral`: the number that a token is, by its parts and in print, or `none`.
pub(crate) fn push_numeral_call(
    alloc: Global,
    out: &mut String,
    token: &str,
) -> Result<(), CallFault> {
    let Some(number) = number_of(token) else {
        return Ok(push_word(out, "none")?);
    };
    match number {
        Num::Finite(decimal) => write!(out, "{} {}", decimal.digits, decimal.exp)?,
        Num::Inf => out.push_str("Inf")?,
        Num::NegInf => out.push_str("NegInf")?,
        Num::Nan => out.push_str("Nan")?,
    }
    out.push_str(" ")?;
    Ok(push_word(out, number.print(alloc)?.as_str())?)
}

/// `place AT`: the line and the column of a byte.
pub(crate) fn push_place_call(
    out: &mut String,
    words: &str,
    source: &[u8],
) -> Result<(), CallFault> {
    let Ok(at) = words.parse::<usize>() else {
        return Err(CallFault::Bad);
    };
    let place = place_of(source, at);
    Ok(writeln!(out, "{}:{}", place.line, place.column)?)
}
