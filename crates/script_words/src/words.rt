//! The words of a line: what stands in front, and the bytes behind it.
ghost use Rattle.std.specs.Prelude.{◌≡◌, ◌≤◌, IfSome, drop, length, slice_range};
ghost use Rattle.std.specs.Option.{option_copied, option_map};
ghost use Rattle.usda_lexer.specs.Blanks.{IsGap};
ghost use Rattle.usda_lexer.specs.Meanings.{string_text};
ghost use Rattle.usda_lexer.specs.Words.{left, word_of};
ghost use Rattle.script_words.specs.Answers.{Finds, FindsAs};
ghost use Rattle.script_words.specs.Words.{lexer_of, token_at, is_over, is_end, ended, layer_named, name_at, text_at, number_at, layer_at, stop_of, run_len, path_in, run_path, path_start, path_at, behind_word, flag_at};

use crate::fault::LineFault;
use asset_names::{AssetFault, AssetId};
use plain_data::Text;
use sdf_paths::{Path, path_of};
use sdf_values::Num;
use std::alloc::Global;
use usda_lexer::{
    LexFault, Token, TokenKind, Tokens, asset_text, is_blank, number_of, string_text,
};

/// The tokens of the bytes; nothing where these are not UTF-8.
#[tactic(auto, unfolding(crate::specs::Words::lexer_of))]
pub fn tokens_of(bytes: &[u8]) -> Option<Tokens<'_>>
    ensures tokens { result ≡ lexer_of bytes.now }
    ensures source { IfSome result (λ t. t.source ≡ bytes.now) }
{
    match Tokens::new(bytes) {
        Ok(tokens) => Some(tokens),
        Err(_) => None,
    }
}

/// The first token, and the bytes behind it.
#[tactic(auto, unfolding(crate::specs::Words::token_at))]
fn token_at(bytes: &[u8]) -> Option<(Token<'_>, &[u8])>
    ensures { option_map (λ x. (word_of x.0, x.1.now)) result ≡ token_at bytes.now }
{
    let mut tokens = tokens_of(bytes)?;
    match tokens.next() {
        Ok(Some(token)) => Some((token, &bytes[token.end..])),
        Ok(None) => None,
        Err(_) => None,
    }
}

/// Whether no token and no fault is left.
fn is_over(tokens: &Tokens<'_>) -> bool
    ensures { result ≡ is_over (left tokens.now) }
{
    match tokens.peek() {
        Ok(Some(_)) => false,
        Ok(None) => true,
        Err(_) => false,
    }
}

/// Whether nothing but blanks and comments stands there.
#[tactic(auto, unfolding(crate::specs::Words::is_end))]
pub fn is_end(bytes: &[u8]) -> bool
    ensures { result ≡ is_end bytes.now }
{
    match tokens_of(bytes) {
        Some(tokens) => is_over(&tokens),
        None => false,
    }
}

/// The value, where nothing but blanks and comments follows.
#[tactic(auto, unfolding(crate::specs::Words::ended))]
pub fn ended<X: Drop>(x: X, bytes: &[u8]) -> Result<X, LineFault>
    ensures { Finds result (ended x bytes.now) }
{
    if is_end(bytes) {
        Ok(x)
    } else {
        Err(LineFault::Bad)
    }
}

/// A name, and the bytes behind it.
#[tactic(auto, unfolding(crate::specs::Words::name_at))]
pub fn name_at(bytes: &[u8]) -> Result<(&str, &[u8]), LineFault>
    ensures { FindsAs (λ x. (x.0.now, x.1.now)) result (name_at bytes.now) }
{
    let (token, rest) = token_at(bytes).ok_or(LineFault::Bad)?;
    match token.kind {
        TokenKind::Name => Ok((token.text, rest)),
        _ => Err(LineFault::Bad),
    }
}

/// The text that a string token stands for.
fn string_of(alloc: Global, token: &str) -> Result<Text, LineFault>
    ensures { Finds result (string_text token.now) }
{
    match string_text(alloc, token)? {
        Some(text) => Ok(text),
        None => Err(LineFault::Bad),
    }
}

/// What a string stands for, and the bytes behind it.
#[tactic(auto, unfolding(crate::specs::Words::text_at))]
pub fn text_at(alloc: Global, bytes: &[u8]) -> Result<(Text, &[u8]), LineFault>
    ensures { FindsAs (λ x. (x.0, x.1.now)) result (text_at bytes.now) }
{
    let (token, rest) = token_at(bytes).ok_or(LineFault::Bad)?;
    match token.kind {
        TokenKind::String => {
            let text = string_of(alloc, token.text)?;
            Ok((text, rest))
        }
        _ => Err(LineFault::Bad),
    }
}

/// A number, and the bytes behind it.
#[tactic(auto, unfolding(crate::specs::Words::number_at))]
pub fn number_at(bytes: &[u8]) -> Result<(Num, &[u8]), LineFault>
    ensures { FindsAs (λ x. (x.0, x.1.now)) result (number_at bytes.now) }
{
    let (token, rest) = token_at(bytes).ok_or(LineFault::Bad)?;
    match token.kind {
        TokenKind::Number => match number_of(token.text) {
            Some(number) => Ok((number, rest)),
            None => Err(LineFault::Bad),
        },
        _ => Err(LineFault::Bad),
    }
}

/// The name of a layer that a text gives by itself, as the words of a line and of a command name layers.
///
/// # Errors
///
/// `Bad` where the text is no name of a layer. `NoMemory` where memory ran out.
pub fn layer_named(alloc: Global, text: &str) -> Result<AssetId, LineFault>
    ensures { Finds result (layer_named text.now) }
{
    match AssetId::of_word(alloc, text) {
        Ok(layer) => Ok(layer),
        Err(AssetFault::BadAsset { at: _ }) => Err(LineFault::Bad),
        Err(AssetFault::NoMemory) => Err(LineFault::NoMemory),
    }
}

/// An asset that names a layer from the working folder, and the bytes behind it.
#[tactic(auto, unfolding(crate::specs::Words::layer_at))]
pub fn layer_at(alloc: Global, bytes: &[u8]) -> Result<(AssetId, &[u8]), LineFault>
    ensures { FindsAs (λ x. (x.0, x.1.now)) result (layer_at bytes.now) }
{
    let (token, rest) = token_at(bytes).ok_or(LineFault::Bad)?;
    match token.kind {
        TokenKind::Asset => {
            let layer = layer_named(alloc, asset_text(token.text))?;
            Ok((layer, rest))
        }
        _ => Err(LineFault::Bad),
    }
}

/// How far it is to the next blank.
fn run_len(bytes: &[u8]) -> usize
    ensures value { result ≡ run_len bytes.now }
    ensures within { result ≤ length bytes.now }
{
    for (i, c) in bytes.iter().enumerate() {
        if is_blank(*c) {
            return i;
        }
    }
    bytes.len()
}

/// The path of these bytes, from the root down.
#[tactic(auto, unfolding(crate::specs::Words::path_in))]
fn path_in(alloc: Global, run: &[u8]) -> Result<Path, LineFault>
    ensures { Finds result (path_in run.now) }
{
    match str::from_utf8(run) {
        Ok(text) => match path_of(alloc, text)? {
            Some(path) => Ok(path),
            None => Err(LineFault::Bad),
        },
        Err(_) => Err(LineFault::Bad),
    }
}

/// The bytes up to the next blank as a path.
#[tactic(auto, unfolding(crate::specs::Words::run_path))]
fn run_path(alloc: Global, bytes: &[u8]) -> Result<(Path, &[u8]), LineFault>
    ensures { FindsAs (λ x. (x.0, x.1.now)) result (run_path bytes.now) }
{
    let (run, rest) = bytes.split_at(run_len(bytes));
    let path = path_in(alloc, run)?;
    Ok((path, rest))
}

/// Where the byte stands that begins no token, where no token stands before it.
fn stop_of(tokens: &Tokens<'_>) -> Option<usize>
    ensures value { result ≡ stop_of (left tokens.now) }
    ensures within { IfSome result (λ at. at ≤ length tokens.now.source) }
    ensures gap { IfSome result (λ at. IsGap (slice_range tokens.now.source tokens.now.at at) (drop at tokens.now.source)) }
{
    match tokens.peek() {
        Err(LexFault::BadByte { at }) => Some(at),
        _ => None,
    }
}

/// Where the byte stands that begins no token. Only blanks and comments stand before it.
#[tactic(auto, unfolding(crate::specs::Words::path_start, crate::specs::Words::lexer_of))]
fn path_start(bytes: &[u8]) -> Option<usize>
    ensures value { result ≡ path_start bytes.now }
    ensures within { IfSome result (λ at. at ≤ length bytes.now) }
    ensures gap { IfSome result (λ at. IsGap (slice_range bytes.now 0 at) (drop at bytes.now)) }
{
    match Tokens::new(bytes) {
        Ok(tokens) => stop_of(&tokens),
        Err(_) => None,
    }
}

/// A path, which goes to the next blank, and the bytes behind it.
#[tactic(auto, unfolding(crate::specs::Words::path_at))]
pub fn path_at(alloc: Global, bytes: &[u8]) -> Result<(Path, &[u8]), LineFault>
    ensures { FindsAs (λ x. (x.0, x.1.now)) result (path_at bytes.now) }
{
    let at = path_start(bytes).ok_or(LineFault::Bad)?;
    run_path(alloc, &bytes[at..])
}

/// The bytes behind a token that is written so; nothing where none stands in front.
#[tactic(auto, unfolding(crate::specs::Words::behind_word))]
pub fn behind_word<'s>(word: &str, bytes: &'s [u8]) -> Option<&'s [u8]>
    ensures { option_copied result ≡ behind_word word.now bytes.now }
{
    let (token, rest) = token_at(bytes)?;
    if token.text == word { Some(rest) } else { None }
}

/// Whether a token that is written so stands in front, and the bytes behind it or else all.
#[tactic(auto, unfolding(crate::specs::Words::flag_at))]
pub fn flag_at<'s>(word: &str, bytes: &'s [u8]) -> (bool, &'s [u8])
    ensures { flag_at word.now bytes.now ≡ (result.0, result.1.now) }
{
    match behind_word(word, bytes) {
        Some(rest) => (true, rest),
        None => (false, bytes),
    }
}
