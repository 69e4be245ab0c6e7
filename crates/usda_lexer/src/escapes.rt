//! What the text of a token means.
ghost use Rattle.std.specs.Prelude.{◌≡◌, ◌<◌, ◌≤◌, ◌*◌, ◌+◌, ◌-◌, ◌∷◌, ◌++◌, ◌↔◌, Some, IfOk, IfSome, OnOk, length, slice_index, drop, false};
ghost use Rattle.std.specs.Option.{option_to_list};
ghost use Rattle.usda_lexer.specs.Meanings.{hexadecimal, is_octal, digit_at, two_digits, octal, letter, escape, unescaped, inside, quotes_len, if_utf8, string_text, trimmed, asset_text, path_text, number_of};
ghost use Rattle.sdf_values.specs.Numbers.{DecimalNumber, IsDecimal};
ghost use Rattle.sdf_values.specs.NumberTexts.{Writes};
ghost use Rattle.usda_lexer.specs.Decimals.{decimal_of};

use crate::blanks::begins;
use crate::forms::begins_twice;
use plain_data::Text;
use sdf_values::{Decimal, Num};
use std::alloc::{AllocError, Global};

/// What an escape stands for, and how many bytes behind the backslash it takes.
#[derive(Clone, Copy)]
pub struct Escape {
    /// The byte that it stands for.
    pub byte: u8,
    /// How many bytes behind the backslash it takes, at least one.
    pub len: usize,
}

/// The value of a hexadecimal digit.
fn hexadecimal(c: u8) -> Option<u8>
    ensures value { result ≡ hexadecimal c }
    ensures small { IfSome result (λ d. d < 16) }
{
    match c {
        b'0'..=b'9' => Some(c - b'0'),
        b'a'..=b'f' => Some(c - b'a' + 10),
        b'A'..=b'F' => Some(c - b'A' + 10),
        _ => None,
    }
}

fn is_octal(c: u8) -> bool
    ensures { result ≡ is_octal c }
{
    b'0' <= c && c <= b'7'
}

/// The value of the hexadecimal digit in front.
fn digit_at(bytes: &[u8]) -> Option<u8>
    ensures value { result ≡ digit_at bytes.now }
    ensures small { IfSome result (λ d. d < 16) }
{
    match bytes {
        [] => None,
        [first, ..] => hexadecimal(*first),
    }
}

/// Behind `\x`.
fn two_digits(bytes: &[u8]) -> Escape
    ensures value { result ≡ two_digits (digit_at bytes.now) (digit_at (drop 1 bytes.now)) }
    ensures some { 0 < result.len }
{
    let itself = Escape { byte: b'x', len: 1 };
    let Some(high) = digit_at(bytes) else {
        return itself;
    };
    match digit_at(&bytes[1..]) {
        Some(low) => Escape {
            byte: high * 16 + low,
            len: 3,
        },
        None => itself,
    }
}

/// One octal digit, and up to two more.
fn octal(first: u8, bytes: &[u8]) -> Escape
    requires { first < 8 }
    ensures value { result ≡ octal 1 first bytes.now }
    ensures some { 0 < result.len }
{
    let mut value: usize = first as usize;
    let mut len = 1;
    for c in bytes {
        if !is_octal(*c) || len > 2 {
            break;
        }
        value = value * 8 + (*c - b'0') as usize;
        len += 1;
    }
    Escape {
        byte: (value % 256) as u8,
        len,
    }
}

/// The letters that stand for control characters.
fn letter(c: u8) -> u8
    ensures { result ≡ letter c }
{
    match c {
        b'a' => 7,
        b'b' => 8,
        b'f' => 12,
        b'n' => b'\n',
        b'r' => b'\r',
        b't' => b'\t',
        b'v' => 11,
        _ => c,
    }
}

/// The escape whose backslash stands before a byte.
fn escape_at(c: u8, rest: &[u8]) -> Escape
    ensures value { result ≡ escape c rest.now }
    ensures some { 0 < result.len }
{
    if c == b'x' {
        two_digits(rest)
    } else if is_octal(c) {
        octal(c - b'0', rest)
    } else {
        Escape {
            byte: letter(c),
            len: 1,
        }
    }
}

/// What one byte of a text with escapes adds, and where it leads.
#[derive(Clone, Copy)]
pub struct Decoded {
    /// The byte that is added, if one is.
    pub byte: Option<u8>,
    /// How many of the bytes that follow belong to the escape.
    pub taken: usize,
    /// Whether the byte is a backslash that begins an escape.
    pub after: bool,
}

/// What a byte adds before these bytes, where `taken` more belong to an escape, or a backslash stands before.
#[tactic(auto, using(crate::proofs::Backslashes::unescaped_taken))]
fn decode(taken: usize, after: bool, c: u8, rest: &[u8]) -> Decoded
    ensures { unescaped taken after (c ∷ rest.now) ≡ option_to_list result.byte ++ unescaped result.taken result.after rest.now }
{
    if taken > 0 {
        Decoded {
            byte: None,
            taken: taken - 1,
            after: false,
        }
    } else if after {
        let escape = escape_at(c, rest);
        Decoded {
            byte: Some(escape.byte),
            taken: escape.len - 1,
            after: false,
        }
    } else if c == b'\\' {
        Decoded {
            byte: None,
            taken: 0,
            after: true,
        }
    } else {
        Decoded {
            byte: Some(c),
            taken: 0,
            after: false,
        }
    }
}

fn push_some(out: &mut Vec<u8>, byte: Option<u8>) -> Result<(), AllocError>
    ensures { OnOk result (out.new.items ≡ out.old.items ++ option_to_list byte) }
{
    if let Some(byte) = byte {
        out.push(byte)?;
    }
    Ok(())
}

/// The bytes that a text with escapes stands for.
fn unescaped(alloc: Global, bytes: &[u8]) -> Result<Vec<u8>, AllocError>
    ensures { IfOk result (λ v. v.items ≡ unescaped 0 false bytes.now) }
{
    let mut out = Vec::new(alloc);
    let mut taken = 0;
    let mut after = false;
    for (i, c) in bytes.iter().enumerate() {
        let next = decode(taken, after, *c, &bytes[i + 1..]);
        push_some(&mut out, next.byte)?;
        taken = next.taken;
        after = next.after;
    }
    Ok(out)
}

/// How many quotes open the string.
fn quotes_len(bytes: &[u8]) -> usize
    ensures value { result ≡ quotes_len bytes.now }
    ensures within { result ≤ length bytes.now }
{
    match bytes {
        [] => 0,
        [first, rest @ ..] => { if begins_twice(*first, rest) { 3 } else { 1 } }
    }
}

/// What stands between the first so many bytes and the last so many.
fn inside(n: usize, bytes: &[u8]) -> &[u8]
    requires { n ≤ length bytes.now }
    ensures { result.now ≡ inside n bytes.now }
{
    let behind = &bytes[n..];
    &behind[..behind.len().saturating_sub(n)]
}

/// The text of some bytes, where they are UTF-8.
fn text_of(bytes: Vec<u8>) -> Option<Text>
    ensures { result ≡ if_utf8 bytes.items }
{
    match String::from_utf8(bytes) {
        Ok(text) => Some(Text::from_string(text)),
        Err(_) => None,
    }
}

/// What a string token stands for; nothing where its escapes make bytes that are not UTF-8.
#[tactic(auto, unfolding(crate::specs::Meanings::string_text))]
pub fn string_text(alloc: Global, text: &str) -> Result<Option<Text>, AllocError>
    ensures { IfOk result (λ t. t ≡ string_text text.now) }
{
    let bytes = text.as_bytes();
    let quotes = quotes_len(bytes);
    let meant = unescaped(alloc, inside(quotes, bytes))?;
    Ok(text_of(meant))
}

/// The text without so many delimiters on both sides.
fn trimmed(close: u8, n: usize, text: &str) -> &str
    requires some { 0 < n }
    requires ascii { close < 128 }
    requires opens { n ≤ length text.now × slice_index text.now (n - 1) < 128 }
    ensures { result.now ≡ trimmed close n text.now }
{
    let len = text.len();
    if n <= len - n && text.as_bytes()[len - n] == close {
        let (_, behind) = text.split_at(n);
        let (inside, _) = behind.split_at(len - n - n);
        inside
    } else {
        text
    }
}

/// The text of an asset token, without its delimiters.
#[tactic(auto, unfolding(crate::specs::Meanings::asset_text))]
pub fn asset_text(text: &str) -> &str
    ensures { result.now ≡ asset_text text.now }
{
    let bytes = text.as_bytes();
    if !begins(b'@', bytes) {
        text
    } else if begins_twice(b'@', &bytes[1..]) {
        trimmed(b'@', 3, text)
    } else {
        trimmed(b'@', 1, text)
    }
}

/// The text of a path token, without its brackets.
#[tactic(auto, unfolding(crate::specs::Meanings::path_text))]
pub fn path_text(text: &str) -> &str
    ensures { result.now ≡ path_text text.now }
{
    if begins(b'<', text.as_bytes()) {
        trimmed(b'>', 1, text)
    } else {
        text
    }
}

/// The number of a number token; nothing for another text, or where the number is too long to be kept.
#[tactic(auto, unfolding(crate::specs::Meanings::number_of))]
pub fn number_of(text: &str) -> Option<Num>
    ensures { result ≡ number_of text.now }
{
    if text == "inf" {
        Some(Num::Inf)
    } else if text == "-inf" {
        Some(Num::NegInf)
    } else if text == "nan" || text == "-nan" {
        Some(Num::Nan)
    } else {
        match decimal_of(text) {
            Some(decimal) => Some(Num::Finite(decimal)),
            None => None,
        }
    }
}

/// The decimal that a number's text writes with digits; nothing where it writes none.
pub fn decimal_of(text: &str) -> Option<Decimal>
    ensures value { result ≡ decimal_of text.now }
    // The decimal that is computed is the one that the text writes.
    ensures written { (d : DecimalNumber) → (decimal_of text.now ≡ Some d) ↔ (IsDecimal d × Writes text.now d) }
{
    match Decimal::parse(text) {
        Ok(decimal) => Some(decimal),
        Err(_) => None,
    }
}
