//! How far numbers, strings, assets and paths go.
ghost use Rattle.std.specs.Prelude.{◌≡◌, ℕ, ◌<◌, ◌≤◌, ◌+◌, ◌^◌, IfSome, List, ◌∷◌, length, false};
ghost use Rattle.usda_lexer.specs.Forms.{digits_len, sign_len, with_digits, exponent_len, pointed_len, mantissa_len, number_len, closed_line, closed_string, closed_tripled, more_ats, closed_asset, begins_twice, string_len, asset_len, EndsIn};

use crate::blanks::begins;
use sdf_values::{is_digit, is_mark, is_sign};

/// How many digits stand in front.
fn digits_len(bytes: &[u8]) -> usize
    ensures value { result ≡ digits_len bytes.now }
    ensures within { result ≤ length bytes.now }
    ensures ends { 0 < result → EndsIn 0 bytes.now result }
{
    for (i, c) in bytes.iter().enumerate() {
        if !is_digit(*c) {
            return i;
        }
    }
    bytes.len()
}

/// 1 where a sign stands in front.
fn sign_len(bytes: &[u8]) -> usize
    ensures value { result ≡ sign_len bytes.now }
    ensures within { result ≤ length bytes.now }
    ensures one { result ≤ 1 }
    ensures ends { 0 < result → EndsIn 0 bytes.now result }
{
    match bytes {
        [] => 0,
        [first, ..] => { if is_sign(*first) { 1 } else { 0 } }
    }
}

/// Digits behind a part of so many bytes; where there are none, 0 for the whole.
fn with_digits(before: usize, bytes: &[u8]) -> usize
    requires { before ≤ 2 }
    ensures value { result ≡ with_digits before bytes.now }
    ensures within { result ≤ before + length bytes.now }
    ensures ends { 0 < result → EndsIn before bytes.now result }
{
    let len = digits_len(bytes);
    if len == 0 { 0 } else { before + len }
}

/// The exponent in front, where there is one.
fn exponent_len(bytes: &[u8]) -> usize
    ensures value { result ≡ exponent_len bytes.now }
    ensures within { result ≤ length bytes.now }
    ensures ends { 0 < result → EndsIn 0 bytes.now result }
{
    match bytes {
        [] => 0,
        [first, rest @ ..] => {
            if is_mark(*first) {
                let sign = sign_len(rest);
                with_digits(1 + sign, &rest[sign..])
            } else {
                0
            }
        }
    }
}

/// So many digits, and then a point and digits.
fn pointed_len(whole: usize, bytes: &[u8]) -> usize
    requires { whole + length bytes.now < 2 ^ 64 }
    ensures value { result ≡ pointed_len whole bytes.now }
    ensures within { result ≤ whole + length bytes.now }
    ensures least { whole ≤ result }
    ensures ends { whole < result → EndsIn whole bytes.now result }
{
    match bytes {
        [] => whole,
        [first, rest @ ..] => {
            let part = digits_len(rest);
            if *first == b'.' && (whole != 0 || part != 0) {
                whole + 1 + part
            } else {
                whole
            }
        }
    }
}

/// Digits with a point or none.
fn mantissa_len(bytes: &[u8]) -> usize
    ensures value { result ≡ mantissa_len bytes.now }
    ensures within { result ≤ length bytes.now }
    ensures ends { 0 < result → EndsIn 0 bytes.now result }
{
    let whole = digits_len(bytes);
    pointed_len(whole, &bytes[whole..])
}

/// How many bytes in front are a number that is written with digits; 0 where none begins.
pub fn number_len(bytes: &[u8]) -> usize
    ensures value { result ≡ number_len bytes.now }
    ensures within { result ≤ length bytes.now }
    ensures ends { 0 < result → EndsIn 0 bytes.now result }
{
    let sign = sign_len(bytes);
    let (_, rest) = bytes.split_at(sign);
    let mantissa = mantissa_len(rest);
    if mantissa == 0 {
        return 0;
    }
    let (_, behind) = rest.split_at(mantissa);
    sign + mantissa + exponent_len(behind)
}

/// The rest of a token of which one byte stands before: its length up to the first such byte on the same line.
pub fn closed_line(close: u8, bytes: &[u8]) -> Option<usize>
    requires { close < 128 }
    ensures value { result ≡ closed_line close 1 bytes.now }
    ensures ends { IfSome result (λ n. EndsIn 1 bytes.now n) }
{
    for (i, c) in bytes.iter().enumerate() {
        if *c == close {
            return Some(i + 2);
        }
        if *c == b'\n' {
            return None;
        }
    }
    None
}

/// The rest of a string on one line.
fn closed_string(quote: u8, bytes: &[u8]) -> Option<usize>
    requires { quote < 128 }
    ensures value { result ≡ closed_string quote false 1 bytes.now }
    ensures ends { IfSome result (λ n. EndsIn 1 bytes.now n) }
{
    let mut escaped = false;
    for (i, c) in bytes.iter().enumerate() {
        if *c == b'\n' {
            return None;
        }
        if escaped {
            escaped = false;
        } else if *c == quote {
            return Some(i + 2);
        } else {
            escaped = *c == b'\\';
        }
    }
    None
}

/// Whether the byte behind this one is escaped, and how many quotes stand in a row up to this one.
fn after_tripled(quote: u8, escaped: bool, run: usize, c: u8) -> (bool, usize)
    requires { run < 3 }
    ensures goes { result.1 < 3 → (n : ℕ) (rest : List ℕ) → closed_tripled quote escaped run n (c ∷ rest) ≡ closed_tripled quote result.0 result.1 (n + 1) rest }
    ensures closes { result.1 ≡ 3 → (n : ℕ) (rest : List ℕ) → closed_tripled quote escaped run n (c ∷ rest) ≡ Some (n + 1) }
    ensures last { result.1 ≡ 3 → c ≡ quote }
    ensures few { result.1 ≤ 3 }
{
    if escaped {
        (false, 0)
    } else if c == quote {
        (false, run + 1)
    } else {
        (c == b'\\', 0)
    }
}

/// The rest of a string over lines, behind its three quotes.
fn closed_tripled(quote: u8, bytes: &[u8]) -> Option<usize>
    requires { quote < 128 }
    ensures value { result ≡ closed_tripled quote false 0 3 bytes.now }
    ensures ends { IfSome result (λ n. EndsIn 3 bytes.now n) }
{
    let mut escaped = false;
    let mut run: usize = 0;
    for (i, c) in bytes.iter().enumerate() {
        let (next, quotes) = after_tripled(quote, escaped, run, *c);
        if quotes == 3 {
            return Some(i + 4);
        }
        escaped = next;
        run = quotes;
    }
    None
}

/// How many `@` stand in front, two at most.
fn more_ats(bytes: &[u8]) -> usize
    ensures value { result ≡ more_ats bytes.now }
    ensures ends { 0 < result → EndsIn 0 bytes.now result }
{
    match bytes {
        [] => 0,
        [first, rest @ ..] => {
            if *first == b'@' {
                if begins(b'@', rest) { 2 } else { 1 }
            } else {
                0
            }
        }
    }
}

/// The rest of an asset of the second form, behind its three `@`.
fn closed_asset(bytes: &[u8]) -> Option<usize>
    ensures value { result ≡ closed_asset 0 3 bytes.now }
    ensures ends { IfSome result (λ n. EndsIn 3 bytes.now n) }
{
    let mut run: usize = 0;
    for (i, c) in bytes.iter().enumerate() {
        if *c == b'@' {
            if run == 2 {
                return Some(i + 4 + more_ats(&bytes[i + 1..]));
            }
            run += 1;
        } else {
            run = 0;
        }
    }
    None
}

/// Whether the byte stands in front twice.
pub fn begins_twice(c: u8, bytes: &[u8]) -> bool
    ensures { result ≡ begins_twice c bytes.now }
{
    match bytes {
        [] => false,
        [first, rest @ ..] => *first == c && begins(c, rest),
    }
}

/// The length of a string whose first quote stands before these bytes; nothing where it has no end.
pub fn string_len(quote: u8, bytes: &[u8]) -> Option<usize>
    requires { quote < 128 }
    ensures value { result ≡ string_len quote bytes.now }
    ensures ends { IfSome result (λ n. EndsIn 1 bytes.now n) }
{
    if begins_twice(quote, bytes) {
        closed_tripled(quote, &bytes[2..])
    } else {
        closed_string(quote, bytes)
    }
}

/// The length of an asset whose first `@` stands before these bytes; nothing where it has no end.
pub fn asset_len(bytes: &[u8]) -> Option<usize>
    ensures value { result ≡ asset_len bytes.now }
    ensures ends { IfSome result (λ n. EndsIn 1 bytes.now n) }
{
    if begins_twice(b'@', bytes) {
        closed_asset(&bytes[2..])
    } else {
        closed_line(b'@', bytes)
    }
}
