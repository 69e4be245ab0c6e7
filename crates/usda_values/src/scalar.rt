//! What one token is as a value, and which values of one token a type takes.
ghost use Rattle.std.specs.Prelude.{◌≡◌, ◌≢◌, ◌<◌, ◌%◌, ◌^◌, pos, IfSome, Ok};
ghost use Rattle.sdf_values.specs.Numbers.{zero_number};
ghost use Rattle.sdf_values.specs.NumberTexts.{signed};
ghost use Rattle.usda_values.specs.Scalars.{power_of, times_power, whole_of, is_plain_byte, is_plain, by_value, number_value, string_value, path_value, word_value, token_value, time_of, finite_time, decimal_of_whole, take_bool_word, take_bool, take_real, take_time, take_number_time, take_timecode, take_text, take_asset, take_whole_value, take_element, tens_out, is_below_zero};
ghost use Rattle.usda_values.specs.Shapes.{for_metadata, take_typed, take_value};
ghost use Rattle.usda_values.specs.Takes.{Gives};
ghost use Rattle.usda_lexer.specs.Meanings.{number_of, string_text};

use crate::fault::{PartFault, shape_fault};
use crate::path_text::is_path_text;
use crate::shape::Shape;
use plain_data::Text;
use sdf_values::{
    Decimal, ElementType, Num, RefusalKind, TimeCode, TypeName, Value, is_between, with_sign,
};
use std::alloc::Global;
use usda_lexer::{TokenKind, asset_text, number_of, path_text, string_text};

/// A power of ten, where it is within 128 signed bits.
fn power_of(exp: i16) -> Option<i128>
    ensures { result ≡ power_of exp }
{
    if exp < 0 {
        return None;
    }
    if exp > 38 {
        return None;
    }
    Some(10i128.pow(exp as u32))
}

fn scaled(digits: i128, exp: i16) -> Option<i128>
    ensures { result ≡ times_power digits (power_of exp) }
{
    match power_of(exp) {
        None => None,
        Some(unit) => digits.checked_mul(unit),
    }
}

/// The whole number that a decimal is, if it is one within 128 signed bits.
#[tactic(auto, unfolding(crate::specs::Scalars::whole_of))]
pub fn whole_of(d: Decimal) -> Option<i128>
    ensures { result ≡ whole_of d }
{
    let Decimal { digits, exp } = d;
    scaled(digits, exp)
}

fn is_plain_byte(c: u8) -> bool
    ensures { result ≡ is_plain_byte c }
{
    (b'0' <= c && c <= b'9') || c == b'+' || c == b'-'
}

/// Whether a number is written without a point and without an exponent.
#[tactic(auto, unfolding(crate::specs::Scalars::is_plain))]
pub fn is_plain(text: &str) -> bool
    ensures { result ≡ is_plain text.now }
{
    text.as_bytes().iter().all(|c| is_plain_byte(*c))
}

/// A number that is kept as a whole one where it is one.
pub fn by_value(x: Num) -> Value
    ensures { result ≡ by_value x }
{
    match x {
        Num::Finite(d) => match whole_of(d) {
            Some(n) => Value::Whole(n),
            None => Value::Number(x),
        },
        _ => Value::Number(x),
    }
}

fn number_value(text: &str) -> Result<Value, PartFault>
    ensures { Gives result (number_value text.now (number_of text.now)) }
{
    match number_of(text) {
        None => Err(PartFault::Refused(RefusalKind::NumberTooLong)),
        Some(x) => {
            if is_plain(text) {
                Ok(by_value(x))
            } else {
                Ok(Value::Number(x))
            }
        }
    }
}

fn string_value(alloc: Global, text: &str) -> Result<Value, PartFault>
    ensures { Gives result (string_value (string_text text.now)) }
{
    match string_text(alloc, text)? {
        Some(text) => Ok(Value::Text(text)),
        None => Err(PartFault::Refused(RefusalKind::NotUtf8)),
    }
}

fn path_value(alloc: Global, text: &str) -> Result<Value, PartFault>
    ensures { Gives result (path_value text.now) }
{
    if is_path_text(alloc, text)? {
        Ok(Value::PathText(Text::of(alloc, text)?))
    } else {
        Err(PartFault::Refused(RefusalKind::Syntax))
    }
}

fn word_value(alloc: Global, text: &str) -> Result<Value, PartFault>
    ensures { Gives result (Ok (word_value text.now)) }
{
    if text == "None" {
        Ok(Value::Block)
    } else {
        Ok(Value::Word(Text::of(alloc, text)?))
    }
}

/// The value of one token.
#[tactic(auto, unfolding(crate::specs::Scalars::token_value))]
pub fn token_value(alloc: Global, kind: TokenKind, text: &str) -> Result<Value, PartFault>
    ensures { Gives result (token_value kind text.now) }
{
    match kind {
        TokenKind::Number => number_value(text),
        TokenKind::String => string_value(alloc, text),
        TokenKind::Asset => Ok(Value::Asset(Text::of(alloc, asset_text(text))?)),
        TokenKind::Path => path_value(alloc, path_text(text)),
        TokenKind::Name => word_value(alloc, text),
        TokenKind::Mark(_) => Err(PartFault::Refused(RefusalKind::Syntax)),
    }
}

/// The time that a decimal is; nothing where it is more than 10^12 away from 0 or has more than 18 decimals.
pub fn time_of(d: Decimal) -> Option<TimeCode>
    ensures { result ≡ time_of d }
{
    let _exp = d.exp;
    match TimeCode::of(d) {
        Ok(time) => Some(time),
        Err(_) => None,
    }
}

/// The time that a number is; nothing where it is `inf` or `nan`, more than 10^12 away from 0, or has more than 18 decimals.
#[tactic(auto, unfolding(crate::specs::Scalars::finite_time))]
pub fn finite_time(x: Num) -> Option<TimeCode>
    ensures { result ≡ finite_time x }
{
    match x {
        Num::Finite(d) => time_of(d),
        _ => None,
    }
}

/// A number without the tens that divide it, and how many these are.
#[tactic(auto, unfolding(crate::specs::Scalars::tens_out))]
fn without_tens(n: u128) -> Option<(u128, u32)>
    ensures value { result ≡ tens_out n }
    ensures last { IfSome result (λ s. s.0 % 10 ≢ 0) }
    ensures few { IfSome result (λ s. s.1 < 39) }
{
    let mut digits = n;
    for tens in 0..39 {
        if digits % 10 != 0 {
            return Some((digits, tens));
        }
        digits /= 10;
    }
    None
}

/// A decimal of these digits and so many tens.
fn decimal(negative: bool, digits: u128, tens: u32) -> Decimal
    requires few { digits < 10 ^ 34 }
    requires last { digits % 10 ≢ 0 }
    requires tens { tens < 39 }
    ensures { result ≡ record { digits = signed negative digits; exp = pos tens } }
{
    Decimal {
        digits: with_sign(negative, digits),
        exp: tens as i16,
    }
}

/// A whole number as a decimal; nothing where it has more than 34 digits.
#[tactic(auto, unfolding(crate::specs::Scalars::decimal_of_whole))]
pub fn decimal_of_whole(n: i128) -> Option<Decimal>
    ensures { result ≡ decimal_of_whole n }
{
    let size = n.unsigned_abs();
    if size == 0 {
        return Some(zero());
    }
    let (digits, tens) = without_tens(size)?;
    if digits < 10_000_000_000_000_000_000_000_000_000_000_000 {
        Some(decimal(is_below_zero(n), digits, tens))
    } else {
        None
    }
}

fn zero() -> Decimal
    ensures { result ≡ zero_number }
{
    Decimal { digits: 0, exp: 0 }
}

fn is_below_zero(n: i128) -> bool
    ensures { result ≡ is_below_zero n }
{
    n < 0
}

fn take_bool(value: &Value) -> Result<Value, PartFault>
    ensures { Gives result (take_bool value.now) }
{
    match value {
        Value::Bool(b) => Ok(Value::Bool(*b)),
        Value::Whole(n) => {
            if *n == 0 {
                Ok(Value::Bool(false))
            } else if *n == 1 {
                Ok(Value::Bool(true))
            } else {
                Err(shape_fault())
            }
        }
        Value::Word(text) => take_bool_word(text.as_str()),
        _ => Err(shape_fault()),
    }
}

fn take_bool_word(text: &str) -> Result<Value, PartFault>
    ensures { Gives result (take_bool_word text.now) }
{
    if text == "true" {
        Ok(Value::Bool(true))
    } else if text == "false" {
        Ok(Value::Bool(false))
    } else {
        Err(shape_fault())
    }
}

fn take_real(value: &Value) -> Result<Value, PartFault>
    ensures { Gives result (take_real value.now) }
{
    match value {
        Value::Number(x) => Ok(Value::Number(*x)),
        Value::Whole(n) => match decimal_of_whole(*n) {
            Some(d) => Ok(Value::Number(Num::Finite(d))),
            None => Err(PartFault::Refused(RefusalKind::NumberTooLong)),
        },
        _ => Err(shape_fault()),
    }
}

fn time_value(d: Decimal) -> Result<Value, PartFault>
    ensures { Gives result (take_time (time_of d)) }
{
    match time_of(d) {
        Some(time) => Ok(Value::Time(time)),
        None => Err(PartFault::Refused(RefusalKind::TimeRange)),
    }
}

fn take_number_time(x: Num) -> Result<Value, PartFault>
    ensures { Gives result (take_number_time x) }
{
    match x {
        Num::Finite(d) => time_value(d),
        _ => Err(PartFault::Refused(RefusalKind::TimeRange)),
    }
}

fn take_timecode(value: &Value) -> Result<Value, PartFault>
    ensures { Gives result (take_timecode value.now) }
{
    match value {
        Value::Time(time) => Ok(Value::Time(*time)),
        Value::Number(x) => take_number_time(*x),
        Value::Whole(n) => match decimal_of_whole(*n) {
            Some(d) => time_value(d),
            None => Err(PartFault::Refused(RefusalKind::TimeRange)),
        },
        _ => Err(shape_fault()),
    }
}

fn take_text(value: Value) -> Result<Value, PartFault>
    ensures { Gives result (take_text value) }
{
    match value {
        Value::Text(text) => Ok(Value::Text(text)),
        other => {
            drop(other);
            Err(shape_fault())
        }
    }
}

fn take_asset(value: Value) -> Result<Value, PartFault>
    ensures { Gives result (take_asset value) }
{
    match value {
        Value::Asset(text) => Ok(Value::Asset(text)),
        other => {
            drop(other);
            Err(shape_fault())
        }
    }
}

fn take_whole(element: ElementType, value: &Value) -> Result<Value, PartFault>
    ensures { Gives result (take_whole_value element value.now) }
{
    match value {
        Value::Whole(n) => {
            if is_between(element, *n) {
                Ok(Value::Whole(*n))
            } else {
                Err(shape_fault())
            }
        }
        _ => Err(shape_fault()),
    }
}

/// A value of one token as one of a type that is no array and no tuple.
pub fn take_element(element: ElementType, value: Value) -> Result<Value, PartFault>
    ensures { Gives result (take_element element value) }
{
    match element {
        ElementType::Bool => {
            let taken = take_bool(&value);
            drop(value);
            taken
        }
        ElementType::Real(_) => {
            let taken = take_real(&value);
            drop(value);
            taken
        }
        ElementType::Timecode => {
            let taken = take_timecode(&value);
            drop(value);
            taken
        }
        ElementType::String | ElementType::Token => take_text(value),
        ElementType::Asset => take_asset(value),
        _ => {
            let taken = take_whole(element, &value);
            drop(value);
            taken
        }
    }
}

fn take_typed(is_statement: bool, ty: TypeName, value: Value) -> Result<Value, PartFault>
    ensures { Gives result (take_typed is_statement ty value) }
{
    if value.is_block() {
        drop(value);
        if is_statement {
            Ok(Value::Block)
        } else {
            Err(shape_fault())
        }
    } else if ty.array {
        drop(value);
        Err(shape_fault())
    } else {
        take_element(ty.element, value)
    }
}

fn for_metadata(value: Value) -> Value
    ensures { result ≡ for_metadata value }
{
    match value {
        Value::Number(x) => by_value(x),
        other => other,
    }
}

/// The value of one token where this is expected, directly behind the `=` of a statement or not.
pub fn take_value(shape: Shape, is_statement: bool, value: Value) -> Result<Value, PartFault>
    ensures { Gives result (take_value shape is_statement value) }
{
    match shape {
        Shape::Untyped => Ok(value),
        Shape::Metadata => Ok(for_metadata(value)),
        Shape::Typed(ty) => take_typed(is_statement, ty, value),
        Shape::Dictionary => {
            drop(value);
            Err(shape_fault())
        }
    }
}
