ghost use Rattle.std.specs.Prelude.{◌≡◌, ℕ, ℤ, unsigned_abs, false, ◌↔◌, IsTrue, ◌<◌, ◌^◌, ◌%◌, pos, ◌+ℤ◌, ◌-ℤ◌, ◌≤◌};
ghost use Rattle.sdf_values.specs.NumberTexts.{is_number, FailsAt, Writes, signed, written_digits, written_exponent};
ghost use Rattle.sdf_values.specs.Numbers.{DecimalNumber, IsDecimal};
ghost use Rattle.sdf_values.specs.declared.decimal.NumberFault.{NumberFault};
ghost use Rattle.sdf_values.specs.Places.{Keeps, IsNear, IsNumberOf};

use crate::parse::{
    Significant, capped_number, decimals, first_fault, is_negative, mark_at, significant_of,
};
use std::marker::Model;
use thiserror::Error;

/// An exact decimal number, `digits * 10^exp`.
///
/// The digits are at most 34, the exponent is from -400 to 400, and the digits are not divisible by ten, but for zero,
/// whose exponent is 0. So each number has one form.
///
/// `<` compares digits and then exponents, as maps want it, and not the numbers.
#[derive(Clone, Copy, Debug, PartialEq, Eq, PartialOrd, Ord)]
pub struct Decimal {
    /// The significant digits as a whole number, with the sign.
    pub digits: i128,
    /// The power of ten by which they are multiplied.
    pub exp: i16,
}

impl Model for Decimal {
    ghost use Rattle.sdf_values.specs.Numbers.{DecimalNumber, IsDecimal};

    ghost Value = { DecimalNumber };

    ghost view = { λ d. record { digits = d.digits; exp = d.exp } };

    ghost invariant = { λ d. IsDecimal (record { digits = d.digits; exp = d.exp }) };

    ghost inverse = { λ d. record { digits = d.digits; exp = d.exp } };
}

/// A number of a layer: a decimal, or one of the three that no digits write.
#[derive(Clone, Copy, Debug, PartialEq, Eq, PartialOrd, Ord)]
pub enum Num {
    /// A number that digits write, exactly.
    Finite(Decimal),
    /// `inf`.
    Inf,
    /// `-inf`.
    NegInf,
    /// `nan`.
    Nan,
}

/// Why a text gives no decimal.
#[derive(Clone, Copy, Debug, PartialEq, Eq, Error)]
pub enum NumberFault {
    /// The text is no number written with digits.
    #[error("no number goes on at byte {at}")]
    BadNumber {
        /// The byte with which no such text goes on, or the length of the text where it ends too soon.
        at: usize,
    },
    /// The number has more than 34 digits or an exponent beyond 400.
    #[error("a number has at most 34 digits and an exponent within 400 of 0")]
    NumberTooLong,
}

impl Decimal {
    /// Reads a number that is written with digits, exactly.
    ///
    /// Such a text is a sign or none, digits with a point or none and a digit on one side of it, and an exponent or none.
    pub fn parse(text: &str) -> Result<Decimal, NumberFault>
        ensures read { (d : DecimalNumber) → (result ≡ Ok d) ↔ (IsDecimal d × Writes text.now d) }
        ensures bad { (at : ℕ) → (result ≡ Err (NumberFault.BadNumber at)) ↔ FailsAt text.now at }
        ensures too_long { (result ≡ Err NumberFault.NumberTooLong)
            ↔ (IsTrue (is_number text.now) × ((d : DecimalNumber) → IsDecimal d → Writes text.now d → ⊥)) }
    {
        let bytes = text.as_bytes();
        if let Some(at) = first_fault(bytes) {
            return Err(NumberFault::BadNumber { at });
        }
        read_number(bytes)
    }
}

/// A number's text, with as many digits as it has.
fn read_number(text: &[u8]) -> Result<Decimal, NumberFault>
    requires { IsTrue (is_number text.now) }
    ensures read { (d : DecimalNumber) → (result ≡ Ok d) ↔ IsNumberOf d (written_digits text.now) (written_exponent text.now) }
    ensures fault { (e : NumberFault) → result ≡ Err e → e ≡ NumberFault.NumberTooLong }
{
    let mark = mark_at(text);
    let front = &text[..mark];
    let kept = significant_of(front);
    let decimals = decimals(front);
    let back: &[u8] = if mark < text.len() {
        &text[mark + 1..]
    } else {
        &[]
    };
    let exponent = with_sign(is_negative(back), capped_number(back));
    of_parts(is_negative(text), kept, lowered(exponent, decimals))
}

fn lowered(exponent: i128, decimals: usize) -> i128
    requires { unsigned_abs exponent ≤ 10 ^ 30 }
    ensures value { result ≡ exponent -ℤ pos decimals }
    ensures near { unsigned_abs result < 2 ^ 110 }
{
    exponent - decimals as i128
}

/// A number below 2^127 with a sign: below zero where the flag says so.
pub fn with_sign(negative: bool, n: u128) -> i128
    requires { n < 2 ^ 127 }
    ensures { result ≡ signed negative n }
{
    if negative { -(n as i128) } else { n as i128 }
}

/// The decimal of some digits and an exponent.
fn of_parts(negative: bool, kept: Significant, exponent: i128) -> Result<Decimal, NumberFault>
    requires room { kept.zeros < 2 ^ 64 }
    requires near { unsigned_abs exponent < 2 ^ 110 }
    requires few { kept.is_long ≡ false → kept.digits < 10 ^ 34 }
    requires last { kept.is_long ≡ false → kept.digits % 10 ≡ 0 → kept.digits ≡ 0 }
    ensures read { (n : ℕ) (e : ℤ) → Keeps kept n → IsNear e exponent →
        (d : DecimalNumber) → (result ≡ Ok d) ↔ IsNumberOf d (signed negative n) e }
    ensures fault { (e : NumberFault) → result ≡ Err e → e ≡ NumberFault.NumberTooLong }
{
    if kept.is_long {
        return Err(NumberFault::NumberTooLong);
    }
    if kept.digits == 0 {
        return Ok(Decimal { digits: 0, exp: 0 });
    }
    let exp = raised(exponent, kept.zeros);
    if exp < -400 || exp > 400 {
        return Err(NumberFault::NumberTooLong);
    }
    Ok(decimal_of(negative, kept.digits, exp))
}

fn raised(exponent: i128, zeros: usize) -> i128
    requires { unsigned_abs exponent < 2 ^ 110 }
    ensures { result ≡ exponent +ℤ pos zeros }
{
    exponent + zeros as i128
}

fn decimal_of(negative: bool, digits: u128, exp: i128) -> Decimal
    requires { IsDecimal (record { digits = signed negative digits; exp = exp }) }
    ensures digits { result.digits ≡ signed negative digits }
    ensures exp { result.exp ≡ exp }
    ensures valid { IsDecimal result }
{
    Decimal {
        digits: with_sign(negative, digits),
        exp: exp as i16,
    }
}
