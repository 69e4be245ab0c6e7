//! The canonical text of numbers and times.
ghost use Rattle.std.specs.Prelude.{◌≡◌, ◌++◌, ◌+◌, ◌-◌, ◌≤◌, ◌<◌, ◌^◌, ◌∷◌, OnOk, IfOk, string_bytes, replicate, unsigned_abs, pos, negsuc};
ghost use Rattle.std.specs.Fmt.{decimal};
ghost use Rattle.sdf_values.specs.NumberTexts.{Writes};
ghost use Rattle.sdf_values.specs.Numbers.{IsDecimal};
ghost use Rattle.sdf_values.specs.Print.{sign_text, fraction_digits, point_text, scaled_text, decimal_text, num_text, time_text, magnitude_text, whole_text};

use crate::decimal::{Decimal, Num};
use crate::tens::ten_to;
use crate::time::TimeCode;
use std::alloc::{AllocError, Global};

impl Decimal {
    /// The canonical text, which is a number's text; `parse` of it is this decimal again.
    pub fn print(&self, alloc: Global) -> Result<String, AllocError>
        ensures text { IfOk result (λ text. string_bytes text ≡ decimal_text self.now) }
        ensures read { IfOk result (λ text. Writes (string_bytes text) self.now) }
    {
        let mut out = String::new(alloc);
        push_decimal(&mut out, *self)?;
        Ok(out)
    }
}

impl Num {
    /// The canonical text.
    pub fn print(&self, alloc: Global) -> Result<String, AllocError>
        ensures { IfOk result (λ text. string_bytes text ≡ num_text self.now) }
    {
        let mut out = String::new(alloc);
        push_num(&mut out, *self)?;
        Ok(out)
    }
}

impl TimeCode {
    /// The canonical text.
    pub fn print(&self, alloc: Global) -> Result<String, AllocError>
        ensures { IfOk result (λ text. string_bytes text ≡ time_text self.now) }
    {
        let mut out = String::new(alloc);
        push_time(&mut out, *self)?;
        Ok(out)
    }
}

/// Appends a number's text.
pub fn push_num(out: &mut String, number: Num) -> Result<(), AllocError>
    ensures { OnOk result (string_bytes out.new ≡ string_bytes out.old ++ num_text number) }
{
    match number {
        Num::Finite(decimal) => push_decimal(out, decimal),
        Num::Inf => out.push_str("inf"),
        Num::NegInf => out.push_str("-inf"),
        Num::Nan => out.push_str("nan"),
    }
}

/// Appends a time's text. After want of memory the text is of no use.
pub fn push_time(out: &mut String, time: TimeCode) -> Result<(), AllocError>
    ensures { OnOk result (string_bytes out.new ≡ string_bytes out.old ++ time_text time) }
{
    let units = time.units;
    push_sign(out, units)?;
    push_point(out, 18, units.unsigned_abs())
}

fn push_decimal(out: &mut String, decimal: Decimal) -> Result<(), AllocError>
    ensures text { OnOk result (string_bytes out.new ≡ string_bytes out.old ++ decimal_text decimal) }
    ensures read { Writes (decimal_text decimal) decimal }
{
    let Decimal { digits, exp } = decimal;
    push_parts(out, digits, exp)
}

/// Appends digits * 10^exp.
fn push_parts(out: &mut String, digits: i128, exp: i16) -> Result<(), AllocError>
    requires { IsDecimal (record { digits = digits; exp = exp }) }
    ensures text { OnOk result (string_bytes out.new ≡ string_bytes out.old ++ decimal_text (record { digits = digits; exp = exp })) }
    ensures read { Writes (decimal_text (record { digits = digits; exp = exp })) (record { digits = digits; exp = exp }) }
{
    push_sign(out, digits)?;
    if exp < 0 {
        push_small(out, digits.unsigned_abs(), exp.unsigned_abs())
    } else {
        push_large(out, digits.unsigned_abs(), exp.unsigned_abs())
    }
}

fn push_sign(out: &mut String, n: i128) -> Result<(), AllocError>
    ensures { OnOk result (string_bytes out.new ≡ string_bytes out.old ++ sign_text n) }
{
    if n < 0 {
        out.push_str("-")?;
    }
    Ok(())
}

/// Appends digits * 10^exp.
fn push_large(out: &mut String, digits: u128, exp: u16) -> Result<(), AllocError>
    ensures { OnOk result (string_bytes out.new ≡ string_bytes out.old ++ scaled_text digits (pos exp)) }
{
    write!(out, "{digits}")?;
    if exp <= 34 {
        push_zeros(out, exp)
    } else {
        write!(out, "e{exp}")
    }
}

/// Appends digits * 10^-exp.
fn push_small(out: &mut String, digits: u128, exp: u16) -> Result<(), AllocError>
    requires { 0 < exp }
    ensures { OnOk result (string_bytes out.new ≡ string_bytes out.old ++ scaled_text digits (negsuc (exp - 1))) }
{
    if exp <= 34 {
        push_point(out, exp, digits)
    } else {
        write!(out, "{digits}e-{exp}")
    }
}

fn push_zeros(out: &mut String, count: u16) -> Result<(), AllocError>
    ensures { OnOk result (string_bytes out.new ≡ string_bytes out.old ++ replicate count 48) }
{
    for _zero in 0..count {
        out.push_str("0")?;
    }
    Ok(())
}

/// Appends n in units of 10^-places.
fn push_point(out: &mut String, places: u16, n: u128) -> Result<(), AllocError>
    requires { places ≤ 34 }
    ensures { OnOk result (string_bytes out.new ≡ string_bytes out.old ++ point_text places n) }
{
    let unit = ten_to(places as u32);
    let whole = n / unit;
    let rest = n % unit;
    write!(out, "{whole}")?;
    if rest != 0 {
        out.push_str(".")?;
        push_fraction(out, places, rest)?;
    }
    Ok(())
}

/// The digits of a rest in units of 10^-places, down to its last one.
fn push_fraction(out: &mut String, places: u16, rest: u128) -> Result<(), AllocError>
    requires few { places ≤ 34 }
    requires below { rest < 10 ^ places }
    ensures { OnOk result (string_bytes out.new ≡ string_bytes out.old ++ fraction_digits places rest) }
{
    let mut left = places;
    let mut rest = rest;
    while rest != 0 {
        left -= 1;
        let unit = ten_to(left as u32);
        let digit = rest / unit;
        write!(out, "{digit}")?;
        rest %= unit;
    }
    Ok(())
}

/// Appends a whole number's text.
pub fn push_whole(out: &mut String, n: i128) -> Result<(), AllocError>
    ensures { OnOk result (string_bytes out.new ≡ string_bytes out.old ++ whole_text n) }
{
    push_sign(out, n)?;
    push_magnitude(out, n.unsigned_abs())
}

fn push_magnitude(out: &mut String, n: u128) -> Result<(), AllocError>
    ensures { OnOk result (string_bytes out.new ≡ string_bytes out.old ++ magnitude_text n) }
{
    if n == 0 {
        write!(out, "{n}")
    } else if n % TEN_TO_38 == 0 {
        push_scaled(out, n / TEN_TO_38, 38)
    } else if n % TEN_TO_37 == 0 {
        push_scaled(out, n / TEN_TO_37, 37)
    } else if n % TEN_TO_36 == 0 {
        push_scaled(out, n / TEN_TO_36, 36)
    } else if n % TEN_TO_35 == 0 {
        push_scaled(out, n / TEN_TO_35, 35)
    } else {
        write!(out, "{n}")
    }
}

fn push_scaled(out: &mut String, digits: u128, exp: u16) -> Result<(), AllocError>
    ensures { OnOk result (string_bytes out.new ≡ string_bytes out.old ++ (decimal digits ++ 101 ∷ decimal exp)) }
{
    write!(out, "{digits}e{exp}")
}

const TEN_TO_35: u128 = 100_000_000_000_000_000_000_000_000_000_000_000;

const TEN_TO_36: u128 = 1_000_000_000_000_000_000_000_000_000_000_000_000;

const TEN_TO_37: u128 = 10_000_000_000_000_000_000_000_000_000_000_000_000;

const TEN_TO_38: u128 = 100_000_000_000_000_000_000_000_000_000_000_000_000;
