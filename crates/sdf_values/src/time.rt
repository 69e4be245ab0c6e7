ghost use Rattle.std.specs.Prelude.{◌≡◌, ℤ, pos, negsuc, ◌≤ℤ◌, ◌+ℤ◌, ◌≤◌, IfOk, IsErr};
ghost use Rattle.sdf_values.specs.Numbers.{IsDecimal};
ghost use Rattle.sdf_values.specs.Scales.{IsTime, IsTimeOf};

use crate::decimal::Decimal;
use crate::tens::{ten_to, times};
use std::marker::Model;
use thiserror::Error;

/// A time, in units of 10^-18, within 10^12 whole units of time of 0.
#[derive(Clone, Copy, Debug, PartialEq, Eq, PartialOrd, Ord)]
pub struct TimeCode {
    /// How many units of 10^-18 it is; from -10^30 to 10^30.
    pub units: i128,
}

impl Model for TimeCode {
    ghost use Rattle.std.specs.Prelude.{ℤ};
    ghost use Rattle.sdf_values.specs.Scales.{IsTime};

    ghost Value = { ℤ };

    ghost view = { λ t. t.units };

    ghost invariant = { λ t. IsTime t.units };

    ghost inverse = { λ z. record { units = z } };
}

/// The time would be more than 10^12 away from 0, or has more than 18 decimals.
#[derive(Clone, Copy, Debug, PartialEq, Eq, Error)]
#[error("a time is within 10^12 of 0 and has at most 18 decimals")]
pub struct TimeRange;

impl TimeCode {
    /// The time that a decimal is.
    pub fn of(d: Decimal) -> Result<TimeCode, TimeRange>
        ensures time { IfOk result (λ t. IsTime t × IsTimeOf d t) }
        // no other time is the number
        ensures only { IfOk result (λ t. (u : ℤ) → IsTimeOf d u → u ≡ t) }
        // refused only where no time is the number
        ensures refused { IsErr result → (t : ℤ) → IsTime t → IsTimeOf d t → ⊥ }
    {
        let Decimal { digits, exp } = d;
        time_of(digits, exp)
    }
}

fn time_of(digits: i128, exp: i16) -> Result<TimeCode, TimeRange>
    requires { IsDecimal (record { digits = digits; exp = exp }) }
    ensures time { IfOk result (λ t. IsTime t × IsTimeOf (record { digits = digits; exp = exp }) t) }
    ensures only { IfOk result (λ t. (u : ℤ) → IsTimeOf (record { digits = digits; exp = exp }) u → u ≡ t) }
    ensures refused { IsErr result → (t : ℤ) → IsTime t → IsTimeOf (record { digits = digits; exp = exp }) t → ⊥ }
{
    if digits == 0 {
        return Ok(TimeCode { units: 0 });
    }
    if exp < -18 || exp > 12 {
        return Err(TimeRange);
    }
    let unit = ten_to(places(exp));
    if digits.unsigned_abs() > MAX_UNITS / unit {
        return Err(TimeRange);
    }
    let units = times(digits, unit);
    Ok(TimeCode { units })
}

/// The power of ten by which an exponent is above that of a unit.
fn places(exp: i16) -> u32
    requires least { negsuc 17 ≤ℤ exp }
    requires most { exp ≤ℤ pos 12 }
    ensures above { exp ≡ negsuc 17 +ℤ pos result }
    ensures few { result ≤ 30 }
{
    (exp + 18) as u32
}

/// How far from 0 a time may be, in units of 10^-18: 10^12 whole units of time.
pub const MAX_UNITS: u128 = 1_000_000_000_000_000_000_000_000_000_000;
