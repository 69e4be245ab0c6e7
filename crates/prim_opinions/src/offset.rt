ghost use Rattle.std.specs.Prelude.{◌≡◌, ◌≤◌, ◌^◌, ◌*ℤ◌, ◌+ℤ◌, ◌≤ℤ◌, pos, unsigned_abs};
ghost use Rattle.composition.specs.Values.{if_time};
ghost use Rattle.sdf_values.specs.Scales.{composed, mapped};

use sdf_values::{LayerOffset, MAX_UNITS, TimeCode};
use std::marker::Model;

/// How the times of a layer become those of the stage: time t becomes `t * scale + offset`. It may be out of the range of the
/// offsets that it is composed of.
#[derive(Clone, Copy, Debug, PartialEq, Eq)]
pub struct StageOffset {
    /// What is added to a time that was multiplied, in whole units of time.
    pub offset: i64,
    /// By what a time is multiplied; at least 1.
    pub scale: i64,
}

impl Model for StageOffset {
    ghost use Rattle.std.specs.Prelude.{pos, ◌≤ℤ◌};
    ghost use Rattle.sdf_values.specs.Scales.{Offset};

    ghost Value = { Offset };

    ghost view = { λ o. record { offset = o.offset; scale = o.scale } };

    ghost invariant = { λ o. pos 1 ≤ℤ o.scale };

    ghost inverse = { λ o. record { offset = o.offset; scale = o.scale } };
}

/// A product within 10^15 of 0.
fn product(a: i64, b: i64) -> i64
    requires a { unsigned_abs a ≤ 10 ^ 9 }
    requires b { unsigned_abs b ≤ 10 ^ 6 }
    ensures value { result ≡ a *ℤ b }
    ensures size { unsigned_abs result ≤ 10 ^ 15 }
{
    a * b
}

/// The product of two scales.
fn scale_of(a: i64, b: i64) -> i64
    requires a_least { pos 1 ≤ℤ a }
    requires a_most { a ≤ℤ pos 1000000 }
    requires b_least { pos 1 ≤ℤ b }
    requires b_most { b ≤ℤ pos 1000000 }
    ensures value { result ≡ a *ℤ b }
    ensures least { pos 1 ≤ℤ result }
{
    a * b
}

/// The sum of two numbers within 10^15 of 0.
fn sum(a: i64, b: i64) -> i64
    requires a { unsigned_abs a ≤ 10 ^ 15 }
    requires b { unsigned_abs b ≤ 10 ^ 15 }
    ensures { result ≡ a +ℤ b }
{
    a + b
}

/// A number of whole units of time in units of 10^-18.
fn in_units(whole: i64) -> i128
    ensures { result ≡ whole *ℤ pos (10 ^ 18) }
{
    whole as i128 * UNITS
}

/// `time * scale + shift`, where it is a time.
fn mapped_units(time: i128, scale: i64, shift: i128) -> Option<i128>
    requires { unsigned_abs shift ≤ 10 ^ 37 }
    ensures { result ≡ if_time ((time *ℤ scale) +ℤ shift) }
{
    let scaled = time.checked_mul(scale as i128)?;
    let moved = scaled.checked_add(shift)?;
    if moved.unsigned_abs() > MAX_UNITS {
        return None;
    }
    Some(moved)
}

impl StageOffset {
    /// The offset of a layer towards its stack, and then that of the stack towards the stage.
    pub fn of(layer: LayerOffset, site: LayerOffset) -> StageOffset
        ensures { result ≡ composed layer site }
    {
        StageOffset {
            offset: sum(product(layer.offset, site.scale), site.offset),
            scale: scale_of(layer.scale, site.scale),
        }
    }

    /// The time of the stage that a time of the layer becomes; none where it is more than 10^12 away from 0.
    pub fn map(self, time: TimeCode) -> Option<TimeCode>
        ensures time { result ≡ if_time (mapped self time) }
        // times keep their order
        ensures forward { pos 1 ≤ℤ self.scale }
    {
        match mapped_units(time.units, self.scale, in_units(self.offset)) {
            Some(units) => Some(TimeCode { units }),
            None => None,
        }
    }
}

/// One whole unit of time.
const UNITS: i128 = 1_000_000_000_000_000_000;
