ghost use Rattle.std.specs.Prelude.{◌≡◌, pos, ◌<◌, ◌≤◌, ◌^◌, ◌≤ℤ◌, ◌+ℤ◌, unsigned_abs, IfOk, IsErr};
ghost use Rattle.sdf_values.specs.Scales.{IsOffset, IsTime, composed, identity, mapped};

use crate::tens::times;
use crate::time::{MAX_UNITS, TimeCode, TimeRange};
use std::marker::Model;
use thiserror::Error;

/// How the times of a layer become those of the layer that uses it: time t becomes `t * scale + offset`.
///
/// The scale is from 1 to 1,000,000, the offset within 1,000,000,000 of 0.
#[derive(Clone, Copy, Debug, PartialEq, Eq, PartialOrd, Ord)]
pub struct LayerOffset {
    /// What is added to a time that was multiplied, in whole units of time.
    pub offset: i64,
    /// By what a time is multiplied.
    pub scale: i64,
}

impl Model for LayerOffset {
    ghost use Rattle.sdf_values.specs.Scales.{Offset, IsOffset};

    ghost Value = { Offset };

    ghost view = { λ o. record { offset = o.offset; scale = o.scale } };

    ghost invariant = { λ o. IsOffset (record { offset = o.offset; scale = o.scale }) };

    ghost inverse = { λ o. record { offset = o.offset; scale = o.scale } };
}

/// The scale or the offset would be out of its bounds.
#[derive(Clone, Copy, Debug, PartialEq, Eq, Error)]
#[error("a scale is from 1 to 1,000,000, an offset within 1,000,000,000 of 0")]
pub struct OffsetRange;

impl LayerOffset {
    /// The offset that changes no time.
    pub fn identity() -> LayerOffset
        ensures { result ≡ identity }
    {
        LayerOffset {
            offset: 0,
            scale: 1,
        }
    }

    /// The offset that stands for this one and then the outer one.
    pub fn then(self, outer: LayerOffset) -> Result<LayerOffset, OffsetRange>
        ensures composed { IfOk result (λ o. IsOffset o × (o ≡ composed self outer)) }
        // refused only where the two together are out of bounds
        ensures refused { IsErr result → IsOffset (composed self outer) → ⊥ }
    {
        compose(self.offset, self.scale, outer.offset, outer.scale)
    }

    /// The time that a time of the layer becomes.
    pub fn map(self, t: TimeCode) -> Result<TimeCode, TimeRange>
        ensures mapped { IfOk result (λ m. IsTime m × (m ≡ mapped self t)) }
        // refused only where the time would be out of bounds
        ensures refused { IsErr result → IsTime (mapped self t) → ⊥ }
    {
        map_time(self.offset, self.scale, t.units)
    }
}

fn compose(
    offset: i64,
    scale: i64,
    outer_offset: i64,
    outer_scale: i64,
) -> Result<LayerOffset, OffsetRange>
    requires inner { IsOffset (record { offset = offset; scale = scale }) }
    requires outer { IsOffset (record { offset = outer_offset; scale = outer_scale }) }
    ensures composed { IfOk result (λ o. IsOffset o
        × (o ≡ composed (record { offset = offset; scale = scale }) (record { offset = outer_offset; scale = outer_scale }))) }
    ensures refused { IsErr result →
        IsOffset (composed (record { offset = offset; scale = scale }) (record { offset = outer_offset; scale = outer_scale })) → ⊥ }
{
    let unit = unit_of(outer_scale);
    let offset = sum(times(offset as i128, unit), outer_offset as i128);
    let scale = unit_of(scale) * unit;
    if scale > 1_000_000 || offset.unsigned_abs() > 1_000_000_000 {
        return Err(OffsetRange);
    }
    Ok(offset_of(offset, scale))
}

fn map_time(offset: i64, scale: i64, units: i128) -> Result<TimeCode, TimeRange>
    requires offset { IsOffset (record { offset = offset; scale = scale }) }
    requires time { IsTime units }
    ensures mapped { IfOk result (λ m. IsTime m × (m ≡ mapped (record { offset = offset; scale = scale }) units)) }
    ensures refused { IsErr result → IsTime (mapped (record { offset = offset; scale = scale }) units) → ⊥ }
{
    let mapped = sum(times(units, unit_of(scale)), times(offset as i128, UNITS));
    if mapped.unsigned_abs() > MAX_UNITS {
        return Err(TimeRange);
    }
    Ok(TimeCode { units: mapped })
}

fn sum(inner: i128, outer: i128) -> i128
    requires inner { unsigned_abs inner ≤ 10 ^ 36 }
    requires outer { unsigned_abs outer ≤ 10 ^ 36 }
    ensures { result ≡ inner +ℤ outer }
{
    inner + outer
}

fn offset_of(offset: i128, scale: u128) -> LayerOffset
    requires { IsOffset (record { offset = offset; scale = pos scale }) }
    ensures offset { result.offset ≡ offset }
    ensures scale { result.scale ≡ pos scale }
    ensures valid { IsOffset result }
{
    LayerOffset {
        offset: offset as i64,
        scale: scale as i64,
    }
}

/// A scale, which is above 0.
fn unit_of(scale: i64) -> u128
    requires least { pos 1 ≤ℤ scale }
    requires most { scale ≤ℤ pos 1000000 }
    ensures same { scale ≡ pos result }
    ensures some { 0 < result }
    ensures most { result ≤ 1000000 }
{
    scale as u128
}

/// One whole unit of time.
const UNITS: u128 = 1_000_000_000_000_000_000;
