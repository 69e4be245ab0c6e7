//! One sublayer: its name, and why it is not followed.
ghost use Rattle.std.specs.Prelude.{◌≡◌, Some, None, IfOk, IfErr};
ghost use Rattle.sdf_values.specs.Scales.{composed};
ghost use Rattle.layer_set.specs.LookUps.{heading_of};
ghost use Rattle.layer_stack.specs.Listing.{kept_out};

use layer_set::Held;
use prim_view::SublayerReason;
use sdf_values::LayerOffset;

/// The offset of a sublayer towards the stack, or why the sublayer is not followed: it stands above itself, is missing or broken, or
/// its offset is out of range.
pub fn followed(
    above: bool,
    held: &Held,
    inner: LayerOffset,
    outer: LayerOffset,
) -> Result<LayerOffset, SublayerReason>
    ensures offset { IfOk result (λ o. o ≡ composed inner outer) }
    ensures ok { IfOk result (λ o. kept_out above (heading_of held.now) (composed inner outer) ≡ None) }
    ensures err { IfErr result (λ reason. kept_out above (heading_of held.now) (composed inner outer) ≡ Some reason) }
{
    if above {
        return Err(SublayerReason::Cycle);
    }
    match held {
        Held::Absent => Err(SublayerReason::Missing),
        Held::Broken(_) => Err(SublayerReason::Broken),
        Held::Present(_) => match inner.then(outer) {
            Ok(offset) => Ok(offset),
            Err(_) => Err(SublayerReason::Offset),
        },
    }
}
