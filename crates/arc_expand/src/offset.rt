//! Offsets of items: exact, and in range or not.
ghost use Rattle.std.specs.Prelude.{◌≡◌, true, false, not, MatchOption};
ghost use Rattle.sdf_values.specs.Scales.{composed};
ghost use Rattle.composition.specs.World.{identity, in_range};
ghost use Rattle.arc_expand.specs.Outcomes.{leaves_with};

use asset_names::AssetId;
use prim_view::FaultOffset;
use sdf_values::LayerOffset;

/// The offset that changes no time.
pub fn identity() -> FaultOffset
    ensures { result ≡ identity }
{
    FaultOffset {
        offset: 0,
        scale: 1,
    }
}

/// The offset that stands for the inner one and then the outer one, also where it is out of range.
pub fn composed(inner: LayerOffset, outer: LayerOffset) -> FaultOffset
    ensures { result ≡ composed inner outer }
{
    FaultOffset {
        offset: inner.offset * outer.scale + outer.offset,
        scale: inner.scale * outer.scale,
    }
}

/// The offset, where it is in range.
pub fn ranged(offset: FaultOffset) -> Option<LayerOffset>
    ensures { MatchOption result (in_range offset ≡ false) (λ o. (in_range offset ≡ true) × (o ≡ offset)) }
{
    let within = offset.offset >= -1_000_000_000 && offset.offset <= 1_000_000_000;
    if within && offset.scale >= 1 && offset.scale <= 1_000_000 {
        Some(LayerOffset {
            offset: offset.offset,
            scale: offset.scale,
        })
    } else {
        None
    }
}

/// Whether the inner offset and then the outer one are out of range together.
fn leaves_range(inner: LayerOffset, outer: LayerOffset) -> bool
    ensures { result ≡ not (in_range (composed inner outer)) }
{
    match inner.then(outer) {
        Ok(_) => false,
        Err(_) => true,
    }
}

/// Whether the offset with that of one of the layers leaves the range.
pub fn leaves_with(layers: &[(AssetId, LayerOffset)], offset: LayerOffset) -> bool
    ensures { result ≡ leaves_with layers.now offset }
{
    layers.iter().any(|layer| leaves_range(layer.1, offset))
}
