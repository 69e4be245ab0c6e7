//! The name of an asset.
ghost use Rattle.std.specs.Prelude.{◌≡◌, IfOk};
ghost use Rattle.composition.specs.Assets.{anchor};

use asset_names::{AssetFault, AssetId};
use std::alloc::{AllocError, Global};

/// The name that an asset has in a layer; none where it cannot be anchored.
pub fn anchored(alloc: Global, layer: &AssetId, asset: &str) -> Result<Option<AssetId>, AllocError>
    ensures { IfOk result (λ name. name ≡ anchor layer.now asset.now) }
{
    match AssetId::anchor(alloc, layer, asset) {
        Ok(name) => Ok(Some(name)),
        Err(AssetFault::BadAsset { at: _ }) => Ok(None),
        Err(AssetFault::NoMemory) => Err(AllocError),
    }
}
