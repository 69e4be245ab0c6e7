//! Names each once.
ghost use Rattle.std.specs.Prelude.{◌≡◌, IfOk};
ghost use Rattle.layer_stack.specs.Meant.{each_once};

use asset_names::AssetId;
use list_ops::firsts_ordered;
use plain_data::Items;
use std::alloc::{AllocError, Global};

/// The names each once, in the order in which they are first met.
pub fn each_once(alloc: Global, names: &Items<AssetId>) -> Result<Items<AssetId>, AllocError>
    ensures { IfOk result (λ once. once ≡ each_once names.now) }
{
    firsts_ordered(alloc, names.as_slice())
}
