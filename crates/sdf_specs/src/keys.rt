//! Keys of metadata.
ghost use Rattle.std.specs.Prelude.{◌≡◌, IfOk};
ghost use Rattle.sdf_specs.specs.Keys.{default_key};

use plain_data::Text;
use std::alloc::{AllocError, Global};

/// The key at which the metadata of `/` has the default prim.
#[tactic(auto, unfolding(crate::specs::Keys::default_key))]
pub fn default_key(alloc: Global) -> Result<Text, AllocError>
    ensures { IfOk result (λ key. key ≡ default_key) }
{
    Text::of(alloc, "defaultPrim")
}
