use asset_names::AssetId;
use plain_data::{ExactClone, ExactEq, ExactOrd};
use sdf_paths::Path;

/// A part of a world that composition can look at alone.
#[derive(Clone, Debug, Drop, PartialEq, Eq, PartialOrd, Ord)]
pub enum Key {
    /// Whether a layer is there, why it was refused, its head without the names of root prims and their order; and the names of the
    /// root and the session layer.
    Head(AssetId),
    /// The arcs of the spec at a path of a layer; none at `/`.
    Arcs(AssetId, Path),
    /// The body of the spec at a path of a layer; at `/` the names of root prims and their order.
    Body(AssetId, Path),
    /// The load rule at a path.
    Load(Path),
}

impl ExactClone for Key {
    ghost use Rattle.std.proofs.Common.{rules};

    ghost copy_is_same = { Prim.search rules };
}

impl ExactEq for Key {
    ghost use Rattle.layer_set.specs.KeyOrder.{key_equal};

    ghost equal_is_same = { key_equal };
}

impl ExactOrd for Key {
    ghost use Rattle.layer_set.specs.KeyOrder.{key_tie};

    ghost tie_is_same = { key_tie };
}
