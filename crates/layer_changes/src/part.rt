use asset_names::AssetId;
use layer_set::Key;
use plain_data::{ExactClone, ExactOrd};
use sdf_paths::Path;

/// A part of a world that an operation may change.
#[derive(Clone, Drop, PartialEq, Eq, PartialOrd, Ord)]
pub enum Part {
    /// What stands at one key.
    At(Key),
    /// The arcs and the bodies at a path of a layer and below it.
    Below(AssetId, Path),
}

impl ExactClone for Part {
    ghost use Rattle.std.proofs.Common.{rules};

    ghost copy_is_same = { Prim.search rules };
}

impl ExactOrd for Part {
    ghost use Rattle.layer_changes.specs.PartOrder.{part_tie};

    ghost tie_is_same = { part_tie };
}
