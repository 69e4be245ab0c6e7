//! The paths of prims and variants below their owners.
ghost use Rattle.usda_lists.specs.Acts.{Gives};
ghost use Rattle.usda_drafts.specs.Places.{prim_place, variant_place};

use plain_data::Text;
use sdf_paths::Path;
use std::alloc::Global;
use usda_fields::{prim_below, variant_below};
use usda_values::PartFault;

/// The path of a prim below its owner; nothing where it would be the 65th inside each other. `TooLong` where it has more than 4,096 bytes.
#[tactic(auto, unfolding(crate::specs::Places::prim_place))]
pub fn prim_place(alloc: Global, owner: &Path, name: &Text) -> Result<Option<Path>, PartFault>
    ensures { Gives result (prim_place owner.now name.now) }
{
    prim_below(alloc, owner, name.as_str())
}

/// The path of a variant of an owner. `TooLong` where it has more than 4,096 bytes.
#[tactic(auto, unfolding(crate::specs::Places::variant_place))]
pub fn variant_place(
    alloc: Global,
    owner: &Path,
    set: &Text,
    variant: &Text,
) -> Result<Path, PartFault>
    ensures { Gives result (variant_place owner.now set.now variant.now) }
{
    variant_below(alloc, owner, set.as_str(), variant.as_str())
}
