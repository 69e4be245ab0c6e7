//! The specs of a layer by path.
ghost use Rattle.std.specs.Prelude.{◌≡◌, OnOk};
ghost use Rattle.usda_drafts.specs.Closed.{is_closed, with_spec_at};
ghost use Rattle.usda_drafts.specs.Owners.{spec_of};

use crate::owner::Owner;
use sdf_paths::Path;
use shared_tables::SharedTable;
use spec_parts::Spec;
use std::alloc::AllocError;

/// Whether there is a spec at a path.
pub fn has_spec(specs: &SharedTable<Path, Spec>, path: &Path) -> bool
    ensures { result ≡ is_closed path.now specs.now }
{
    specs.has(path)
}

/// Sets the spec at a path.
fn put_spec(specs: &mut SharedTable<Path, Spec>, path: Path, spec: Spec) -> Result<(), AllocError>
    ensures { OnOk result (specs.new ≡ with_spec_at path spec specs.old) }
{
    specs.insert(path, spec)
}

/// Sets the spec of an owner that is over, at its path.
pub fn put_closed(
    specs: &mut SharedTable<Path, Spec>,
    path: Path,
    owner: Owner,
) -> Result<(), AllocError>
    ensures { OnOk result (specs.new ≡ with_spec_at path (spec_of owner) specs.old) }
{
    put_spec(specs, path, owner.into_spec())
}
