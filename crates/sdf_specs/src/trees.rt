//! What stands at a path and below it, in a table by path.
ghost use Rattle.std.specs.Prelude.{◌≡◌, Some, Err, true, false, IfOk, OnOk, OnErr};
ghost use Rattle.std.specs.Map.{keys_of};
ghost use Rattle.sdf_specs.specs.Layers.{is_owner, has_parent, has_tree, tree, without_tree, without_paths, with_spec};

use crate::put_refused::PutRefused;
use plain_data::{ExactClone, Items, copy};
use sdf_paths::Path;
use shared_tables::SharedTable;
use std::alloc::{AllocError, Global};

/// Whether the path is `/` or in the table.
fn is_owner<V>(specs: &SharedTable<Path, V>, path: &Path) -> bool
    ensures { result ≡ is_owner (Some path.now) specs.now }
{
    path.is_root() || specs.has(path)
}

/// Whether the path without its last element is `/` or in the table.
fn has_parent<V>(specs: &SharedTable<Path, V>, path: &Path) -> Result<bool, AllocError>
    ensures { IfOk result (λ has. has ≡ has_parent path.now specs.now) }
{
    match path.parent()? {
        Some(parent) => Ok(is_owner(specs, &parent)),
        None => Ok(true),
    }
}

/// The paths of the table at a path and below it.
fn paths_of_tree<V>(
    alloc: Global,
    specs: &SharedTable<Path, V>,
    front: &Path,
) -> Result<Items<Path>, AllocError>
    ensures { IfOk result (λ paths. paths ≡ keys_of (tree front.now specs.now)) }
{
    let mut paths = Items::new(alloc);
    for (path, _) in specs.iter_from(front) {
        if !path.has_prefix(front) {
            break;
        }
        paths.push(copy(path)?)?;
    }
    Ok(paths)
}

/// Takes the entries of these paths away.
fn remove_all<V: ExactClone + Drop>(
    specs: &mut SharedTable<Path, V>,
    paths: &[Path],
) -> Result<(), AllocError>
    ensures { OnOk result (specs.new ≡ without_paths paths.now specs.old) }
{
    for path in paths {
        specs.remove(path)?;
    }
    Ok(())
}

/// Puts an entry at a path whose path without its last element is `/` or in the table.
pub fn put_at<V: Drop>(
    specs: &mut SharedTable<Path, V>,
    path: &Path,
    value: V,
) -> Result<(), PutRefused>
    ensures ok { OnOk result (specs.new ≡ with_spec path.now value specs.old) }
    ensures owned { OnOk result (has_parent path.now specs.old ≡ true) }
    ensures no_parent { result ≡ Err PutRefused.NoParent → has_parent path.now specs.old ≡ false }
    ensures err { OnErr result (specs.new ≡ specs.old) }
{
    if !has_parent(specs, path)? {
        return Err(PutRefused::NoParent);
    }
    specs.insert(copy(path)?, value)?;
    Ok(())
}

/// Takes away what stands at a path and below it, and answers whether anything did.
pub fn remove_tree<V: ExactClone + Drop>(
    specs: &mut SharedTable<Path, V>,
    alloc: Global,
    front: &Path,
) -> Result<bool, AllocError>
    ensures some { IfOk result (λ some. some ≡ has_tree front.now specs.old) }
    ensures ok { OnOk result (specs.new ≡ without_tree front.now specs.old) }
    ensures err { OnErr result (specs.new ≡ specs.old) }
{
    let gone = paths_of_tree(alloc, specs, front)?;
    let mut left = copy(&*specs)?;
    remove_all(&mut left, gone.as_slice())?;
    *specs = left;
    Ok(!gone.is_empty())
}
