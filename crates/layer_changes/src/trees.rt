//! Keys at a path of a layer and below it.
ghost use Rattle.std.specs.Prelude.{◌≡◌, IfOk, OnOk};
ghost use Rattle.std.specs.List.{Contains, All};
ghost use Rattle.std.specs.Map.{keys_of};
ghost use Rattle.sdf_specs.specs.Layers.{tree};
ghost use Rattle.layer_changes.specs.Covering.{HasSpec, HasTree};

use crate::growing::add;
use asset_names::AssetId;
use layer_set::{Held, Key};
use plain_data::{Items, copy};
use sdf_paths::Path;
use sdf_specs::Layer;
use std::alloc::{AllocError, Global};
use std::collections::BTreeSet;

/// The paths of a layer's specs at a path and below it.
fn paths_of_tree(alloc: Global, layer: &Layer, front: &Path) -> Result<Items<Path>, AllocError>
    ensures { IfOk result (λ paths. paths ≡ keys_of (tree front.now layer.now.specs)) }
{
    let mut paths = Items::new(alloc);
    for (path, _) in layer.iter_from(front) {
        if !path.has_prefix(front) {
            break;
        }
        paths.push(copy(path)?)?;
    }
    Ok(paths)
}

/// Adds the two keys of a spec.
pub fn add_spec(keys: &mut BTreeSet<Key>, name: &AssetId, path: &Path) -> Result<(), AllocError>
    ensures added { OnOk result (HasSpec keys.new.keys name.now path.now) }
    ensures kept { OnOk result ((k : Key) → Contains keys.old.keys k → Contains keys.new.keys k) }
{
    add(keys, Key::Arcs(copy(name)?, copy(path)?))?;
    add(keys, Key::Body(copy(name)?, copy(path)?))?;
    Ok(())
}

/// Adds the keys of these specs.
fn add_specs(keys: &mut BTreeSet<Key>, name: &AssetId, paths: &[Path]) -> Result<(), AllocError>
    ensures added { OnOk result (All (λ path. HasSpec keys.new.keys name.now path) paths.now) }
    ensures kept { OnOk result ((k : Key) → Contains keys.old.keys k → Contains keys.new.keys k) }
{
    for path in paths {
        add_spec(keys, name, path)?;
    }
    Ok(())
}

/// Adds the keys of a layer's specs at a path and below it.
fn add_layer(
    alloc: Global,
    keys: &mut BTreeSet<Key>,
    layer: &Layer,
    name: &AssetId,
    front: &Path,
) -> Result<(), AllocError>
    ensures added { OnOk result (All (λ path. HasSpec keys.new.keys name.now path) (keys_of (tree front.now layer.now.specs))) }
    ensures kept { OnOk result ((k : Key) → Contains keys.old.keys k → Contains keys.new.keys k) }
{
    let paths = paths_of_tree(alloc, layer, front)?;
    add_specs(keys, name, paths.as_slice())?;
    Ok(())
}

/// Adds the keys of the specs that stand at a path of a layer and below it.
pub fn add_tree(
    alloc: Global,
    keys: &mut BTreeSet<Key>,
    held: &Held,
    name: &AssetId,
    front: &Path,
) -> Result<(), AllocError>
    ensures added { OnOk result (HasTree keys.new.keys held.now name.now front.now) }
    ensures kept { OnOk result ((k : Key) → Contains keys.old.keys k → Contains keys.new.keys k) }
{
    match held {
        Held::Present(layer) => {
            add_layer(alloc, keys, layer, name, front)?;
            Ok(())
        }
        Held::Absent => Ok(()),
        Held::Broken(_) => Ok(()),
    }
}
