//! The prims and variants below a path.
ghost use Rattle.std.specs.Prelude.{◌≡◌, IfOk, false};
ghost use Rattle.std.specs.Option.{option_map};
ghost use Rattle.sdf_paths.specs.Paths.{is_property};
ghost use Rattle.sdf_paths.specs.declared.element.Element.TheVariants as element;
ghost use Rattle.sdf_specs.specs.Layers.{spec_at};
ghost use Rattle.sdf_specs.specs.Found.{IsAt, IsFound, StandAtPaths, spec_below};

use crate::layer::Layer;
use plain_data::Text;
use sdf_paths::{Path, PathFault};
use spec_parts::Spec;
use std::alloc::AllocError;

/// Goes over the paths of a layer: each spec stands at one.
pub fn stand_at_paths(layer: &Layer)
    ensures { StandAtPaths layer.now.specs }
{
    for (path, _spec) in layer.iter() {
        let _elements = path.elements();
    }
}

/// A spec with its path, which it is given.
fn with_spec<'l>(layer: &'l Layer, path: Path) -> Option<(Path, &'l Spec)>
    ensures { IsAt (option_map (λ f. (f.0, f.1.now)) result) path (spec_at path layer.now.specs) }
{
    match layer.get(&path) {
        Some(spec) => Some((path, spec)),
        None => None,
    }
}

/// The spec of a prim below a path, with its path.
pub fn prim_spec_below<'l>(
    layer: &'l Layer,
    path: &Path,
    name: &Text,
) -> Result<Option<(Path, &'l Spec)>, AllocError>
    requires stand { StandAtPaths layer.now.specs }
    requires prim { is_property path.now ≡ false }
    ensures { IfOk result (λ found. IsFound (option_map (λ f. (f.0, f.1.now)) found) path.now (element.Prim name.now) (spec_below layer.now.specs path.now (element.Prim name.now))) }
{
    match path.append(name.as_str()) {
        Ok(child) => Ok(with_spec(layer, child)),
        Err(PathFault::Bad { .. }) => Ok(None),
        Err(PathFault::NoMemory) => Err(AllocError),
    }
}

/// The spec of a variant of a path, with its path.
pub fn variant_spec_below<'l>(
    layer: &'l Layer,
    path: &Path,
    set: &Text,
    variant: &Text,
) -> Result<Option<(Path, &'l Spec)>, AllocError>
    requires stand { StandAtPaths layer.now.specs }
    requires prim { is_property path.now ≡ false }
    ensures { IfOk result (λ found. IsFound (option_map (λ f. (f.0, f.1.now)) found) path.now (element.Selection set.now variant.now) (spec_below layer.now.specs path.now (element.Selection set.now variant.now))) }
{
    match path.select(set.as_str(), variant.as_str()) {
        Ok(below) => Ok(with_spec(layer, below)),
        Err(PathFault::Bad { .. }) => Ok(None),
        Err(PathFault::NoMemory) => Err(AllocError),
    }
}
