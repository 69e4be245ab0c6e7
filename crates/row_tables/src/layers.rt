//! Calls on what stands in a world.

use crate::fault::CallFault;
use crate::printing::push_held;
use crate::stages::push_bytes;
use crate::words::{layer_name, path_of};
use asset_names::AssetId;
use layer_set::{Held, World};
use sdf_specs::Layer;
use std::alloc::{AllocError, Global};
use usda_writer::write_layer;

/// Appends the canonical text of a layer.
fn push_written(alloc: Global, out: &mut String, layer: &Layer) -> Result<(), CallFault> {
    let text = write_layer(alloc, layer)?;
    let told = push_bytes(alloc, out, text.as_slice());
    drop(text);
    Ok(told?)
}

/// Appends the canonical text of the layer of a name, or what stands there in its place.
fn push_named(
    alloc: Global,
    out: &mut String,
    world: &World,
    name: &AssetId,
) -> Result<(), CallFault> {
    if !world.has(name) {
        return Ok(out.push_str("no name\n")?);
    }
    match world.held(name) {
        Held::Present(layer) => push_written(alloc, out, layer),
        held => Ok(push_held(out, held)?),
    }
}

/// `layer NAME`: the canonical text of the layer, or what stands there in its place.
pub(crate) fn push_layer_call(
    alloc: Global,
    out: &mut String,
    world: &World,
    words: &str,
) -> Result<(), CallFault> {
    let name = layer_name(alloc, words)?;
    let told = push_named(alloc, out, world, &name);
    drop(name);
    told
}

/// `names`: the names of the world.
pub(crate) fn push_names_call(out: &mut String, world: &World) -> Result<(), AllocError> {
    for i in 0..world.names() {
        if let Some(name) = world.name_at(i) {
            out.push_str(name.text())?;
            out.push_str("\n")?;
        }
    }
    Ok(())
}

/// `rule PATH`: the load rule at a path.
pub(crate) fn push_rule_call(
    alloc: Global,
    out: &mut String,
    world: &World,
    words: &str,
) -> Result<(), CallFault> {
    let path = path_of(alloc, words)?;
    out.push_str(match world.rule(&path) {
        Some(true) => "load\n",
        Some(false) => "unload\n",
        None => "none\n",
    })?;
    Ok(())
}

/// `loaded PATH`: whether the prim at a path is loaded.
pub(crate) fn push_loaded_call(
    alloc: Global,
    out: &mut String,
    world: &World,
    words: &str,
) -> Result<(), CallFault> {
    let path = path_of(alloc, words)?;
    out.push_str(if world.loaded(&path) {
        "true\n"
    } else {
        "false\n"
    })?;
    Ok(())
}
