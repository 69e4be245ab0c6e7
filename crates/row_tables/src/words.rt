//! The words of a call.

use crate::fault::CallFault;
use asset_names::{AssetFault, AssetId};
use path_maps::ArcKind;
use plain_data::Text;
use prim_view::StackName;
use sdf_paths::{Path, PathFault};
use std::alloc::Global;

/// The first word, and what stands behind the blank after it.
pub(crate) fn first_word(text: &str) -> (&str, &str) {
    text.split_once(' ').unwrap_or((text, ""))
}

/// The path that a word is.
pub(crate) fn path_of(alloc: Global, word: &str) -> Result<Path, CallFault> {
    match Path::parse(alloc, word) {
        Ok(path) => Ok(path),
        Err(PathFault::Bad { at: _ }) => Err(CallFault::Bad),
        Err(PathFault::NoMemory) => Err(CallFault::NoMemory),
    }
}

/// The prim and the name of the property that a path is of.
fn property_at(alloc: Global, path: &Path) -> Result<(Path, Text), CallFault> {
    if !path.is_property() {
        return Err(CallFault::Bad);
    }
    let name = Text::of(alloc, path.last().unwrap_or(""))?;
    match path.owner() {
        Ok(prim) => Ok((prim, name)),
        Err(fault) => {
            drop(name);
            Err(fault.into())
        }
    }
}

/// The prim and the name of the property that a word is the path of.
pub(crate) fn property_of(alloc: Global, word: &str) -> Result<(Path, Text), CallFault> {
    let path = path_of(alloc, word)?;
    let found = property_at(alloc, &path);
    drop(path);
    found
}

/// The name of a layer that a word is.
pub(crate) fn layer_name(alloc: Global, word: &str) -> Result<AssetId, CallFault> {
    match AssetId::of_word(alloc, word) {
        Ok(name) => Ok(name),
        Err(AssetFault::BadAsset { at: _ }) => Err(CallFault::Bad),
        Err(AssetFault::NoMemory) => Err(CallFault::NoMemory),
    }
}

/// The name of a stack that a word is: `root`, or that of a layer.
pub(crate) fn stack_name(alloc: Global, word: &str) -> Result<StackName, CallFault> {
    if word == "root" {
        return Ok(StackName::Root);
    }
    Ok(StackName::Asset(layer_name(alloc, word)?))
}

/// The kind of arcs that a word is, as the field is written.
pub(crate) fn kind_of(word: &str) -> Result<ArcKind, CallFault> {
    match word {
        "inherits" => Ok(ArcKind::Inherits),
        "references" => Ok(ArcKind::Reference),
        "payload" => Ok(ArcKind::Payload),
        "specializes" => Ok(ArcKind::Specializes),
        _ => Err(CallFault::Bad),
    }
}
