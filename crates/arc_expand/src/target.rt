//! Targets of items.
ghost use Rattle.std.specs.Prelude.{◌≡◌, ◌∷◌, IfOk};
ghost use Rattle.composition.specs.Paths.{has_selections};
ghost use Rattle.composition.specs.World.{is_absolute, default_target};
ghost use Rattle.composition.specs.Arcs.{is_no_target, or_default};
ghost use Rattle.layer_set.specs.LookUps.{layer_head};

use plain_data::{Text, copy};
use sdf_paths::{Path, path_of};
use sdf_specs::Head;
use std::alloc::{AllocError, Global};

/// Whether the path selects a variant.
fn has_selections(path: &Path) -> bool
    ensures { result ≡ has_selections path.now }
{
    !path.is_plain()
}

/// Whether no arc leads to the path: it is `/` or a property's or has selections.
pub fn is_no_target(path: &Path) -> bool
    ensures { result ≡ is_no_target path.now }
{
    if path.is_root() {
        return true;
    }
    if has_selections(path) {
        return true;
    }
    path.is_property()
}

/// Whether a text begins with `/`.
fn is_absolute(text: &str) -> bool
    ensures { result ≡ is_absolute text.now }
{
    match text.as_bytes() {
        [first, ..] => *first == b'/',
        [] => false,
    }
}

/// The text after a `/`.
fn from_root(alloc: Global, text: &str) -> Result<Text, AllocError>
    ensures { IfOk result (λ full. full ≡ 47 ∷ text.now) }
{
    let mut full = Text::of(alloc, "/")?;
    full.push_str(text)?;
    Ok(full)
}

/// The target that a layer's default prim names.
fn default_target(alloc: Global, text: &str) -> Result<Option<Path>, AllocError>
    ensures { IfOk result (λ target. target ≡ default_target text.now) }
{
    if is_absolute(text) {
        path_of(alloc, text)
    } else {
        path_of(alloc, from_root(alloc, text)?.as_str())
    }
}

/// The path, or else the target of the layer's default prim.
pub fn target(alloc: Global, path: &Option<Path>, head: &Head) -> Result<Option<Path>, AllocError>
    ensures { IfOk result (λ target. target ≡ or_default path.now (layer_head head.now)) }
{
    if let Some(path) = path {
        return Ok(Some(copy(path)?));
    }
    match &head.default_prim {
        Some(text) => default_target(alloc, text.as_str()),
        None => Ok(None),
    }
}
