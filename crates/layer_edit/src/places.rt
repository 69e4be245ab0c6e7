//! What stands at paths of a layer, and putting something else there.
ghost use Rattle.std.specs.Prelude.{◌≡◌, Some, None, is_some, IfOk, OnOk};
ghost use Rattle.std.specs.Option.{option_copied};
ghost use Rattle.sdf_specs.specs.Layers.{spec_at, with_spec_for, has_parent};
ghost use Rattle.spec_parts.specs.declared.spec.Spec.{Spec};
ghost use Rattle.layer_edit.specs.Places.{above, property_named, property_in, has_spec, changed_spec, changed_property};
ghost use Rattle.layer_edit.specs.Changes.{spec_changed, property_changed};

use crate::change::{PropertyChange, SpecChange};
use crate::spec_changes::changed_spec as changed;
use plain_data::{Text, copy};
use sdf_paths::{Element, Path};
use sdf_specs::{Layer, Property, Spec, Specifier};
use std::alloc::{AllocError, Global};

/// The path without its last element; `/` stays.
pub fn above(alloc: Global, path: &Path) -> Result<Path, AllocError>
    ensures { IfOk result (λ owner. owner ≡ above path.now) }
{
    match path.parent()? {
        Some(owner) => Ok(owner),
        None => Ok(Path::root(alloc)),
    }
}

/// Whether the path without its last element is `/` or has a spec.
pub fn has_parent(layer: &Layer, path: &Path) -> Result<bool, AllocError>
    ensures { IfOk result (λ has. has ≡ has_parent path.now layer.now.specs) }
{
    match path.parent()? {
        Some(owner) => Ok(owner.is_root() || layer.has(&owner)),
        None => Ok(true),
    }
}

fn property_of<'s>(spec: Option<&'s Spec>, name: &Text) -> Option<&'s Property>
    ensures { option_copied result ≡ property_named (Some (Element.Property name.now)) (option_copied spec.entry) }
{
    match spec {
        Some(spec) => spec.body.properties.get(name),
        None => None,
    }
}

/// The property at a path, of which the path above is told.
#[tactic(auto, unfolding(crate::specs::Places::property_in))]
pub fn property_in<'l>(layer: &'l Layer, owner: &Path, path: &Path) -> Option<&'l Property>
    requires { owner.now ≡ above path.now }
    ensures { option_copied result ≡ property_in path.now layer.now }
{
    match path.elements().last() {
        Some(Element::Property(name)) => property_of(layer.get(owner), name),
        _ => None,
    }
}

fn has_property(alloc: Global, layer: &Layer, path: &Path) -> Result<bool, AllocError>
    ensures { IfOk result (λ has. has ≡ is_some (property_in path.now layer.now)) }
{
    let owner = above(alloc, path)?;
    match property_in(layer, &owner, path) {
        Some(_) => Ok(true),
        None => Ok(false),
    }
}

/// Whether a prim, a variant or a property is at the path, or it is `/`.
#[tactic(auto, unfolding(crate::specs::Places::has_spec))]
pub fn has_spec(alloc: Global, layer: &Layer, path: &Path) -> Result<bool, AllocError>
    ensures { IfOk result (λ has. has ≡ has_spec path.now layer.now) }
{
    match path.elements().last() {
        Some(Element::Prim(_)) => Ok(layer.has(path)),
        Some(Element::Property(_)) => has_property(alloc, layer, path),
        Some(Element::Selection { .. }) => Ok(layer.has(path)),
        None => Ok(true),
    }
}

/// Takes a spec out of its place, to be changed and put back.
fn take_spec(alloc: Global, layer: &mut Layer, path: &Path) -> Result<Option<Spec>, AllocError>
    ensures taken { IfOk result (λ taken. taken ≡ spec_at path.now layer.old.specs) }
    ensures left { OnOk result ((spec : Spec) → with_spec_for path.now spec layer.new.specs ≡ with_spec_for path.now spec layer.old.specs) }
    ensures head { OnOk result (layer.new.head ≡ layer.old.head) }
    ensures none { IfOk result (λ taken. taken ≡ None → layer.new ≡ layer.old) }
{
    layer.replace(path, Spec::blank(alloc, Specifier::Over))
}

/// Puts a spec at a path that has one.
fn put_spec(layer: &mut Layer, path: &Path, spec: Spec) -> Result<(), AllocError>
    ensures { OnOk result (layer.new ≡ record layer.old { specs = with_spec_for path.now spec layer.old.specs }) }
{
    drop(layer.replace(path, spec)?);
    Ok(())
}

/// Changes the spec at a path, where there is one.
pub fn change_at(
    alloc: Global,
    layer: &mut Layer,
    path: &Path,
    change: SpecChange,
) -> Result<(), AllocError>
    ensures { OnOk result (layer.new ≡ changed_spec path.now (spec_changed change) layer.old) }
{
    match take_spec(alloc, layer, path) {
        Ok(taken) => match taken {
            Some(spec) => {
                let spec = changed(alloc, spec, change)?;
                put_spec(layer, path, spec)
            }
            None => {
                drop(change);
                Ok(())
            }
        },
        Err(error) => {
            drop(change);
            Err(error)
        }
    }
}

/// Changes the property at a path, where there is one.
#[tactic(auto, unfolding(crate::specs::Places::changed_property, crate::specs::Places::property_in))]
pub fn change_property_at(
    alloc: Global,
    layer: &mut Layer,
    path: &Path,
    change: PropertyChange,
) -> Result<(), AllocError>
    ensures { OnOk result (layer.new ≡ changed_property path.now (property_changed change) layer.old) }
{
    let owner = match above(alloc, path) {
        Ok(owner) => owner,
        Err(error) => {
            drop(change);
            return Err(error);
        }
    };
    match path.elements().last() {
        Some(Element::Property(name)) => match copy(name) {
            Ok(name) => {
                let change = SpecChange::ChangeProperty { name, change };
                change_at(alloc, layer, &owner, change)
            }
            Err(error) => {
                drop(change);
                Err(error)
            }
        },
        Some(Element::Prim(_)) => {
            drop(change);
            Ok(())
        }
        Some(Element::Selection { .. }) => {
            drop(change);
            Ok(())
        }
        None => {
            drop(change);
            Ok(())
        }
    }
}
