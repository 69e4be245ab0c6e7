//! Adding and removing prims, variants and properties.
ghost use Rattle.std.specs.Prelude.{◌≡◌, ◌≢◌, [], Ok, true, false, IfOk, OnOk};
ghost use Rattle.sdf_paths.specs.Paths.{is_property};
ghost use Rattle.sdf_specs.specs.Layers.{has_parent, without_tree};
ghost use Rattle.layer_edit.specs.Outcomes.{Does};
ghost use Rattle.layer_edit.specs.Places.{above, last_element};
ghost use Rattle.layer_edit.specs.Prims.{renamed, with_variants, listed, unlisted, with_new_spec, prim_spec, prim_added, variant_added, without_part, removed};
ghost use Rattle.layer_edit.specs.Changes.{names_changed, sets_changed};

use crate::change::{NameChange, SpecChange, VariantChange};
use crate::kinds::{follows_rules, is_prim_path, is_variant_path};
use crate::names::change_names;
use crate::places::{above, change_at, has_parent, has_spec};
use edit_batches::{EditFault, OpRefused};
use plain_data::{Items, Text, copy};
use sdf_paths::{Element, Path};
use sdf_specs::{Head, Layer, PutRefused, Spec, Specifier};
use std::alloc::{AllocError, Global};
use std::mem;

fn renamed_roots(alloc: Global, head: Head, change: NameChange) -> Result<Head, AllocError>
    ensures { IfOk result (λ renamed. renamed ≡ record head { root_names = names_changed change head.root_names }) }
{
    let mut head = head;
    let before = mem::replace(&mut head.root_names, Items::new(alloc));
    match change_names(alloc, before, change) {
        Ok(names) => {
            head.root_names = names;
            Ok(head)
        }
        Err(error) => {
            drop(head);
            Err(error)
        }
    }
}

fn rename_roots(alloc: Global, layer: &mut Layer, change: NameChange) -> Result<(), AllocError>
    ensures { OnOk result (layer.new ≡ renamed [] (names_changed change) layer.old) }
{
    let head = layer.replace_head(Head::blank(alloc));
    layer.set_head(renamed_roots(alloc, head, change)?);
    Ok(())
}

fn rename(
    alloc: Global,
    layer: &mut Layer,
    owner: &Path,
    change: NameChange,
) -> Result<(), AllocError>
    ensures { OnOk result (layer.new ≡ renamed owner.now (names_changed change) layer.old) }
{
    if owner.is_root() {
        rename_roots(alloc, layer, change)
    } else {
        change_at(alloc, layer, owner, SpecChange::Names { change })
    }
}

fn rename_variants(
    alloc: Global,
    layer: &mut Layer,
    owner: &Path,
    change: VariantChange,
) -> Result<(), AllocError>
    ensures { OnOk result (layer.new ≡ with_variants owner.now (sets_changed change) layer.old) }
{
    change_at(alloc, layer, owner, SpecChange::Variants { change })
}

/// Names in the owner what is added below it.
fn enlist(alloc: Global, layer: &mut Layer, owner: &Path, path: &Path) -> Result<(), AllocError>
    ensures { OnOk result (layer.new ≡ listed (last_element path.now) owner.now layer.old) }
{
    match path.elements().last() {
        Some(Element::Prim(name)) => {
            let name = copy(name)?;
            rename(alloc, layer, owner, NameChange::Add { name })
        }
        Some(Element::Selection { set, variant }) => {
            let set = copy(set)?;
            let variant = copy(variant)?;
            rename_variants(alloc, layer, owner, VariantChange::Add { set, variant })
        }
        Some(Element::Property(_)) => Ok(()),
        None => Ok(()),
    }
}

/// Names in the owner no more what is removed.
fn unlist(alloc: Global, layer: &mut Layer, owner: &Path, path: &Path) -> Result<(), AllocError>
    ensures { OnOk result (layer.new ≡ unlisted (last_element path.now) owner.now layer.old) }
{
    match path.elements().last() {
        Some(Element::Prim(name)) => {
            let name = copy(name)?;
            rename(alloc, layer, owner, NameChange::Drop { name })
        }
        Some(Element::Selection { set, variant }) => {
            let set = copy(set)?;
            let variant = copy(variant)?;
            rename_variants(alloc, layer, owner, VariantChange::Drop { set, variant })
        }
        Some(Element::Property(_)) => Ok(()),
        None => Ok(()),
    }
}

/// Puts a spec at a path, which its owner then names.
#[tactic(auto, unfolding(crate::specs::Prims::with_new_spec))]
fn put_new_spec(alloc: Global, layer: &mut Layer, path: &Path, spec: Spec) -> Result<(), OpRefused>
    requires prim { is_property path.now ≡ false }
    requires below { path.now ≢ [] }
    requires owned { has_parent path.now layer.old.specs ≡ true }
    ensures { Does result layer.old layer.new (Ok (with_new_spec path.now spec layer.old)) }
{
    match above(alloc, path) {
        Ok(owner) => {
            match layer.put(path, spec) {
                Ok(()) => (),
                Err(PutRefused::NoParent) => unreachable!(),
                Err(PutRefused::NoMemory) => return Err(OpRefused::NoMemory),
            }
            enlist(alloc, layer, &owner, path)?;
            Ok(())
        }
        Err(_) => {
            drop(spec);
            Err(OpRefused::NoMemory)
        }
    }
}

fn prim_spec(alloc: Global, specifier: Specifier, type_name: Option<Text>) -> Spec
    ensures { result ≡ prim_spec specifier type_name }
{
    let mut spec = Spec::blank(alloc, specifier);
    spec.body.type_name = type_name;
    spec
}

/// Adds a prim at a path that ends in a name.
///
/// # Errors
///
/// `WrongPath`; `NoParent` where its owner has no spec; `SpecThere` where the path has one.
/// The layer is then as before, unless memory ran out.
#[tactic(auto, unfolding(crate::specs::Prims::prim_added, crate::specs::Outcomes::passing))]
pub fn add_prim(
    alloc: Global,
    layer: &mut Layer,
    path: &Path,
    specifier: Specifier,
    type_name: &Option<Text>,
) -> Result<(), OpRefused>
    ensures { Does result layer.old layer.new (prim_added path.now specifier type_name.now layer.old) }
{
    if !is_prim_path(path) {
        return Err(OpRefused::Fault(EditFault::WrongPath));
    }
    if !has_parent(layer, path)? {
        return Err(OpRefused::Fault(EditFault::NoParent));
    }
    if has_spec(alloc, layer, path)? {
        return Err(OpRefused::Fault(EditFault::SpecThere));
    }
    follows_rules(path);
    let spec = prim_spec(alloc, specifier, copy(type_name)?);
    put_new_spec(alloc, layer, path, spec)
}

/// Adds a variant at a path that ends in a selection.
///
/// # Errors
///
/// `WrongPath`; `NoParent` where its owner has no spec; `SpecThere` where the path has one.
/// The layer is then as before, unless memory ran out.
#[tactic(auto, unfolding(crate::specs::Prims::variant_added, crate::specs::Outcomes::passing))]
pub fn add_variant(alloc: Global, layer: &mut Layer, path: &Path) -> Result<(), OpRefused>
    ensures { Does result layer.old layer.new (variant_added path.now layer.old) }
{
    if !is_variant_path(path) {
        return Err(OpRefused::Fault(EditFault::WrongPath));
    }
    if !has_parent(layer, path)? {
        return Err(OpRefused::Fault(EditFault::NoParent));
    }
    if has_spec(alloc, layer, path)? {
        return Err(OpRefused::Fault(EditFault::SpecThere));
    }
    follows_rules(path);
    let spec = Spec::blank(alloc, Specifier::Over);
    put_new_spec(alloc, layer, path, spec)
}

fn remove_tree(
    alloc: Global,
    layer: &mut Layer,
    owner: &Path,
    path: &Path,
) -> Result<(), AllocError>
    ensures { OnOk result (layer.new ≡ unlisted (last_element path.now) owner.now (record layer.old { specs = without_tree path.now layer.old.specs })) }
{
    layer.remove_tree(path)?;
    unlist(alloc, layer, owner, path)
}

fn remove_part(alloc: Global, layer: &mut Layer, path: &Path) -> Result<(), AllocError>
    ensures { OnOk result (layer.new ≡ without_part (last_element path.now) path.now layer.old) }
{
    let owner = above(alloc, path)?;
    match path.elements().last() {
        Some(Element::Property(name)) => {
            let name = copy(name)?;
            change_at(alloc, layer, &owner, SpecChange::DropProperty { name })
        }
        Some(Element::Prim(_)) => remove_tree(alloc, layer, &owner, path),
        Some(Element::Selection { .. }) => remove_tree(alloc, layer, &owner, path),
        None => remove_tree(alloc, layer, &owner, path),
    }
}

/// Removes a prim, a variant or a property with all that stands below it.
///
/// # Errors
///
/// `WrongPath` where the path is `/`; `NoSpec` where nothing is there. The layer is then as before, unless memory ran out.
#[tactic(auto, unfolding(crate::specs::Prims::removed, crate::specs::Outcomes::passing))]
pub fn remove(alloc: Global, layer: &mut Layer, path: &Path) -> Result<(), OpRefused>
    ensures { Does result layer.old layer.new (removed path.now layer.old) }
{
    if path.is_root() {
        return Err(OpRefused::Fault(EditFault::WrongPath));
    }
    if !has_spec(alloc, layer, path)? {
        return Err(OpRefused::Fault(EditFault::NoSpec));
    }
    remove_part(alloc, layer, path)?;
    Ok(())
}
