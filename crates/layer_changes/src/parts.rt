//! The parts of a world that an operation may change.
ghost use Rattle.std.specs.Prelude.{◌≡◌, ◌∷◌, [], IfOk};
ghost use Rattle.layer_edit.specs.Places.{above};
ghost use Rattle.layer_changes.specs.Parts.{of_layer, of_new, of_owner, of_tree, of_head, of_arcs, of_body, of_rule, of_meta, of_list, parts_of};
ghost use Rattle.layer_changes.specs.declared.part.Part.TheVariants.{At};

use crate::part::Part;
use asset_names::AssetId;
use edit_batches::{FieldList, Op, TextField};
use layer_edit::above;
use layer_set::Key;
use plain_data::{Items, copy};
use sdf_paths::{Element, Path};
use std::alloc::{AllocError, Global};

fn one(alloc: Global, key: Key) -> Result<Items<Part>, AllocError>
    ensures { IfOk result (λ parts. parts ≡ At key ∷ []) }
{
    let mut parts = Items::new(alloc);
    parts.push(Part::At(key))?;
    Ok(parts)
}

/// All of a layer.
fn of_layer(alloc: Global, name: &AssetId) -> Result<Items<Part>, AllocError>
    ensures { IfOk result (λ parts. parts ≡ of_layer name.now) }
{
    let mut parts = one(alloc, Key::Head(copy(name)?))?;
    parts.push(Part::Below(copy(name)?, Path::root(alloc)))?;
    Ok(parts)
}

/// A spec that is added, and its owner, which names it.
fn of_new(alloc: Global, name: &AssetId, path: &Path) -> Result<Items<Part>, AllocError>
    ensures { IfOk result (λ parts. parts ≡ of_new name.now path.now) }
{
    let mut parts = one(alloc, Key::Arcs(copy(name)?, copy(path)?))?;
    parts.push(Part::At(Key::Body(copy(name)?, copy(path)?)))?;
    parts.push(Part::At(Key::Body(copy(name)?, above(alloc, path)?)))?;
    Ok(parts)
}

/// The body of the owner, as of a property.
fn of_owner(alloc: Global, name: &AssetId, path: &Path) -> Result<Items<Part>, AllocError>
    ensures { IfOk result (λ parts. parts ≡ of_owner name.now path.now) }
{
    one(alloc, Key::Body(copy(name)?, above(alloc, path)?))
}

/// What stands at a path and below it, and its owner, which names it no more.
fn of_tree(alloc: Global, name: &AssetId, path: &Path) -> Result<Items<Part>, AllocError>
    ensures { IfOk result (λ parts. parts ≡ of_tree name.now path.now) }
{
    let mut parts = of_owner(alloc, name, path)?;
    parts.push(Part::Below(copy(name)?, copy(path)?))?;
    Ok(parts)
}

fn of_head(alloc: Global, name: &AssetId) -> Result<Items<Part>, AllocError>
    ensures { IfOk result (λ parts. parts ≡ of_head name.now) }
{
    one(alloc, Key::Head(copy(name)?))
}

fn of_arcs(alloc: Global, name: &AssetId, path: &Path) -> Result<Items<Part>, AllocError>
    ensures { IfOk result (λ parts. parts ≡ of_arcs name.now path.now) }
{
    one(alloc, Key::Arcs(copy(name)?, copy(path)?))
}

fn of_body(alloc: Global, name: &AssetId, path: &Path) -> Result<Items<Part>, AllocError>
    ensures { IfOk result (λ parts. parts ≡ of_body name.now path.now) }
{
    one(alloc, Key::Body(copy(name)?, copy(path)?))
}

fn of_rule(alloc: Global, path: &Path) -> Result<Items<Part>, AllocError>
    ensures { IfOk result (λ parts. parts ≡ of_rule path.now) }
{
    one(alloc, Key::Load(copy(path)?))
}

/// Metadata stand in the head, in a body, or with a property in the body of its owner.
fn of_meta(alloc: Global, name: &AssetId, path: &Path) -> Result<Items<Part>, AllocError>
    ensures { IfOk result (λ parts. parts ≡ of_meta name.now path.now) }
{
    match path.elements().last() {
        None => of_head(alloc, name),
        Some(Element::Property(_)) => of_owner(alloc, name, path),
        Some(Element::Prim(_)) => of_body(alloc, name, path),
        Some(Element::Selection { .. }) => of_body(alloc, name, path),
    }
}

/// A list stands in the arcs, in the body, or with a property in the body of its owner.
fn of_list(
    alloc: Global,
    name: &AssetId,
    path: &Path,
    list: &FieldList,
) -> Result<Items<Part>, AllocError>
    ensures { IfOk result (λ parts. parts ≡ of_list name.now path.now list.now) }
{
    match list {
        FieldList::Paths { .. } => of_arcs(alloc, name, path),
        FieldList::References { .. } => of_arcs(alloc, name, path),
        FieldList::Texts { field, .. } => match field {
            TextField::VariantSets => of_arcs(alloc, name, path),
            TextField::ApiSchemas => of_body(alloc, name, path),
            TextField::ClipSets => of_body(alloc, name, path),
        },
        FieldList::Targets { .. } => of_owner(alloc, name, path),
        FieldList::Connections { .. } => of_owner(alloc, name, path),
    }
}

/// The parts of a world that an operation may change.
pub fn parts_of(alloc: Global, op: &Op) -> Result<Items<Part>, AllocError>
    ensures { IfOk result (λ parts. parts ≡ parts_of op.now) }
{
    match op {
        Op::NewLayer { layer, .. } => of_layer(alloc, layer),
        Op::AddPrim { layer, path, .. } => of_new(alloc, layer, path),
        Op::AddVariant { layer, path } => of_new(alloc, layer, path),
        Op::AddAttribute { layer, path, .. } => of_owner(alloc, layer, path),
        Op::AddRelationship { layer, path, .. } => of_owner(alloc, layer, path),
        Op::Remove { layer, path } => of_tree(alloc, layer, path),
        Op::SetDefault { layer, path, .. } => of_owner(alloc, layer, path),
        Op::ClearDefault { layer, path } => of_owner(alloc, layer, path),
        Op::SetSample { layer, path, .. } => of_owner(alloc, layer, path),
        Op::ClearSample { layer, path, .. } => of_owner(alloc, layer, path),
        Op::SetMeta { layer, path, .. } => of_meta(alloc, layer, path),
        Op::ClearMeta { layer, path, .. } => of_meta(alloc, layer, path),
        Op::SetList {
            layer,
            path,
            list,
            ..
        } => of_list(alloc, layer, path, list),
        Op::Select { layer, path, .. } => of_arcs(alloc, layer, path),
        Op::Unselect { layer, path, .. } => of_arcs(alloc, layer, path),
        Op::SetOrder { layer, path, .. } => of_body(alloc, layer, path),
        Op::SetSublayers { layer, .. } => of_head(alloc, layer),
        Op::Load { path } => of_rule(alloc, path),
        Op::Unload { path } => of_rule(alloc, path),
        Op::Unrule { path } => of_rule(alloc, path),
        Op::PutLayer { id, .. } => of_layer(alloc, id),
    }
}
