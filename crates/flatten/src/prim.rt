//! A composed prim as a spec.
ghost use Rattle.std.specs.Prelude.{◌≡◌, IfOk, []};
ghost use Rattle.flatten.specs.Flattened.{explicit_list, flat_property, with_properties, flat_body, flat_spec};

use list_ops::ListOp;
use plain_data::{ExactClone, Items, Text, copy, copy_three, copy_two};
use prim_view::{PrimView, PropertyView};
use sdf_paths::Path;
use sdf_specs::{ArcPart, BodyPart, Meta, Properties, Property, Spec};
use std::alloc::{AllocError, Global};

/// An explicit list, where there is an opinion.
fn explicit_list<T: ExactClone>(
    alloc: Global,
    items: &Option<Items<T>>,
) -> Result<ListOp<T>, AllocError>
    ensures { IfOk result (λ op. op ≡ explicit_list items.now) }
{
    Ok(ListOp {
        explicit: copy(items)?,
        deleted: Items::new(alloc),
        added: Items::new(alloc),
        prepended: Items::new(alloc),
        appended: Items::new(alloc),
        ordered: Items::new(alloc),
    })
}

/// The paths of a property as an explicit list, and its metadata.
fn flat_paths(
    alloc: Global,
    paths: &Option<Items<Path>>,
    meta: &Meta,
) -> Result<(ListOp<Path>, Meta), AllocError>
    ensures { IfOk result (λ both. both ≡ (explicit_list paths.now, meta.now)) }
{
    let paths = explicit_list(alloc, paths)?;
    match copy(meta) {
        Ok(meta) => Ok((paths, meta)),
        Err(error) => {
            drop(paths);
            Err(error)
        }
    }
}

/// A property as a layer has it.
fn flat_property(alloc: Global, property: &PropertyView) -> Result<Property, AllocError>
    ensures { IfOk result (λ flat. flat ≡ flat_property property.now) }
{
    match property {
        PropertyView::Attr {
            name,
            ty,
            custom,
            uniform,
            default,
            samples,
            connections,
            meta,
        } => {
            let (name, default, samples) = copy_three(name, default, samples)?;
            match flat_paths(alloc, connections, meta) {
                Ok((connections, meta)) => Ok(Property::Attr {
                    name,
                    ty: *ty,
                    custom: *custom,
                    uniform: *uniform,
                    default,
                    samples,
                    connections,
                    meta,
                }),
                Err(error) => {
                    drop((name, default, samples));
                    Err(error)
                }
            }
        }
        PropertyView::Rel {
            name,
            custom,
            targets,
            meta,
        } => {
            let name = copy(name)?;
            match flat_paths(alloc, targets, meta) {
                Ok((targets, meta)) => Ok(Property::Rel {
                    name,
                    custom: *custom,
                    targets,
                    meta,
                }),
                Err(error) => {
                    drop(name);
                    Err(error)
                }
            }
        }
    }
}

/// Properties as a layer has them, in their order.
fn flat_properties(alloc: Global, properties: &[PropertyView]) -> Result<Properties, AllocError>
    ensures { IfOk result (λ flat. flat ≡ with_properties properties.now []) }
{
    let mut flat = Properties::new(alloc);
    for property in properties {
        drop(flat.insert(flat_property(alloc, property)?)?);
    }
    Ok(flat)
}

/// The schemas and the clip sets of a prim, as explicit lists.
fn flat_lists(alloc: Global, prim: &PrimView) -> Result<(ListOp<Text>, ListOp<Text>), AllocError>
    ensures { IfOk result (λ both. both ≡ (explicit_list prim.now.api_schemas, explicit_list prim.now.clip_sets)) }
{
    let api_schemas = explicit_list(alloc, &prim.api_schemas)?;
    match explicit_list(alloc, &prim.clip_sets) {
        Ok(clip_sets) => Ok((api_schemas, clip_sets)),
        Err(error) => {
            drop(api_schemas);
            Err(error)
        }
    }
}

/// The names of a prim's children, and its properties.
fn flat_parts(alloc: Global, prim: &PrimView) -> Result<(Items<Text>, Properties), AllocError>
    ensures { IfOk result (λ both. both ≡ (prim.now.children, with_properties prim.now.properties [])) }
{
    let children = copy(&prim.children)?;
    match flat_properties(alloc, prim.properties.as_slice()) {
        Ok(properties) => Ok((children, properties)),
        Err(error) => {
            drop(children);
            Err(error)
        }
    }
}

/// What a prim gathers, as a layer has it.
#[tactic(auto, unfolding(crate::specs::Flattened::flat_body))]
fn flat_body(alloc: Global, prim: &PrimView) -> Result<BodyPart, AllocError>
    ensures { IfOk result (λ body. body ≡ flat_body prim.now) }
{
    let fields = copy_two(&prim.type_name, &prim.meta)?;
    match flat_lists(alloc, prim) {
        Ok((api_schemas, clip_sets)) => match flat_parts(alloc, prim) {
            Ok((children, properties)) => {
                let (type_name, meta) = fields;
                Ok(BodyPart {
                    specifier: prim.specifier,
                    type_name,
                    meta,
                    api_schemas,
                    clip_sets,
                    children,
                    child_order: Items::new(alloc),
                    properties,
                    property_order: Items::new(alloc),
                    variant_names: Items::new(alloc),
                })
            }
            Err(error) => {
                drop((fields, api_schemas, clip_sets));
                Err(error)
            }
        },
        Err(error) => {
            drop(fields);
            Err(error)
        }
    }
}

/// A prim as a layer has it.
pub fn flat_spec(alloc: Global, prim: &PrimView) -> Result<Spec, AllocError>
    ensures { IfOk result (λ spec. spec ≡ flat_spec prim.now) }
{
    let body = flat_body(alloc, prim)?;
    let arcs = ArcPart::blank(alloc);
    Ok(Spec { arcs, body })
}
