//! Calls on the composed view of a prim.

use crate::fault::CallFault;
use crate::fields::{Fields, push_fields};
use crate::printing::{
    push_choices, push_faults, push_meta, push_samples, push_sites, push_targets,
};
use crate::words::path_of;
use layer_set::World;
use plain_data::{Items, Text, copy};
use prim_view::{PrimView, PropertyView};
use sdf_paths::Path;
use sdf_values::{TypeName, Value, push_value};
use stage_composer::compose_prim;
use std::alloc::{AllocError, Global};

fn push_flag(out: &mut String, flag: bool, word: &str) -> Result<(), AllocError> {
    if flag {
        out.push_str(word)?;
    }
    Ok(())
}

fn push_type(out: &mut String, ty: TypeName) -> Result<(), AllocError> {
    out.push_str(ty.element.name())?;
    push_flag(out, ty.array, "[]")
}

fn push_default(out: &mut String, default: &Option<Value>) -> Result<(), AllocError> {
    match default {
        Some(value) => {
            out.push_str("  default ")?;
            push_value(out, value, 0)?;
            out.push_str("\n")
        }
        None => Ok(()),
    }
}

fn push_paths(out: &mut String, word: &str, paths: &Option<Items<Path>>) -> Result<(), AllocError> {
    match paths {
        Some(paths) => {
            out.push_str(word)?;
            push_targets(out, paths.as_slice())?;
            out.push_str("\n")
        }
        None => Ok(()),
    }
}

/// Appends the name and the type of an attribute.
fn push_typed_name(out: &mut String, name: &Text, ty: TypeName) -> Result<(), AllocError> {
    out.push_str("attr ")?;
    out.push_str(name.as_str())?;
    out.push_str(" ")?;
    push_type(out, ty)
}

/// Appends the first line of an attribute.
fn push_attribute(
    out: &mut String,
    name: &Text,
    ty: TypeName,
    custom: bool,
    uniform: bool,
) -> Result<(), AllocError> {
    push_typed_name(out, name, ty)?;
    push_flag(out, custom, " custom")?;
    push_flag(out, uniform, " uniform")?;
    out.push_str("\n")
}

/// Appends the first line of a relationship.
fn push_relationship(out: &mut String, name: &Text, custom: bool) -> Result<(), AllocError> {
    out.push_str("rel ")?;
    out.push_str(name.as_str())?;
    push_flag(out, custom, " custom")?;
    out.push_str("\n")
}

/// Appends the lines of a property.
fn push_property(out: &mut String, property: &PropertyView) -> Result<(), AllocError> {
    match property {
        PropertyView::Attr {
            name,
            ty,
            custom,
            uniform,
            default,
            samples,
            connections,
            meta,
        } => {
            push_attribute(out, name, *ty, *custom, *uniform)?;
            push_default(out, default)?;
            push_samples(out, "  ", samples)?;
            push_paths(out, "  connections ", connections)?;
            push_meta(out, "  ", meta)
        }
        PropertyView::Rel {
            name,
            custom,
            targets,
            meta,
        } => {
            push_relationship(out, name, *custom)?;
            push_paths(out, "  targets ", targets)?;
            push_meta(out, "  ", meta)
        }
    }
}

/// The names of properties.
fn names_of(alloc: Global, properties: &[PropertyView]) -> Result<Items<Text>, AllocError> {
    let mut names = Items::new(alloc);
    for property in properties {
        names.push(copy(property.name())?)?;
    }
    Ok(names)
}

/// Appends the lines of the fields of a view.
fn push_view_fields(alloc: Global, out: &mut String, view: &PrimView) -> Result<(), AllocError> {
    let names = names_of(alloc, view.properties.as_slice())?;
    push_fields(
        out,
        &Fields {
            specifier: view.specifier,
            type_name: &view.type_name,
            api_schemas: &view.api_schemas,
            clip_sets: &view.clip_sets,
            children: view.children.as_slice(),
            properties: names.as_slice(),
            meta: &view.meta,
        },
    )
}

/// Appends the lines of a view.
fn push_view(
    alloc: Global,
    out: &mut String,
    world: &World,
    view: &PrimView,
) -> Result<(), CallFault> {
    push_view_fields(alloc, out, view)?;
    for property in view.properties.as_slice() {
        push_property(out, property)?;
    }
    push_choices(out, "choice", view.choices.as_slice())?;
    push_sites(out, world, view.sites.as_slice())?;
    Ok(push_faults(out, view.faults.as_slice())?)
}

/// `view PATH`: all that the view has.
pub(crate) fn push_view_call(
    alloc: Global,
    out: &mut String,
    world: &World,
    words: &str,
) -> Result<(), CallFault> {
    let path = path_of(alloc, words)?;
    let view = compose_prim(alloc, world, &path)?;
    let told = push_view(alloc, out, world, &view);
    drop(view);
    told
}
