//! Calls on the fields of a prim.

use crate::fault::CallFault;
use crate::indexes::index_of;
use crate::printing::{push_meta, push_texts, push_texts_or_none, specifier_word};
use field_resolve::{PrimFields, child_names, prim_fields, property_names};
use layer_set::World;
use plain_data::{Items, Text};
use prim_view::Site;
use spec_parts::Specifier;
use spec_properties::Meta;
use std::alloc::{AllocError, Global};

/// The fields of a prim, as they are printed.
#[derive(Drop)]
pub(crate) struct Fields<'a> {
    pub specifier: Specifier,
    pub type_name: &'a Option<Text>,
    pub api_schemas: &'a Option<Items<Text>>,
    pub clip_sets: &'a Option<Items<Text>>,
    pub children: &'a [Text],
    pub properties: &'a [Text],
    pub meta: &'a Meta,
}

fn push_type(out: &mut String, type_name: &Option<Text>) -> Result<(), AllocError> {
    match type_name {
        Some(name) => out.push_str(name.as_str()),
        None => out.push_str("none"),
    }
}

/// Appends the lines of the specifier and the type.
fn push_kind(out: &mut String, fields: &Fields<'_>) -> Result<(), AllocError> {
    out.push_str("specifier ")?;
    out.push_str(specifier_word(fields.specifier))?;
    out.push_str("\ntype ")?;
    push_type(out, fields.type_name)?;
    out.push_str("\n")
}

/// Appends a line of texts, or `none`, behind a word.
fn push_list(out: &mut String, word: &str, texts: &Option<Items<Text>>) -> Result<(), AllocError> {
    out.push_str(word)?;
    push_texts_or_none(out, texts)?;
    out.push_str("\n")
}

/// Appends a line of names behind a word.
fn push_names(out: &mut String, word: &str, names: &[Text]) -> Result<(), AllocError> {
    out.push_str(word)?;
    push_texts(out, names)?;
    out.push_str("\n")
}

/// Appends the lines of fields.
pub(crate) fn push_fields(out: &mut String, fields: &Fields<'_>) -> Result<(), AllocError> {
    push_kind(out, fields)?;
    push_list(out, "api ", fields.api_schemas)?;
    push_list(out, "clips ", fields.clip_sets)?;
    push_names(out, "children ", fields.children)?;
    push_names(out, "properties ", fields.properties)?;
    push_meta(out, "", fields.meta)
}

/// Appends the lines of fields and of names.
fn push_all(
    out: &mut String,
    fields: &PrimFields,
    children: &[Text],
    properties: &[Text],
) -> Result<(), CallFault> {
    let printed = Fields {
        specifier: fields.specifier,
        type_name: &fields.type_name,
        api_schemas: &fields.api_schemas,
        clip_sets: &fields.clip_sets,
        children,
        properties,
        meta: &fields.meta,
    };
    Ok(push_fields(out, &printed)?)
}

/// Appends the lines of the fields at sites and of these names.
fn push_fields_of(
    alloc: Global,
    out: &mut String,
    world: &World,
    sites: &[Site],
    children: &[Text],
    properties: &[Text],
) -> Result<(), CallFault> {
    let fields = prim_fields(alloc, world, sites)?;
    let told = push_all(out, &fields, children, properties);
    drop(fields);
    told
}

/// Appends the lines of the fields at sites, of the properties there, and of these children.
fn push_fields_above(
    alloc: Global,
    out: &mut String,
    world: &World,
    sites: &[Site],
    children: &[Text],
) -> Result<(), CallFault> {
    let properties = property_names(alloc, world, sites)?;
    let told = push_fields_of(alloc, out, world, sites, children, properties.as_slice());
    drop(properties);
    told
}

/// Appends the lines of the fields at sites.
fn push_fields_at(
    alloc: Global,
    out: &mut String,
    world: &World,
    sites: &[Site],
) -> Result<(), CallFault> {
    let children = child_names(alloc, world, sites)?;
    let told = push_fields_above(alloc, out, world, sites, children.as_slice());
    drop(children);
    told
}

/// `fields PATH`: the fields of the prim.
pub(crate) fn push_fields_call(
    alloc: Global,
    out: &mut String,
    world: &World,
    words: &str,
) -> Result<(), CallFault> {
    let found = index_of(alloc, world, words)?;
    let told = push_fields_at(alloc, out, world, found.sites());
    drop(found);
    told
}
