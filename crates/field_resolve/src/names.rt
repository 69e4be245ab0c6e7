//! The names of children and properties, from the weakest to the strongest opinion.
ghost use Rattle.std.specs.Prelude.{◌≡◌, map, filter, IfOk};
ghost use Rattle.std.specs.List.{list_all};
ghost use Rattle.composition.specs.Fields.{naming_edit, children_naming};
ghost use Rattle.composition.specs.Names.{is_letter, is_letter_or_digit, is_ascii_identifier, is_name};
ghost use Rattle.layer_set.specs.LookUps.{look_ups};
ghost use Rattle.prim_opinions.specs.Gathering.{said_on};
ghost use Rattle.spec_properties.specs.Properties.{property_names};
ghost use Rattle.field_resolve.specs.Activity.{active_names};
ghost use Rattle.field_resolve.specs.Folding.{children_edit, properties_edit, folded_texts, children_on, properties_on};

use crate::activity::active_names;
use crate::fields::meta_of;
use crate::strings::{folded_texts, texts_once};
use layer_set::World;
use list_ops::ListOp;
use plain_data::{Items, Text, copy};
use prim_opinions::{SaidAt, opinions_on};
use prim_view::Site;
use spec_parts::BodyPart;
use spec_properties::Property;
use std::alloc::{AllocError, Global};
use usd_names::is_identifier;

fn is_letter(byte: u8) -> bool
    ensures { result ≡ is_letter byte }
{
    byte.is_ascii_alphabetic() || byte == b'_'
}

fn is_letter_or_digit(byte: u8) -> bool
    ensures { result ≡ is_letter_or_digit byte }
{
    is_letter(byte) || byte.is_ascii_digit()
}

fn are_letters_or_digits(bytes: &[u8]) -> bool
    ensures { result ≡ list_all is_letter_or_digit bytes.now }
{
    for byte in bytes {
        if !is_letter_or_digit(*byte) {
            return false;
        }
    }
    true
}

fn is_ascii_identifier(bytes: &[u8]) -> bool
    ensures { result ≡ is_ascii_identifier bytes.now }
{
    match bytes.split_first() {
        None => false,
        Some((first, rest)) => is_letter(*first) && are_letters_or_digits(rest),
    }
}

/// Whether a text is the name of a prim.
fn is_prim_name(name: &Text) -> bool
    ensures { result ≡ is_name name.now }
{
    is_ascii_identifier(name.as_bytes()) || is_identifier(name.as_str())
}

/// The texts that are names of prims.
fn prim_names(alloc: Global, names: &[Text]) -> Result<Items<Text>, AllocError>
    ensures { IfOk result (λ kept. kept ≡ filter is_name names.now) }
{
    let mut kept = Items::new(alloc);
    for name in names {
        if is_prim_name(name) {
            kept.push(copy(name)?)?;
        }
    }
    Ok(kept)
}

/// The names of properties.
fn names_among(alloc: Global, properties: &[Property]) -> Result<Items<Text>, AllocError>
    ensures { IfOk result (λ names. names ≡ property_names properties.now) }
{
    let mut names = Items::new(alloc);
    for property in properties {
        names.push(copy(property.name())?)?;
    }
    Ok(names)
}

/// Names with a reorder, as an edit of the names so far: new names come last, and then the reorder is applied.
fn naming_edit(
    alloc: Global,
    names: Items<Text>,
    order: &Items<Text>,
) -> Result<ListOp<Text>, AllocError>
    ensures { IfOk result (λ op. op ≡ naming_edit (record { names = names; order = order.now })) }
{
    let ordered = copy(order)?;
    Ok(ListOp {
        explicit: None,
        deleted: Items::new(alloc),
        added: names,
        prepended: Items::new(alloc),
        appended: Items::new(alloc),
        ordered,
    })
}

/// Names of children with their reorder, as an edit; what is no name of a prim is passed over.
pub fn child_naming(
    alloc: Global,
    names: &[Text],
    order: &Items<Text>,
) -> Result<ListOp<Text>, AllocError>
    ensures { IfOk result (λ op. op ≡ naming_edit (children_naming names.now order.now)) }
{
    let names = prim_names(alloc, names)?;
    naming_edit(alloc, names, order)
}

/// What a body says of names of children, as an edit.
fn children_edit(alloc: Global, body: &BodyPart) -> Result<ListOp<Text>, AllocError>
    ensures { IfOk result (λ op. op ≡ children_edit body.now) }
{
    child_naming(alloc, body.children.as_slice(), &body.child_order)
}

/// What a body says of names of properties, as an edit.
fn properties_edit(alloc: Global, body: &BodyPart) -> Result<ListOp<Text>, AllocError>
    ensures { IfOk result (λ op. op ≡ properties_edit body.now) }
{
    let names = names_among(alloc, body.properties.as_slice())?;
    naming_edit(alloc, names, &body.property_order)
}

/// What opinions say of names of children.
fn children_edits(alloc: Global, said: &[SaidAt]) -> Result<Vec<ListOp<Text>>, AllocError>
    ensures { IfOk result (λ ops. ops.items ≡ map (λ s. children_edit s.spec.body) said.now) }
{
    let mut edits = Vec::new(alloc);
    for opinion in said {
        edits.push(children_edit(alloc, &opinion.spec().body)?)?;
    }
    Ok(edits)
}

/// What opinions say of names of properties.
fn properties_edits(alloc: Global, said: &[SaidAt]) -> Result<Vec<ListOp<Text>>, AllocError>
    ensures { IfOk result (λ ops. ops.items ≡ map (λ s. properties_edit s.spec.body) said.now) }
{
    let mut edits = Vec::new(alloc);
    for opinion in said {
        edits.push(properties_edit(alloc, &opinion.spec().body)?)?;
    }
    Ok(edits)
}

/// The names of the children that opinions give, each once, in their order. Those of an inactive prim and those too long for a path
/// are among them.
pub fn child_names_of(alloc: Global, said: &[SaidAt]) -> Result<Items<Text>, AllocError>
    ensures { IfOk result (λ names. names ≡ children_on said.now) }
{
    let edits = children_edits(alloc, said)?;
    texts_once(alloc, folded_texts(alloc, edits)?)
}

/// The names of the properties that opinions give, each once, in their order.
pub fn property_names_of(alloc: Global, said: &[SaidAt]) -> Result<Items<Text>, AllocError>
    ensures { IfOk result (λ names. names ≡ properties_on said.now) }
{
    let edits = properties_edits(alloc, said)?;
    texts_once(alloc, folded_texts(alloc, edits)?)
}

/// The names of the children of a prim of these sites; none of a prim that is not active. Those too long for a path, which this call
/// does not have, are among them.
///
/// # Errors
///
/// Memory ran out.
pub fn child_names(alloc: Global, world: &World, sites: &[Site]) -> Result<Items<Text>, AllocError>
    ensures { IfOk result (λ names. names ≡ active_names (said_on (look_ups world.now) sites.now)) }
{
    let said = opinions_on(alloc, world, sites)?;
    let meta = meta_of(alloc, said.as_slice())?;
    active_names(alloc, &meta, said.as_slice())
}

/// The names of the properties of a prim of these sites.
///
/// # Errors
///
/// Memory ran out.
pub fn property_names(
    alloc: Global,
    world: &World,
    sites: &[Site],
) -> Result<Items<Text>, AllocError>
    ensures { IfOk result (λ names. names ≡ properties_on (said_on (look_ups world.now) sites.now)) }
{
    let said = opinions_on(alloc, world, sites)?;
    property_names_of(alloc, said.as_slice())
}
