//! Lines of metadata.
ghost use Rattle.std.specs.Prelude.{◌≡◌, ◌++◌, OnOk, IfOk, codes, map, string_bytes};
ghost use Rattle.std.specs.List.{flat_map};
ghost use Rattle.sdf_values.specs.Print.{print};
ghost use Rattle.usda_writer.specs.Fields.{line, is_comment, comment_line, key_line, meta_lines, selection_item, selection_lines, spec_lines, sublayer_lines};

use crate::lists::{push_edit, push_list};
use plain_data::{Items, Text, copy};
use sdf_values::{DictItem, DictType, ElementType, TypeName, Value, push_blanks, push_value};
use spec_parts::{Spec, SubLayer};
use spec_properties::{Meta, Selections};
use std::alloc::{AllocError, Global};

fn is_comment(key: &Text) -> bool
    ensures { result ≡ is_comment key.now }
{
    key.as_str() == "comment"
}

/// Appends the comment of an owner.
fn push_comments(out: &mut String, level: usize, meta: &Meta) -> Result<(), AllocError>
    ensures { OnOk result (string_bytes out.new ≡ string_bytes out.old ++ flat_map (comment_line level) meta.now) }
{
    for (key, value) in meta.iter() {
        if is_comment(key) {
            push_blanks(out, level)?;
            push_value(out, value, level)?;
            out.push_str("\n")?;
        }
    }
    Ok(())
}

/// Appends the other keys of an owner.
fn push_keys(out: &mut String, level: usize, meta: &Meta) -> Result<(), AllocError>
    ensures { OnOk result (string_bytes out.new ≡ string_bytes out.old ++ flat_map (key_line level) meta.now) }
{
    for (key, value) in meta.iter() {
        if !is_comment(key) {
            push_blanks(out, level)?;
            out.push_str(key.as_str())?;
            out.push_str(" = ")?;
            push_value(out, value, level)?;
            out.push_str("\n")?;
        }
    }
    Ok(())
}

/// Appends the comment of an owner, and then its other keys in their order.
pub fn push_meta(out: &mut String, level: usize, meta: &Meta) -> Result<(), AllocError>
    ensures { OnOk result (string_bytes out.new ≡ string_bytes out.old ++ meta_lines level meta.now) }
{
    push_comments(out, level, meta)?;
    push_keys(out, level, meta)
}

/// A variant that is selected, as an entry of a dictionary.
fn selection_item(set: &Text, variant: &Text) -> Result<DictItem, AllocError>
    ensures { IfOk result (λ item. item ≡ selection_item (set.now, variant.now)) }
{
    Ok(DictItem {
        key: copy(set)?,
        ty: DictType::Plain(TypeName::one(ElementType::String)),
        value: Value::Text(copy(variant)?),
    })
}

/// The variants that are selected, as entries of a dictionary.
fn selection_items(alloc: Global, selections: &Selections) -> Result<Items<DictItem>, AllocError>
    ensures { IfOk result (λ items. items ≡ map selection_item selections.now) }
{
    let mut items = Items::new(alloc);
    for (set, variant) in selections.iter() {
        items.push(selection_item(set, variant)?)?;
    }
    Ok(items)
}

/// Appends the word `variants` and a value.
fn push_variants(out: &mut String, level: usize, value: &Value) -> Result<(), AllocError>
    ensures { OnOk result (string_bytes out.new ≡ string_bytes out.old ++ line level (codes "variants = " ++ print value.now level)) }
{
    push_blanks(out, level)?;
    out.push_str("variants = ")?;
    push_value(out, value, level)?;
    out.push_str("\n")
}

/// Appends the variants that are selected.
fn push_selections(
    out: &mut String,
    level: usize,
    selections: &Selections,
) -> Result<(), AllocError>
    ensures { OnOk result (string_bytes out.new ≡ string_bytes out.old ++ selection_lines level selections.now) }
{
    if selections.is_empty() {
        return Ok(());
    }
    let alloc = *out.allocator();
    let value = Value::Dict(selection_items(alloc, selections)?);
    let pushed = push_variants(out, level, &value);
    drop(value);
    pushed
}

/// Appends the metadata of a prim or a variant.
#[tactic(auto, unfolding(crate::specs::Fields::spec_lines))]
pub fn push_spec_lines(out: &mut String, level: usize, spec: &Spec) -> Result<(), AllocError>
    ensures { OnOk result (string_bytes out.new ≡ string_bytes out.old ++ spec_lines level spec.now) }
{
    push_meta(out, level, &spec.body.meta)?;
    push_list(out, level, "apiSchemas", &spec.body.api_schemas)?;
    push_list(out, level, "clipSets", &spec.body.clip_sets)?;
    push_list(out, level, "inherits", &spec.arcs.inherits)?;
    push_list(out, level, "variantSets", &spec.arcs.variant_sets)?;
    push_selections(out, level, &spec.arcs.selections)?;
    push_list(out, level, "references", &spec.arcs.references)?;
    push_list(out, level, "payload", &spec.arcs.payloads)?;
    push_list(out, level, "specializes", &spec.arcs.specializes)
}

/// Appends the sublayers, if there are any.
pub fn push_sublayers(
    out: &mut String,
    level: usize,
    sublayers: &[SubLayer],
) -> Result<(), AllocError>
    ensures { OnOk result (string_bytes out.new ≡ string_bytes out.old ++ sublayer_lines level sublayers.now) }
{
    push_edit(out, level, "", "subLayers", sublayers)
}
