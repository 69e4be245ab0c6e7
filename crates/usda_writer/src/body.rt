//! Prims, variants and what stands in them.
ghost use Rattle.std.specs.Prelude.{◌≡◌, ◌++◌, OnOk, false, string_bytes};
ghost use Rattle.std.specs.List.{flat_map};
ghost use Rattle.usda_writer.specs.Properties.{property_lines};
ghost use Rattle.usda_writer.specs.Canonical.{order_line, type_part, spec_block, prim_title, prim_head, variant_head, set_word, set_head, child_below, children_text, variant_below, set_text, body_text};
ghost use Rattle.sdf_specs.specs.Found.{StandAtPaths};
ghost use Rattle.sdf_paths.specs.Paths.{is_property};

use crate::fields::push_spec_lines;
use crate::lists::push_bracketed;
use crate::properties::push_property;
use crate::texts::{push_block, push_line, push_name, push_specifier};
use plain_data::Text;
use sdf_paths::Path;
use sdf_specs::{Layer, Properties, Spec, VariantSet, prim_spec_below, variant_spec_below};
use sdf_values::push_blanks;
use std::alloc::AllocError;

/// Appends an order, where there is one.
pub fn push_order(
    out: &mut String,
    level: usize,
    word: &str,
    names: &[Text],
) -> Result<(), AllocError>
    ensures { OnOk result (string_bytes out.new ≡ string_bytes out.old ++ order_line level word.now names.now) }
{
    if names.is_empty() {
        return Ok(());
    }
    push_blanks(out, level)?;
    out.push_str("reorder ")?;
    out.push_str(word)?;
    out.push_str(" = ")?;
    push_bracketed(out, names)?;
    out.push_str("\n")
}

/// Appends the type of a prim, where it has one.
fn push_type_part(out: &mut String, type_name: &Option<Text>) -> Result<(), AllocError>
    ensures { OnOk result (string_bytes out.new ≡ string_bytes out.old ++ type_part type_name.now) }
{
    match type_name {
        None => Ok(()),
        Some(name) => {
            out.push_str(name.as_str())?;
            out.push_str(" ")
        }
    }
}

/// Appends the metadata of a prim or a variant behind its name.
#[tactic(auto, unfolding(crate::specs::Canonical::spec_block))]
fn push_spec_block(out: &mut String, level: usize, spec: &Spec) -> Result<(), AllocError>
    ensures { OnOk result (string_bytes out.new ≡ string_bytes out.old ++ spec_block level spec.now) }
{
    let mut lines = String::new(*out.allocator());
    push_spec_lines(&mut lines, level.saturating_add(1), spec)?;
    push_block(out, level, lines.as_str())
}

fn push_properties(
    out: &mut String,
    level: usize,
    properties: &Properties,
) -> Result<(), AllocError>
    ensures { OnOk result (string_bytes out.new ≡ string_bytes out.old ++ flat_map (property_lines level) properties.now) }
{
    for property in properties.iter() {
        push_property(out, level, property)?;
    }
    Ok(())
}

/// What a prim is, and its name.
fn push_prim_title(
    out: &mut String,
    level: usize,
    name: &Text,
    spec: &Spec,
) -> Result<(), AllocError>
    ensures { OnOk result (string_bytes out.new ≡ string_bytes out.old ++ prim_title level name.now spec.now) }
{
    push_blanks(out, level)?;
    push_specifier(out, spec.body.specifier)?;
    out.push_str(" ")?;
    push_type_part(out, &spec.body.type_name)?;
    push_name(out, name)
}

/// The lines before the body of a prim.
fn push_prim_head(
    out: &mut String,
    level: usize,
    name: &Text,
    spec: &Spec,
) -> Result<(), AllocError>
    ensures { OnOk result (string_bytes out.new ≡ string_bytes out.old ++ prim_head level name.now spec.now) }
{
    out.push_str("\n")?;
    push_prim_title(out, level, name, spec)?;
    push_spec_block(out, level, spec)?;
    out.push_str("\n")?;
    push_line(out, level, "{")
}

/// The line before the body of a variant.
fn push_variant_head(
    out: &mut String,
    level: usize,
    name: &Text,
    spec: &Spec,
) -> Result<(), AllocError>
    ensures { OnOk result (string_bytes out.new ≡ string_bytes out.old ++ variant_head level name.now spec.now) }
{
    push_blanks(out, level)?;
    push_name(out, name)?;
    push_spec_block(out, level, spec)?;
    out.push_str(" {\n")
}

#[tactic(auto, unfolding(crate::specs::Canonical::set_word))]
fn set_word() -> &'static str
    ensures { result.now ≡ set_word }
{
    "variantSet "
}

/// The line before the variants of a set.
fn push_set_head(out: &mut String, level: usize, set: &Text) -> Result<(), AllocError>
    ensures { OnOk result (string_bytes out.new ≡ string_bytes out.old ++ set_head level set.now) }
{
    push_blanks(out, level)?;
    out.push_str(set_word())?;
    push_name(out, set)?;
    out.push_str(" = {\n")
}

/// Appends the prims of these names below a path, each with what stands below it for so many levels.
#[cycle(body)]
pub fn push_children(
    out: &mut String,
    layer: &Layer,
    levels: usize,
    level: usize,
    path: &Path,
    names: &[Text],
) -> Result<(), AllocError>
    requires stand { StandAtPaths layer.now.specs }
    requires prim { is_property path.now ≡ false }
    ensures { OnOk result (string_bytes out.new ≡ string_bytes out.old ++ children_text layer.now.specs (body_text layer.now.specs levels) level path.now names.now) }
{
    for name in names {
        push_child(out, layer, levels, level, path, name)?;
    }
    Ok(())
}

#[cycle(body)]
fn push_child(
    out: &mut String,
    layer: &Layer,
    levels: usize,
    level: usize,
    path: &Path,
    name: &Text,
) -> Result<(), AllocError>
    requires stand { StandAtPaths layer.now.specs }
    requires prim { is_property path.now ≡ false }
    ensures { OnOk result (string_bytes out.new ≡ string_bytes out.old ++ child_below layer.now.specs (body_text layer.now.specs levels) level path.now name.now) }
{
    let Some((child, spec)) = prim_spec_below(layer, path, name)? else {
        return Ok(());
    };
    push_prim_head(out, level, name, spec)?;
    push_body(out, layer, levels, level.saturating_add(1), &child, spec)?;
    push_line(out, level, "}")
}

#[cycle(body)]
fn push_variants(
    out: &mut String,
    layer: &Layer,
    levels: usize,
    level: usize,
    path: &Path,
    set: &VariantSet,
) -> Result<(), AllocError>
    requires stand { StandAtPaths layer.now.specs }
    requires prim { is_property path.now ≡ false }
    ensures { OnOk result (string_bytes out.new ≡ string_bytes out.old ++ flat_map (variant_below layer.now.specs (body_text layer.now.specs levels) level path.now set.now.set) set.now.variants) }
{
    for variant in set.variants.as_slice() {
        push_variant(out, layer, levels, level, path, &set.set, variant)?;
    }
    Ok(())
}

#[cycle(body)]
fn push_variant(
    out: &mut String,
    layer: &Layer,
    levels: usize,
    level: usize,
    path: &Path,
    set: &Text,
    variant: &Text,
) -> Result<(), AllocError>
    requires stand { StandAtPaths layer.now.specs }
    requires prim { is_property path.now ≡ false }
    ensures { OnOk result (string_bytes out.new ≡ string_bytes out.old ++ variant_below layer.now.specs (body_text layer.now.specs levels) level path.now set.now variant.now) }
{
    let Some((below, spec)) = variant_spec_below(layer, path, set, variant)? else {
        return Ok(());
    };
    push_variant_head(out, level, variant, spec)?;
    push_body(out, layer, levels, level.saturating_add(1), &below, spec)?;
    push_line(out, level, "}")
}

#[cycle(body)]
fn push_set(
    out: &mut String,
    layer: &Layer,
    levels: usize,
    level: usize,
    path: &Path,
    set: &VariantSet,
) -> Result<(), AllocError>
    requires stand { StandAtPaths layer.now.specs }
    requires prim { is_property path.now ≡ false }
    ensures { OnOk result (string_bytes out.new ≡ string_bytes out.old ++ set_text layer.now.specs (body_text layer.now.specs levels) level path.now set.now) }
{
    push_set_head(out, level, &set.set)?;
    push_variants(out, layer, levels, level.saturating_add(1), path, set)?;
    push_line(out, level, "}")
}

#[cycle(body)]
fn push_sets(
    out: &mut String,
    layer: &Layer,
    levels: usize,
    level: usize,
    path: &Path,
    sets: &[VariantSet],
) -> Result<(), AllocError>
    requires stand { StandAtPaths layer.now.specs }
    requires prim { is_property path.now ≡ false }
    ensures { OnOk result (string_bytes out.new ≡ string_bytes out.old ++ flat_map (set_text layer.now.specs (body_text layer.now.specs levels) level path.now) sets.now) }
{
    for set in sets {
        push_set(out, layer, levels, level, path, set)?;
    }
    Ok(())
}

#[cycle(body)]
fn push_body(
    out: &mut String,
    layer: &Layer,
    levels: usize,
    level: usize,
    path: &Path,
    spec: &Spec,
) -> Result<(), AllocError>
    requires stand { StandAtPaths layer.now.specs }
    requires prim { is_property path.now ≡ false }
    ensures { OnOk result (string_bytes out.new ≡ string_bytes out.old ++ body_text layer.now.specs levels level path.now spec.now) }
{
    if levels == 0 {
        return Ok(());
    }
    push_order(out, level, "nameChildren", spec.body.child_order.as_slice())?;
    push_order(
        out,
        level,
        "properties",
        spec.body.property_order.as_slice(),
    )?;
    push_properties(out, level, &spec.body.properties)?;
    push_sets(
        out,
        layer,
        levels - 1,
        level,
        path,
        spec.body.variant_names.as_slice(),
    )?;
    push_children(
        out,
        layer,
        levels - 1,
        level,
        path,
        spec.body.children.as_slice(),
    )
}
