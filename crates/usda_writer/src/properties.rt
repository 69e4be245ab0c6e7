//! Lines of properties.
ghost use Rattle.std.specs.Prelude.{◌≡◌, ◌++◌, OnOk, IfOk, string_bytes, codes};
ghost use Rattle.std.specs.List.{flat_map};
ghost use Rattle.sdf_values.specs.TypeNames.{type_text};
ghost use Rattle.sdf_values.specs.Print.{blanks, deeper};
ghost use Rattle.sdf_paths.specs.Paths.{path_text};
ghost use Rattle.usda_writer.specs.Texts.{metadata_block};
ghost use Rattle.usda_writer.specs.Fields.{list_lines, meta_lines};
ghost use Rattle.usda_writer.specs.Properties.{flag_text, value_text, sample_line, sample_lines, targets_text, attribute_line, relationship_lines, property_lines};

use crate::fields::push_meta;
use crate::lists::{push_edits, push_explicit, push_list};
use crate::texts::{push_block, push_flag, push_line};
use list_ops::ListOp;
use plain_data::{Items, Text};
use sdf_paths::Path;
use sdf_values::{TimeCode, TypeName, Value, push_blanks, push_time, push_type, push_value};
use spec_properties::{Meta, Property, Samples};
use std::alloc::{AllocError, Global};

/// Appends the metadata of a property behind its line.
fn push_property_block(out: &mut String, level: usize, meta: &Meta) -> Result<(), AllocError>
    ensures { OnOk result (string_bytes out.new ≡ string_bytes out.old ++ metadata_block level (meta_lines (deeper level) meta.now)) }
{
    let mut lines = String::new(*out.allocator());
    push_meta(&mut lines, level.saturating_add(1), meta)?;
    push_block(out, level, lines.as_str())
}

fn push_default(out: &mut String, level: usize, value: &Option<Value>) -> Result<(), AllocError>
    ensures { OnOk result (string_bytes out.new ≡ string_bytes out.old ++ value_text level value.now) }
{
    match value {
        None => Ok(()),
        Some(value) => {
            out.push_str(" = ")?;
            push_value(out, value, level)
        }
    }
}

fn push_sample(
    out: &mut String,
    level: usize,
    time: TimeCode,
    value: &Value,
) -> Result<(), AllocError>
    ensures { OnOk result (string_bytes out.new ≡ string_bytes out.old ++ sample_line level (time, value.now)) }
{
    push_blanks(out, level)?;
    push_time(out, time)?;
    out.push_str(": ")?;
    push_value(out, value, level)?;
    out.push_str(",")?;
    out.push_str("\n")
}

/// Appends a line for each time.
fn push_sample_lines(out: &mut String, level: usize, samples: &Samples) -> Result<(), AllocError>
    ensures { OnOk result (string_bytes out.new ≡ string_bytes out.old ++ flat_map (sample_line level) samples.now) }
{
    for (time, value) in samples.iter() {
        push_sample(out, level, *time, value)?;
    }
    Ok(())
}

/// Appends the samples of an attribute of this type and name.
fn push_samples(
    out: &mut String,
    level: usize,
    typed: &str,
    samples: &Samples,
) -> Result<(), AllocError>
    ensures { OnOk result (string_bytes out.new ≡ string_bytes out.old ++ sample_lines level typed.now samples.now) }
{
    if samples.is_empty() {
        return Ok(());
    }
    push_blanks(out, level)?;
    out.push_str(typed)?;
    out.push_str(".timeSamples = {\n")?;
    push_sample_lines(out, level.saturating_add(1), samples)?;
    push_line(out, level, "}")
}

/// The type and the name of an attribute.
fn typed_name(alloc: Global, ty: TypeName, name: &Text) -> Result<String, AllocError>
    ensures { IfOk result (λ text. string_bytes text ≡ type_text ty ++ codes " " ++ name.now) }
{
    let mut text = String::new(alloc);
    push_type(&mut text, ty)?;
    text.push_str(" ")?;
    text.push_str(name.as_str())?;
    Ok(text)
}

/// Appends the targets behind a relationship's name.
fn push_targets(out: &mut String, targets: &Option<Items<Path>>) -> Result<(), AllocError>
    ensures { OnOk result (string_bytes out.new ≡ string_bytes out.old ++ targets_text targets.now) }
{
    match targets {
        None => Ok(()),
        Some(paths) => {
            out.push_str(" = ")?;
            push_explicit(out, paths.as_slice())
        }
    }
}

/// Appends the lines of a relationship of this name.
fn push_relationship(
    out: &mut String,
    level: usize,
    named: &str,
    custom: bool,
    targets: &ListOp<Path>,
    meta: &Meta,
) -> Result<(), AllocError>
    ensures { OnOk result (string_bytes out.new ≡ string_bytes out.old ++ relationship_lines level named.now custom targets.now meta.now) }
{
    push_blanks(out, level)?;
    push_flag(out, custom, "custom ")?;
    out.push_str(named)?;
    push_targets(out, &targets.explicit)?;
    push_property_block(out, level, meta)?;
    out.push_str("\n")?;
    push_edits(out, level, named, targets)
}

/// What stands before the default of an attribute.
fn push_attribute_head(
    out: &mut String,
    level: usize,
    custom: bool,
    uniform: bool,
    typed: &str,
) -> Result<(), AllocError>
    ensures { OnOk result (string_bytes out.new ≡ string_bytes out.old ++ (blanks level ++ flag_text custom (codes "custom ") ++ flag_text uniform (codes "uniform ") ++ typed.now)) }
{
    push_blanks(out, level)?;
    push_flag(out, custom, "custom ")?;
    push_flag(out, uniform, "uniform ")?;
    out.push_str(typed)
}

/// Appends the line of an attribute of this type and name.
fn push_attribute_line(
    out: &mut String,
    level: usize,
    typed: &str,
    custom: bool,
    uniform: bool,
    default: &Option<Value>,
    meta: &Meta,
) -> Result<(), AllocError>
    ensures { OnOk result (string_bytes out.new ≡ string_bytes out.old ++ attribute_line level typed.now custom uniform default.now meta.now) }
{
    push_attribute_head(out, level, custom, uniform, typed)?;
    push_default(out, level, default)?;
    push_property_block(out, level, meta)?;
    out.push_str("\n")
}

/// Appends the connections of an attribute of this type and name.
fn push_connections(
    out: &mut String,
    level: usize,
    typed: &str,
    connections: &ListOp<Path>,
) -> Result<(), AllocError>
    ensures { OnOk result (string_bytes out.new ≡ string_bytes out.old ++ list_lines level (typed.now ++ codes ".connect") path_text connections.now) }
{
    let mut named = String::new(*out.allocator());
    named.push_str(typed)?;
    named.push_str(".connect")?;
    push_list(out, level, named.as_str(), connections)
}

/// Appends the lines of a property.
pub fn push_property(out: &mut String, level: usize, property: &Property) -> Result<(), AllocError>
    ensures { OnOk result (string_bytes out.new ≡ string_bytes out.old ++ property_lines level property.now) }
{
    let alloc = *out.allocator();
    match property {
        Property::Attr {
            name,
            ty,
            custom,
            uniform,
            default,
            samples,
            connections,
            meta,
        } => {
            let typed = typed_name(alloc, *ty, name)?;
            push_attribute_line(out, level, typed.as_str(), *custom, *uniform, default, meta)?;
            push_samples(out, level, typed.as_str(), samples)?;
            push_connections(out, level, typed.as_str(), connections)
        }
        Property::Rel {
            name,
            custom,
            targets,
            meta,
        } => {
            let named = rel_name(alloc, name)?;
            push_relationship(out, level, named.as_str(), *custom, targets, meta)
        }
    }
}

/// The word `rel` and the name of a relationship.
fn rel_name(alloc: Global, name: &Text) -> Result<String, AllocError>
    ensures { IfOk result (λ text. string_bytes text ≡ codes "rel " ++ name.now) }
{
    let mut text = String::new(alloc);
    text.push_str("rel ")?;
    text.push_str(name.as_str())?;
    Ok(text)
}
