//! The text of a layer.
ghost use Rattle.std.specs.Prelude.{◌≡◌, ◌++◌, Some, OnOk, IfOk, string_bytes};
ghost use Rattle.usda_writer.specs.Canonical.{with_default_prim, head_lines, head_block, root_order_text, first_line, layer_front, canonical};

use crate::body::{push_children, push_order};
use crate::fields::{push_meta, push_sublayers};
use plain_data::{Text, copy};
use sdf_paths::Path;
use sdf_specs::{Head, Layer, Meta, stand_at_paths};
use sdf_values::Value;
use std::alloc::{AllocError, Global};

/// The metadata of a layer, with its default prim among the keys.
fn with_default_prim(alloc: Global, head: &Head) -> Result<Meta, AllocError>
    ensures { IfOk result (λ meta. meta ≡ with_default_prim head.now.default_prim head.now.meta) }
{
    match &head.default_prim {
        None => copy(&head.meta),
        Some(name) => with_key(alloc, &head.meta, name),
    }
}

/// Metadata with a default prim.
fn with_key(alloc: Global, meta: &Meta, name: &Text) -> Result<Meta, AllocError>
    ensures { IfOk result (λ new. new ≡ with_default_prim (Some name.now) meta.now) }
{
    let mut new = copy(meta)?;
    let key = Text::of(alloc, "defaultPrim")?;
    let value = Value::Text(copy(name)?);
    drop(new.insert(key, value)?);
    Ok(new)
}

/// Appends the lines of the metadata of a layer.
fn push_head_lines(alloc: Global, out: &mut String, head: &Head) -> Result<(), AllocError>
    ensures { OnOk result (string_bytes out.new ≡ string_bytes out.old ++ head_lines head.now) }
{
    let meta = with_default_prim(alloc, head)?;
    push_meta(out, 1, &meta)?;
    push_sublayers(out, 1, head.sublayers.as_slice())
}

/// Appends lines between brackets, where there are any.
fn push_head_block(out: &mut String, lines: &str) -> Result<(), AllocError>
    ensures { OnOk result (string_bytes out.new ≡ string_bytes out.old ++ head_block lines.now) }
{
    if lines.is_empty() {
        return Ok(());
    }
    out.push_str("(\n")?;
    out.push_str(lines)?;
    out.push_str(")\n")
}

fn push_root_order(out: &mut String, names: &[Text]) -> Result<(), AllocError>
    ensures { OnOk result (string_bytes out.new ≡ string_bytes out.old ++ root_order_text names.now) }
{
    if names.is_empty() {
        return Ok(());
    }
    out.push_str("\n")?;
    push_order(out, 0, "rootPrims", names)
}

/// Appends what stands before the root prims.
fn push_front(alloc: Global, out: &mut String, head: &Head) -> Result<(), AllocError>
    ensures { OnOk result (string_bytes out.new ≡ string_bytes out.old ++ layer_front head.now) }
{
    let mut lines = String::new(alloc);
    push_head_lines(alloc, &mut lines, head)?;
    out.push_str(first_line())?;
    push_head_block(out, lines.as_str())?;
    push_root_order(out, head.root_order.as_slice())
}

#[tactic(auto, unfolding(crate::specs::Canonical::first_line))]
fn first_line() -> &'static str
    ensures { result.now ≡ first_line }
{
    "#usda 1.0\n"
}

/// Appends the text of a layer.
#[tactic(auto, unfolding(crate::specs::Canonical::canonical))]
fn push_layer(alloc: Global, out: &mut String, layer: &Layer) -> Result<(), AllocError>
    ensures { OnOk result (string_bytes out.new ≡ string_bytes out.old ++ canonical layer.now) }
{
    stand_at_paths(layer);
    let head = layer.head();
    push_front(alloc, out, head)?;
    let root = Path::root(alloc);
    push_children(
        out,
        layer,
        layer.len(),
        0,
        &root,
        head.root_names.as_slice(),
    )
}

/// The canonical text of a layer. A name of a child or a variant without a spec is passed over, and a spec that its owner does not
/// name is not written.
///
/// # Errors
///
/// Memory ran out.
pub fn write_layer(alloc: Global, layer: &Layer) -> Result<Vec<u8>, AllocError>
    ensures { IfOk result (λ text. text.items ≡ canonical layer.now) }
{
    let mut out = String::new(alloc);
    push_layer(alloc, &mut out, layer)?;
    Ok(out.into_bytes())
}
