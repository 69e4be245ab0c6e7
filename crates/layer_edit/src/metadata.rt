//! Metadata of layers, prims, variants and properties.
ghost use Rattle.std.specs.Prelude.{◌≡◌, OnOk, IfOk};
ghost use Rattle.layer_edit.specs.Outcomes.{Does};
ghost use Rattle.layer_edit.specs.Metadata.{text_of, with_head_entry, with_meta, meta_set, meta_cleared};

use crate::change::{PropertyChange, SpecChange};
use crate::places::{change_at, change_property_at, has_spec};
use crate::property_changes::with_entry;
use crate::typing::meta_value;
use edit_batches::{EditFault, OpRefused};
use plain_data::{Text, copy};
use sdf_paths::{Element, Path};
use sdf_specs::{Head, Layer};
use sdf_values::Value;
use std::alloc::{AllocError, Global};

fn text_of(value: Option<Value>) -> Option<Text>
    ensures { result ≡ text_of value }
{
    match value {
        Some(value) => match value {
            Value::Text(text) => Some(text),
            other => {
                drop(other);
                None
            }
        },
        None => None,
    }
}

fn with_head_entry(head: Head, key: Text, value: Option<Value>) -> Result<Head, AllocError>
    ensures { IfOk result (λ changed. changed ≡ with_head_entry key value head) }
{
    let mut head = head;
    if key.as_str() == "defaultPrim" {
        head.default_prim = text_of(value);
        return Ok(head);
    }
    let Head {
        sublayers,
        default_prim,
        meta,
        root_names,
        root_order,
    } = head;
    match with_entry(meta, key, value) {
        Ok(meta) => Ok(Head {
            sublayers,
            default_prim,
            meta,
            root_names,
            root_order,
        }),
        Err(error) => {
            drop((sublayers, default_prim, root_names, root_order));
            Err(error)
        }
    }
}

fn change_head(
    alloc: Global,
    layer: &mut Layer,
    key: Text,
    value: Option<Value>,
) -> Result<(), AllocError>
    ensures { OnOk result (layer.new ≡ record layer.old { head = with_head_entry key value layer.old.head }) }
{
    let head = layer.replace_head(Head::blank(alloc));
    layer.set_head(with_head_entry(head, key, value)?);
    Ok(())
}

/// Gives metadata at a path a value, or takes it away.
#[tactic(auto, unfolding(crate::specs::Metadata::with_meta))]
fn give_meta(
    alloc: Global,
    layer: &mut Layer,
    path: &Path,
    key: Text,
    value: Option<Value>,
) -> Result<(), AllocError>
    ensures { OnOk result (layer.new ≡ with_meta path.now key value layer.old) }
{
    match path.elements().last() {
        Some(Element::Property(_)) => {
            change_property_at(alloc, layer, path, PropertyChange::Meta { key, value })
        }
        Some(Element::Prim(_)) => change_at(alloc, layer, path, SpecChange::Meta { key, value }),
        Some(Element::Selection { .. }) => {
            change_at(alloc, layer, path, SpecChange::Meta { key, value })
        }
        None => change_head(alloc, layer, key, value),
    }
}

/// Gives metadata to a prim, a variant, a property or, at `/`, to the layer.
///
/// # Errors
///
/// `NoSpec`; `ValueShape` where the key does not take the value. The layer is then as before, unless memory ran out.
#[tactic(auto, unfolding(crate::specs::Metadata::meta_set, crate::specs::Outcomes::passing, crate::specs::Outcomes::given))]
pub fn set_meta(
    alloc: Global,
    layer: &mut Layer,
    path: &Path,
    key: &Text,
    value: &Value,
) -> Result<(), OpRefused>
    ensures { Does result layer.old layer.new (meta_set path.now key.now value.now layer.old) }
{
    if !has_spec(alloc, layer, path)? {
        return Err(OpRefused::Fault(EditFault::NoSpec));
    }
    let name = copy(key)?;
    match meta_value(alloc, key, value)? {
        Some(value) => {
            give_meta(alloc, layer, path, name, Some(value))?;
            Ok(())
        }
        None => Err(OpRefused::Fault(EditFault::ValueShape)),
    }
}

/// Takes metadata away.
///
/// # Errors
///
/// `NoSpec`. The layer is then as before, unless memory ran out.
#[tactic(auto, unfolding(crate::specs::Metadata::meta_cleared, crate::specs::Outcomes::passing))]
pub fn clear_meta(
    alloc: Global,
    layer: &mut Layer,
    path: &Path,
    key: &Text,
) -> Result<(), OpRefused>
    ensures { Does result layer.old layer.new (meta_cleared path.now key.now layer.old) }
{
    if !has_spec(alloc, layer, path)? {
        return Err(OpRefused::Fault(EditFault::NoSpec));
    }
    give_meta(alloc, layer, path, copy(key)?, None)?;
    Ok(())
}
