//! What the stage has at `/`, as the head of a layer.
ghost use Rattle.std.specs.Prelude.{◌≡◌, IfOk};
ghost use Rattle.std.specs.Option.{option_copied};
ghost use Rattle.flatten.specs.Flattened.{text_of, default_in, beside_default, flat_head, head_of};

use plain_data::{Items, Text, copy};
use prim_view::PrimView;
use sdf_specs::{Head, Meta, default_key};
use sdf_values::Value;
use stage_entries::StageEntry;
use std::alloc::{AllocError, Global};

/// The text that a value is.
fn text_of(value: &Value) -> Option<&Text>
    ensures { option_copied result ≡ text_of value.now }
{
    match value {
        Value::Text(text) => Some(text),
        _ => None,
    }
}

/// The default prim that metadata names.
#[tactic(auto, unfolding(crate::specs::Flattened::default_in))]
fn default_in(alloc: Global, meta: &Meta) -> Result<Option<Text>, AllocError>
    ensures { IfOk result (λ name. name ≡ default_in meta.now) }
{
    let key = default_key(alloc)?;
    match meta.get(&key) {
        None => Ok(None),
        Some(value) => match text_of(value) {
            None => Ok(None),
            Some(text) => Ok(Some(copy(text)?)),
        },
    }
}

/// Metadata without the default prim.
#[tactic(auto, unfolding(crate::specs::Flattened::beside_default))]
fn beside_default(alloc: Global, name: &Option<Text>, meta: &Meta) -> Result<Meta, AllocError>
    ensures { IfOk result (λ rest. rest ≡ beside_default name.now meta.now) }
{
    let mut rest = copy(meta)?;
    if name.is_some() {
        let key = default_key(alloc)?;
        drop(rest.remove(&key));
    }
    Ok(rest)
}

/// The default prim that metadata names, and the metadata beside it.
fn flat_fields(alloc: Global, meta: &Meta) -> Result<(Option<Text>, Meta), AllocError>
    ensures { IfOk result (λ both. both ≡ (default_in meta.now, beside_default (default_in meta.now) meta.now)) }
{
    let default_prim = default_in(alloc, meta)?;
    match beside_default(alloc, &default_prim, meta) {
        Ok(rest) => Ok((default_prim, rest)),
        Err(error) => {
            drop(default_prim);
            Err(error)
        }
    }
}

/// The head that says what `/` has.
#[tactic(auto, unfolding(crate::specs::Flattened::flat_head))]
fn flat_head(alloc: Global, root: &PrimView) -> Result<Head, AllocError>
    ensures { IfOk result (λ head. head ≡ flat_head root.now) }
{
    let (default_prim, meta) = flat_fields(alloc, &root.meta)?;
    match copy(&root.children) {
        Ok(root_names) => Ok(Head {
            sublayers: Items::new(alloc),
            default_prim,
            meta,
            root_names,
            root_order: Items::new(alloc),
        }),
        Err(error) => {
            drop((default_prim, meta));
            Err(error)
        }
    }
}

/// The head of a stage's layer.
#[tactic(auto, unfolding(crate::specs::Flattened::head_of))]
pub fn head_of(alloc: Global, root: Option<&StageEntry>) -> Result<Head, AllocError>
    ensures { IfOk result (λ head. head ≡ head_of (option_copied root.entry)) }
{
    match root {
        None => Ok(Head::blank(alloc)),
        Some(root) => flat_head(alloc, root.view()),
    }
}
