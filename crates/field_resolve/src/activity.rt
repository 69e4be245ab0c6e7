//! Whether a prim is active, and the names of the children of one that is.
ghost use Rattle.std.specs.Prelude.{◌≡◌, false, Some, IfOk};
ghost use Rattle.composition.specs.Fields.{is_false};
ghost use Rattle.field_resolve.specs.Activity.{active_key, active_names, says_inactive};
ghost use Rattle.field_resolve.specs.Folding.{meta_on};

use crate::names::child_names_of;
use plain_data::{Items, Text};
use prim_opinions::SaidAt;
use sdf_values::Value;
use spec_properties::Meta;
use std::alloc::{AllocError, Global};

/// Whether a value is `false`.
fn is_false(value: &Value) -> bool
    ensures { result ≡ is_false (Some value.now) }
{
    match value {
        Value::Bool(value) => !*value,
        _ => false,
    }
}

/// The key of what says whether a prim is active.
#[tactic(auto, unfolding(crate::specs::Activity::active_key))]
fn active_key(alloc: Global) -> Result<Text, AllocError>
    ensures { IfOk result (λ key. key ≡ active_key) }
{
    Text::of(alloc, "active")
}

/// Whether metadata says that its prim is not active.
fn is_inactive(alloc: Global, meta: &Meta) -> Result<bool, AllocError>
    ensures { IfOk result (λ inactive. inactive ≡ says_inactive meta.now) }
{
    let key = active_key(alloc)?;
    match meta.get(&key) {
        Some(value) => Ok(is_false(value)),
        None => Ok(false),
    }
}

/// The names of the children that opinions give, each once, in their order; none of a prim that is not active. Those too long for a
/// path are among them.
pub fn active_names(
    alloc: Global,
    meta: &Meta,
    said: &[SaidAt<'_, '_>],
) -> Result<Items<Text>, AllocError>
    requires { meta.now ≡ meta_on said.now }
    ensures { IfOk result (λ names. names ≡ active_names said.now) }
{
    let inactive = is_inactive(alloc, meta)?;
    if inactive {
        return Ok(Items::new(alloc));
    }
    child_names_of(alloc, said)
}
