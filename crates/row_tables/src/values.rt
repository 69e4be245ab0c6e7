//! Calls on the values and the targets of a property.

use crate::fault::CallFault;
use crate::printing::{push_faults, push_samples, push_targets};
use crate::words::property_of;
use layer_set::World;
use plain_data::{Items, Text};
use prim_index::{PrimIndex, index};
use sdf_paths::Path;
use sdf_values::{Value, push_value};
use std::alloc::{AllocError, Global};
use target_resolve::{TargetList, resolve_targets};
use value_resolve::{AttrValue, resolve_attr};

fn push_default(out: &mut String, default: &Option<Value>) -> Result<(), AllocError> {
    out.push_str("default ")?;
    match default {
        Some(value) => push_value(out, value, 0)?,
        None => out.push_str("none")?,
    }
    out.push_str("\n")
}

/// A property that is asked for: the index of its prim, and its name.
#[derive(Drop)]
struct Asked {
    found: PrimIndex,
    name: Text,
}

/// The property that a word is the path of.
fn asked_of(alloc: Global, world: &World, word: &str) -> Result<Asked, CallFault> {
    let (prim, name) = property_of(alloc, word)?;
    let found = index(alloc, world, &prim);
    drop(prim);
    match found {
        Ok(found) => Ok(Asked { found, name }),
        Err(fault) => {
            drop(name);
            Err(fault.into())
        }
    }
}

/// Appends what is resolved of an attribute.
fn push_resolved(out: &mut String, value: &AttrValue) -> Result<(), CallFault> {
    push_default(out, &value.default)?;
    push_samples(out, "", &value.samples)?;
    Ok(push_faults(out, value.faults.as_slice())?)
}

/// Appends the value of the attribute that is asked for.
fn push_value_at(
    alloc: Global,
    out: &mut String,
    world: &World,
    asked: &Asked,
) -> Result<(), CallFault> {
    let value = resolve_attr(alloc, world, asked.found.sites(), &asked.name)?;
    let told = push_resolved(out, &value);
    drop(value);
    told
}

/// `value PATH.NAME`: the default and the samples that decide, and the faults.
pub(crate) fn push_value_call(
    alloc: Global,
    out: &mut String,
    world: &World,
    words: &str,
) -> Result<(), CallFault> {
    let asked = asked_of(alloc, world, words)?;
    let told = push_value_at(alloc, out, world, &asked);
    drop(asked);
    told
}

fn push_target_line(out: &mut String, targets: &Option<Items<Path>>) -> Result<(), AllocError> {
    out.push_str("targets ")?;
    match targets {
        Some(targets) => push_targets(out, targets.as_slice())?,
        None => out.push_str("none")?,
    }
    out.push_str("\n")
}

/// Appends the list of targets and its faults.
fn push_list(out: &mut String, list: &TargetList) -> Result<(), CallFault> {
    push_target_line(out, &list.targets)?;
    Ok(push_faults(out, list.faults.as_slice())?)
}

/// Appends the targets or the connections of the property that is asked for.
fn push_targets_at(
    alloc: Global,
    out: &mut String,
    world: &World,
    asked: &Asked,
) -> Result<(), CallFault> {
    let list = resolve_targets(alloc, world, asked.found.sites(), &asked.name)?;
    let told = push_list(out, &list);
    drop(list);
    told
}

/// `targets PATH.NAME`: the targets or connections, and the faults.
pub(crate) fn push_targets_call(
    alloc: Global,
    out: &mut String,
    world: &World,
    words: &str,
) -> Result<(), CallFault> {
    let asked = asked_of(alloc, world, words)?;
    let told = push_targets_at(alloc, out, world, &asked);
    drop(asked);
    told
}
