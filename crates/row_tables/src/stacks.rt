//! Calls on layer stacks, and on what their layers author at a path.

ghost use Rattle.arc_expand.specs.Authoring.{IsStackOf};
ghost use Rattle.layer_set.specs.LookUps.{look_ups};

use crate::fault::CallFault;
use crate::printing::{push_choices, push_faults, push_offset, push_stack, push_target};
use crate::words::{first_word, kind_of, path_of, stack_name};
use arc_expand::{
    ArcItem, ArcsHere, arcs_at, has_spec_at, selections_at, stack_of, variant_sets_at,
};
use asset_names::AssetId;
use layer_set::{Key, World};
use layer_stack::{LayerStack, stack};
use path_maps::ArcKind;
use plain_data::{Items, Text};
use prim_view::StackName;
use sdf_paths::Path;
use sdf_values::LayerOffset;
use std::alloc::{AllocError, Global};

/// Appends a layer's name and a path.
fn push_place(out: &mut String, layer: &AssetId, path: &Path) -> Result<(), AllocError> {
    out.push_str(layer.text())?;
    out.push_str(" ")?;
    push_target(out, path)
}

/// Appends a key of a world.
fn push_key(out: &mut String, key: &Key) -> Result<(), AllocError> {
    match key {
        Key::Head(layer) => {
            out.push_str("head ")?;
            out.push_str(layer.text())
        }
        Key::Arcs(layer, path) => {
            out.push_str("arcs ")?;
            push_place(out, layer, path)
        }
        Key::Body(layer, path) => {
            out.push_str("body ")?;
            push_place(out, layer, path)
        }
        Key::Load(path) => {
            out.push_str("load ")?;
            push_target(out, path)
        }
    }
}

/// Appends a line for each key.
pub(crate) fn push_keys(out: &mut String, word: &str, keys: &[Key]) -> Result<(), CallFault> {
    for key in keys {
        out.push_str(word)?;
        push_key(out, key)?;
        out.push_str("\n")?;
    }
    Ok(())
}

/// Appends a line for the name of a stack.
fn push_name(out: &mut String, name: &StackName) -> Result<(), AllocError> {
    out.push_str("stack ")?;
    push_stack(out, name)?;
    out.push_str("\n")
}

/// Appends a line for each layer of a stack.
fn push_layers(out: &mut String, layers: &[(AssetId, LayerOffset)]) -> Result<(), AllocError> {
    for (name, offset) in layers {
        out.push_str("layer ")?;
        out.push_str(name.text())?;
        out.push_str(" ")?;
        push_offset(out, *offset)?;
        out.push_str("\n")?;
    }
    Ok(())
}

/// Appends a line for each name that was asked.
fn push_asked(out: &mut String, asked: &[AssetId]) -> Result<(), AllocError> {
    for name in asked {
        out.push_str("asked ")?;
        out.push_str(name.text())?;
        out.push_str("\n")?;
    }
    Ok(())
}

/// Appends all that a layer stack has.
fn push_found(out: &mut String, found: &LayerStack) -> Result<(), CallFault> {
    push_name(out, &found.name)?;
    push_layers(out, found.layers.as_slice())?;
    push_faults(out, found.faults.as_slice())?;
    Ok(push_asked(out, found.asked.as_slice())?)
}

/// `stack STACK`: the name that it means, its layers, its faults, and the names that it asks.
pub(crate) fn push_stack_call(
    alloc: Global,
    out: &mut String,
    world: &World,
    words: &str,
) -> Result<(), CallFault> {
    let name = stack_name(alloc, words)?;
    let found = stack(alloc, world, &name)?;
    let told = push_found(out, &found);
    drop(found);
    told
}

/// Appends the first words of the line of an arc.
fn push_target_of(out: &mut String, arc: &ArcItem) -> Result<(), AllocError> {
    out.push_str("arc ")?;
    push_stack(out, &arc.stack)?;
    out.push_str(" ")?;
    push_target(out, &arc.target)?;
    out.push_str(" ")
}

fn push_arc(out: &mut String, arc: &ArcItem) -> Result<(), AllocError> {
    push_target_of(out, arc)?;
    push_offset(out, arc.offset)?;
    out.push_str(" by ")?;
    out.push_str(arc.author.text())?;
    out.push_str("\n")
}

/// The name of a stack and the path that words tell.
fn place_of(alloc: Global, words: &str) -> Result<(StackName, Path), CallFault> {
    let (name, path) = first_word(words);
    let name = stack_name(alloc, name)?;
    match path_of(alloc, path) {
        Ok(path) => Ok((name, path)),
        Err(fault) => {
            drop(name);
            Err(fault)
        }
    }
}

/// The arcs of a kind, of a stack and a path.
fn arcs_there(
    alloc: Global,
    world: &World,
    name: &StackName,
    path: &Path,
    kind: ArcKind,
) -> Result<ArcsHere, CallFault> {
    let stack = stack_of(alloc, world, name)?;
    let here = arcs_at(alloc, world, &stack, path, kind);
    drop(stack);
    Ok(here?)
}

/// The arcs of a kind, of a stack and a path, that words tell.
fn arcs_of(alloc: Global, world: &World, words: &str) -> Result<ArcsHere, CallFault> {
    let (kind, words) = first_word(words);
    let kind = kind_of(kind)?;
    let (name, path) = place_of(alloc, words)?;
    let here = arcs_there(alloc, world, &name, &path, kind);
    drop(name);
    drop(path);
    here
}

/// Appends arcs, and the faults of items that are none.
fn push_arcs(out: &mut String, here: &ArcsHere) -> Result<(), CallFault> {
    for arc in here.items.as_slice() {
        push_arc(out, arc)?;
    }
    Ok(push_faults(out, here.faults.as_slice())?)
}

/// `arcs KIND STACK PATH`: the arcs, and the faults of items that are none.
pub(crate) fn push_arcs_call(
    alloc: Global,
    out: &mut String,
    world: &World,
    words: &str,
) -> Result<(), CallFault> {
    let here = arcs_of(alloc, world, words)?;
    let told = push_arcs(out, &here);
    drop(here);
    told
}

/// `reads KIND STACK PATH`: the keys that those are made of.
pub(crate) fn push_reads_call(
    alloc: Global,
    out: &mut String,
    world: &World,
    words: &str,
) -> Result<(), CallFault> {
    let here = arcs_of(alloc, world, words)?;
    let told = push_keys(out, "", here.reads.as_slice());
    drop(here);
    told
}

/// What the layers of a stack author at a path.
#[derive(Drop)]
struct Authored {
    sets: Items<Text>,
    selections: Items<(Text, Text)>,
    has_spec: bool,
}

/// What the layers of a stack author at a path.
fn authored_at(
    alloc: Global,
    world: &World,
    stack: &LayerStack,
    path: &Path,
) -> Result<Authored, CallFault>
    requires { IsStackOf (look_ups world.now) stack.now }
{
    let has_spec = has_spec_at(alloc, world, stack, path)?;
    let sets = variant_sets_at(alloc, world, stack, path)?;
    match selections_at(alloc, world, stack, path) {
        Ok(selections) => Ok(Authored {
            sets,
            selections,
            has_spec,
        }),
        Err(fault) => {
            drop(sets);
            Err(fault.into())
        }
    }
}

/// The same of the stack of a name.
fn authored_in(
    alloc: Global,
    world: &World,
    name: &StackName,
    path: &Path,
) -> Result<Authored, CallFault> {
    let stack = stack_of(alloc, world, name)?;
    let found = authored_at(alloc, world, &stack, path);
    drop(stack);
    found
}

/// The same of the stack and the path that words tell.
fn authored_by_words(alloc: Global, world: &World, words: &str) -> Result<Authored, CallFault> {
    let (name, path) = place_of(alloc, words)?;
    let found = authored_in(alloc, world, &name, &path);
    drop(name);
    drop(path);
    found
}

/// Appends a line for each variant set.
fn push_sets(out: &mut String, sets: &[Text]) -> Result<(), AllocError> {
    for set in sets {
        out.push_str("set ")?;
        out.push_str(set.as_str())?;
        out.push_str("\n")?;
    }
    Ok(())
}

/// Appends what is authored.
fn push_authored(out: &mut String, found: &Authored) -> Result<(), CallFault> {
    push_sets(out, found.sets.as_slice())?;
    push_choices(out, "selection", found.selections.as_slice())?;
    let word = if found.has_spec {
        "has spec\n"
    } else {
        "no spec\n"
    };
    Ok(out.push_str(word)?)
}

/// `sets STACK PATH`: variant sets, selections, and whether there is a spec.
pub(crate) fn push_sets_call(
    alloc: Global,
    out: &mut String,
    world: &World,
    words: &str,
) -> Result<(), CallFault> {
    let found = authored_by_words(alloc, world, words)?;
    let told = push_authored(out, &found);
    drop(found);
    told
}
