//! Names of children and of variants, and their changes.
ghost use Rattle.std.specs.Prelude.{◌≡◌, ◌++◌, [], ◌∷◌, map, IfOk, OnOk};
ghost use Rattle.std.specs.List.{list_any};
ghost use Rattle.layer_edit.specs.Prims.{with_name, without_name, is_of, grown, new_set, with_variant, if_any, shrunk, without_variant};
ghost use Rattle.layer_edit.specs.Changes.{names_changed, sets_changed};

use crate::change::{NameChange, VariantChange};
use plain_data::{Items, Text, copy};
use sdf_specs::VariantSet;
use std::alloc::{AllocError, Global};

fn with_name(names: Items<Text>, name: Text) -> Result<Items<Text>, AllocError>
    ensures { IfOk result (λ all. all ≡ with_name name names) }
{
    let mut all = names;
    all.push(name)?;
    Ok(all)
}

fn without_name(alloc: Global, names: Items<Text>, name: &Text) -> Result<Items<Text>, AllocError>
    ensures { IfOk result (λ left. left ≡ without_name name.now names) }
{
    let mut left = Items::new(alloc);
    for other in names.into_vec() {
        if *name != other {
            left.push(other)?;
        }
    }
    Ok(left)
}

/// The names after a change.
pub fn change_names(
    alloc: Global,
    names: Items<Text>,
    change: NameChange,
) -> Result<Items<Text>, AllocError>
    ensures { IfOk result (λ changed. changed ≡ names_changed change names) }
{
    match change {
        NameChange::Add { name } => with_name(names, name),
        NameChange::Drop { name } => without_name(alloc, names, &name),
    }
}

fn is_of(set: &Text, names: &VariantSet) -> bool
    ensures { result ≡ is_of set.now names.now }
{
    *set == names.set
}

fn has_set(sets: &[VariantSet], set: &Text) -> bool
    ensures { result ≡ list_any (is_of set.now) sets.now }
{
    for names in sets {
        if is_of(set, names) {
            return true;
        }
    }
    false
}

fn grown(names: VariantSet, set: &Text, variant: &Text) -> Result<VariantSet, AllocError>
    ensures { IfOk result (λ all. all ≡ grown set.now variant.now names) }
{
    if !is_of(set, &names) {
        return Ok(names);
    }
    let VariantSet { set, variants } = names;
    let variants = with_name(variants, copy(variant)?)?;
    Ok(VariantSet { set, variants })
}

#[tactic(auto, using(crate::proofs::Named::one_grown))]
fn all_grown(
    alloc: Global,
    sets: Items<VariantSet>,
    set: &Text,
    variant: &Text,
) -> Result<Items<VariantSet>, AllocError>
    ensures { IfOk result (λ all. all ≡ map (grown set.now variant.now) sets) }
{
    let mut all = Items::new(alloc);
    for names in sets.into_vec() {
        all.push(grown(names, set, variant)?)?;
    }
    Ok(all)
}

fn new_set(alloc: Global, set: Text, variant: Text) -> Result<VariantSet, AllocError>
    ensures { IfOk result (λ names. names ≡ new_set set variant) }
{
    let mut variants = Items::new(alloc);
    variants.push(variant)?;
    Ok(VariantSet { set, variants })
}

fn with_new_set(
    alloc: Global,
    sets: Items<VariantSet>,
    set: Text,
    variant: Text,
) -> Result<Items<VariantSet>, AllocError>
    ensures { IfOk result (λ all. all ≡ sets ++ new_set set variant ∷ []) }
{
    let mut all = sets;
    all.push(new_set(alloc, set, variant)?)?;
    Ok(all)
}

fn with_variant(
    alloc: Global,
    sets: Items<VariantSet>,
    set: Text,
    variant: Text,
) -> Result<Items<VariantSet>, AllocError>
    ensures { IfOk result (λ all. all ≡ with_variant set variant sets) }
{
    if has_set(sets.as_slice(), &set) {
        all_grown(alloc, sets, &set, &variant)
    } else {
        with_new_set(alloc, sets, set, variant)
    }
}

/// Adds a set, unless it has no variant.
fn push_if_any(all: &mut Items<VariantSet>, names: VariantSet) -> Result<(), AllocError>
    ensures { OnOk result (all.new ≡ all.old ++ if_any names names.variants) }
{
    if !names.variants.is_empty() {
        all.push(names)?;
    }
    Ok(())
}

fn push_shrunk(
    alloc: Global,
    all: &mut Items<VariantSet>,
    names: VariantSet,
    set: &Text,
    variant: &Text,
) -> Result<(), AllocError>
    ensures { OnOk result (all.new ≡ all.old ++ shrunk set.now variant.now names) }
{
    if !is_of(set, &names) {
        all.push(names)?;
        return Ok(());
    }
    let VariantSet { set, variants } = names;
    let variants = without_name(alloc, variants, variant)?;
    push_if_any(all, VariantSet { set, variants })
}

#[tactic(auto, using(crate::proofs::Named::one_shrunk))]
fn without_variant(
    alloc: Global,
    sets: Items<VariantSet>,
    set: &Text,
    variant: &Text,
) -> Result<Items<VariantSet>, AllocError>
    ensures { IfOk result (λ left. left ≡ without_variant set.now variant.now sets) }
{
    let mut left = Items::new(alloc);
    for names in sets.into_vec() {
        push_shrunk(alloc, &mut left, names, set, variant)?;
    }
    Ok(left)
}

/// The sets of variants after a change.
pub fn change_sets(
    alloc: Global,
    sets: Items<VariantSet>,
    change: VariantChange,
) -> Result<Items<VariantSet>, AllocError>
    ensures { IfOk result (λ changed. changed ≡ sets_changed change sets) }
{
    match change {
        VariantChange::Add { set, variant } => with_variant(alloc, sets, set, variant),
        VariantChange::Drop { set, variant } => without_variant(alloc, sets, &set, &variant),
    }
}
