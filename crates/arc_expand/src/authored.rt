ghost use Rattle.std.specs.Prelude.{◌≡◌, ◌++◌, IfOk, OnOk, map, true};
ghost use Rattle.std.specs.List.{All, list_any};
ghost use Rattle.layer_set.specs.LookUps.{look_ups};
ghost use Rattle.composition.specs.Arcs.{selections_of};
ghost use Rattle.std.specs.Option.{is_some};
ghost use Rattle.std.specs.BTreeMap.{get};
ghost use Rattle.arc_expand.specs.ItemOrder.{item_cmp};
ghost use Rattle.arc_expand.specs.Authoring.{IsStackOf, authored_by, authored_in, authored, says, says_sets, sets_in, variant_sets, selections, has_spec};

use crate::authors::authors;
use crate::edits::{edits, folded_items, strongest_folded};
use crate::opinion::{LayerOpinion, opinions};
use crate::ordered::OrderedItem;
use crate::outcome::outcome;
use asset_names::AssetId;
use layer_set::World;
use layer_stack::LayerStack;
use list_ops::ListOp;
use path_maps::ArcKind;
use plain_data::{Items, Text, copy, copy_two};
use prim_nodes::Authored;
use sdf_paths::Path;
use sdf_specs::Selections;
use std::alloc::{AllocError, Global};
use std::collections::BTreeMap;

/// An item with its author and its outcome.
fn authored_item(
    alloc: Global,
    world: &World,
    stack: &LayerStack,
    authors: &BTreeMap<OrderedItem, AssetId>,
    item: &OrderedItem,
) -> Result<Authored, AllocError>
    requires stack { IsStackOf (look_ups world.now) stack.now }
    requires author { is_some (get item_cmp authors.now item.now) ≡ true }
    ensures { IfOk result (λ a. a ≡ authored_by (look_ups world.now) stack.now.name (get item_cmp authors.now) item.now) }
{
    let Some(layer) = authors.get(item) else {
        unreachable!()
    };
    let outcome = outcome(alloc, world, stack, &item.item)?;
    match copy_two(&item.item, layer) {
        Ok((item, author)) => Ok(Authored {
            item,
            author,
            outcome,
        }),
        Err(error) => {
            drop(outcome);
            Err(error)
        }
    }
}

/// Items with their authors and outcomes.
fn authored_items(
    alloc: Global,
    world: &World,
    stack: &LayerStack,
    authors: &BTreeMap<OrderedItem, AssetId>,
    items: &[OrderedItem],
) -> Result<Items<Authored>, AllocError>
    requires stack { IsStackOf (look_ups world.now) stack.now }
    requires authors { All (λ i. is_some (get item_cmp authors.now i) ≡ true) items.now }
    ensures { IfOk result (λ all. all ≡ map (authored_by (look_ups world.now) stack.now.name (get item_cmp authors.now)) items.now) }
{
    let mut all = Items::new(alloc);
    for item in items {
        all.push(authored_item(alloc, world, stack, authors, item)?)?;
    }
    Ok(all)
}

/// Whether an opinion says something of the items of a kind.
fn says(kind: ArcKind, opinion: &LayerOpinion<'_>) -> bool
    ensures { result ≡ says kind opinion.now }
{
    let arcs = &opinion.spec.arcs;
    match kind {
        ArcKind::Inherits => arcs.inherits.is_opinion(),
        ArcKind::Variant => false,
        ArcKind::Reference => arcs.references.is_opinion(),
        ArcKind::Payload => arcs.payloads.is_opinion(),
        ArcKind::Specializes => arcs.specializes.is_opinion(),
    }
}

/// Whether some opinion says something of the items of a kind.
fn is_said(kind: ArcKind, opinions: &[LayerOpinion<'_>]) -> bool
    ensures { result ≡ list_any (says kind) opinions.now }
{
    for opinion in opinions {
        if says(kind, opinion) {
            return true;
        }
    }
    false
}

/// Whether some opinion says something of variant sets.
fn are_sets_said(opinions: &[LayerOpinion<'_>]) -> bool
    ensures { result ≡ list_any says_sets opinions.now }
{
    for opinion in opinions {
        if opinion.spec.arcs.variant_sets.is_opinion() {
            return true;
        }
    }
    false
}

/// The items of a kind that opinions of a stack's layers make, each with the strongest layer that gave it, and where it leads or why it
/// is no arc.
///
/// # Errors
///
/// Memory ran out.
pub fn authored_in(
    alloc: Global,
    world: &World,
    stack: &LayerStack,
    opinions: &[LayerOpinion<'_>],
    kind: ArcKind,
) -> Result<Items<Authored>, AllocError>
    requires { IsStackOf (look_ups world.now) stack.now }
    ensures { IfOk result (λ all. all ≡ authored_in (look_ups world.now) stack.now.name opinions.now kind) }
{
    if !is_said(kind, opinions) {
        return Ok(Items::new(alloc));
    }
    let edits = edits(alloc, kind, opinions)?;
    let items = folded_items(alloc, edits.as_slice())?;
    let authors = authors(alloc, edits.as_slice())?;
    authored_items(alloc, world, stack, &authors, items.as_slice())
}

/// The items of a kind that the layers of a stack author at a path.
///
/// # Errors
///
/// Memory ran out.
pub fn authored_at(
    alloc: Global,
    world: &World,
    stack: &LayerStack,
    at: &Path,
    kind: ArcKind,
) -> Result<Items<Authored>, AllocError>
    requires { IsStackOf (look_ups world.now) stack.now }
    ensures { IfOk result (λ all. all ≡ authored (look_ups world.now) stack.now.name at.now kind) }
{
    let opinions = opinions(alloc, world, stack, at)?;
    authored_in(alloc, world, stack, opinions.as_slice(), kind)
}

/// Copies of the edits of variant sets.
fn set_edits(alloc: Global, opinions: &[LayerOpinion<'_>]) -> Result<Vec<ListOp<Text>>, AllocError>
    ensures { IfOk result (λ all. all.items ≡ map (λ o. o.spec.arcs.variant_sets) opinions.now) }
{
    let mut all = Vec::new(alloc);
    for opinion in opinions {
        all.push(copy(&opinion.spec.arcs.variant_sets)?)?;
    }
    Ok(all)
}

/// The variant sets that opinions make.
///
/// # Errors
///
/// Memory ran out.
pub fn variant_sets_in(
    alloc: Global,
    opinions: &[LayerOpinion<'_>],
) -> Result<Items<Text>, AllocError>
    ensures { IfOk result (λ sets. sets ≡ sets_in opinions.now) }
{
    if !are_sets_said(opinions) {
        return Ok(Items::new(alloc));
    }
    strongest_folded(alloc, set_edits(alloc, opinions)?)
}

/// The variant sets that the layers of a stack author at a path.
///
/// # Errors
///
/// Memory ran out.
pub fn variant_sets_at(
    alloc: Global,
    world: &World,
    stack: &LayerStack,
    at: &Path,
) -> Result<Items<Text>, AllocError>
    requires { IsStackOf (look_ups world.now) stack.now }
    ensures { IfOk result (λ sets. sets ≡ variant_sets (look_ups world.now) stack.now.name at.now) }
{
    let opinions = opinions(alloc, world, stack, at)?;
    variant_sets_in(alloc, opinions.as_slice())
}

/// Appends copies of selections.
fn push_selections(out: &mut Items<(Text, Text)>, selections: &Selections) -> Result<(), AllocError>
    ensures { OnOk result (out.new ≡ out.old ++ selections.now) }
{
    for (set, variant) in selections.iter() {
        out.push((copy(set)?, copy(variant)?))?;
    }
    Ok(())
}

/// The variants that opinions select, the strongest first, those of one layer in the order of sets.
///
/// # Errors
///
/// Memory ran out.
pub fn selections_in(
    alloc: Global,
    opinions: &[LayerOpinion<'_>],
) -> Result<Items<(Text, Text)>, AllocError>
    ensures { IfOk result (λ all. all ≡ selections_of opinions.now) }
{
    let mut all = Items::new(alloc);
    for opinion in opinions {
        push_selections(&mut all, &opinion.spec.arcs.selections)?;
    }
    Ok(all)
}

/// The variants that the layers of a stack select at a path, the strongest opinions first, those of one layer in the order of sets.
///
/// # Errors
///
/// Memory ran out.
pub fn selections_at(
    alloc: Global,
    world: &World,
    stack: &LayerStack,
    at: &Path,
) -> Result<Items<(Text, Text)>, AllocError>
    requires { IsStackOf (look_ups world.now) stack.now }
    ensures { IfOk result (λ all. all ≡ selections (look_ups world.now) stack.now.name at.now) }
{
    let opinions = opinions(alloc, world, stack, at)?;
    selections_in(alloc, opinions.as_slice())
}

/// Whether some layer of a stack has a spec at a path.
///
/// # Errors
///
/// Memory ran out.
pub fn has_spec_at(
    alloc: Global,
    world: &World,
    stack: &LayerStack,
    at: &Path,
) -> Result<bool, AllocError>
    requires { IsStackOf (look_ups world.now) stack.now }
    ensures { IfOk result (λ has. has ≡ has_spec (look_ups world.now) stack.now.name at.now) }
{
    let opinions = opinions(alloc, world, stack, at)?;
    Ok(!opinions.is_empty())
}
