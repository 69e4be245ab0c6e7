//! The list edits of a kind that the layers of a stack make, and the items that come of them.
ghost use Rattle.std.specs.Prelude.{◌≡◌, ◌++◌, ◌∷◌, [], IfOk, OnOk, map, reverse};
ghost use Rattle.composition.specs.Arcs.{items_of};
ghost use Rattle.list_ops.specs.ListEdits.{folded};
ghost use Rattle.arc_expand.specs.Authoring.{edits, folded_items};

use crate::entry::edit;
use crate::opinion::LayerOpinion;
use crate::ordered::OrderedItem;
use asset_names::AssetId;
use list_ops::{ListOp, fold_ordered};
use path_maps::ArcKind;
use plain_data::{ExactClone, ExactEq, ExactOrd, Items, copy};
use std::alloc::{AllocError, Global};

/// The edit of one layer; variants are no items.
fn item_edit(
    alloc: Global,
    kind: ArcKind,
    opinion: &LayerOpinion<'_>,
) -> Result<Option<ListOp<OrderedItem>>, AllocError>
    ensures { IfOk result (λ found. found ≡ items_of kind opinion.now) }
{
    let layer = opinion.layer;
    let arcs = &opinion.spec.arcs;
    match kind {
        ArcKind::Inherits => Ok(Some(edit(alloc, layer, opinion.offset, &arcs.inherits)?)),
        ArcKind::Variant => Ok(None),
        ArcKind::Reference => Ok(Some(edit(alloc, layer, opinion.offset, &arcs.references)?)),
        ArcKind::Payload => Ok(Some(edit(alloc, layer, opinion.offset, &arcs.payloads)?)),
        ArcKind::Specializes => Ok(Some(edit(alloc, layer, opinion.offset, &arcs.specializes)?)),
    }
}

/// Appends an edit with a copy of its layer. It knows no fields of theirs, so that to let one go is a call.
fn push_edit<L: ExactClone + Drop, E: Drop>(
    all: &mut Items<(L, E)>,
    layer: &L,
    edit: E,
) -> Result<(), AllocError>
    ensures { OnOk result (all.new ≡ all.old ++ (layer.now, edit) ∷ []) }
{
    all.push((copy(layer)?, edit))?;
    Ok(())
}

/// The edits of the layers, the strongest first, each with its layer.
pub fn edits(
    alloc: Global,
    kind: ArcKind,
    opinions: &[LayerOpinion<'_>],
) -> Result<Items<(AssetId, ListOp<OrderedItem>)>, AllocError>
    ensures { IfOk result (λ all. all ≡ edits kind opinions.now) }
{
    let mut all = Items::new(alloc);
    for opinion in opinions {
        if let Some(edit) = item_edit(alloc, kind, opinion)? {
            push_edit(&mut all, opinion.layer, edit)?;
        }
    }
    Ok(all)
}

/// What opinions make of the empty list, the strongest given first.
pub fn strongest_folded<T: ExactEq + ExactOrd + ExactClone + Drop>(
    alloc: Global,
    opinions: Vec<ListOp<T>>,
) -> Result<Items<T>, AllocError>
    ensures { IfOk result (λ items. items ≡ folded T.eq (reverse opinions.items)) }
{
    let mut opinions = opinions;
    opinions.reverse();
    Ok(Items::from_vec(fold_ordered(alloc, opinions.as_slice())?))
}

/// Copies of the edits without their layers.
fn without_layers(
    alloc: Global,
    edits: &[(AssetId, ListOp<OrderedItem>)],
) -> Result<Vec<ListOp<OrderedItem>>, AllocError>
    ensures { IfOk result (λ all. all.items ≡ map (λ e. e.1) edits.now) }
{
    let mut all = Vec::new(alloc);
    for edit in edits {
        all.push(copy(&edit.1)?)?;
    }
    Ok(all)
}

/// The items that the edits make of the empty list.
pub fn folded_items(
    alloc: Global,
    edits: &[(AssetId, ListOp<OrderedItem>)],
) -> Result<Items<OrderedItem>, AllocError>
    ensures { IfOk result (λ items. items ≡ folded_items edits.now) }
{
    strongest_folded(alloc, without_layers(alloc, edits)?)
}
