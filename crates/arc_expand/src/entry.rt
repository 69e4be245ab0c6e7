//! Entries of lists of arcs as layers write them, and the items that they stand for.
ghost use Rattle.std.specs.Prelude.{◌≡◌, IfOk, OnOk, map, option_map};
ghost use Rattle.composition.specs.Texts.{Text};
ghost use Rattle.composition.specs.Arcs.{Item, source_of, class_item, reference_item, map_op};
ghost use Rattle.sdf_values.specs.Scales.{Offset};

use crate::offset::{composed, identity};
use crate::ordered::OrderedItem;
use asset_names::{AssetFault, AssetId};
use list_ops::ListOp;
use plain_data::{Items, copy};
use prim_view::{FaultItem, ItemSource};
use sdf_paths::Path;
use sdf_specs::RefItem;
use sdf_values::LayerOffset;
use std::alloc::{AllocError, Global};

/// An entry of a list of arcs.
pub trait Entry {
    ghost item_of: { Text → Offset → Self → Item };

    /// The item that the entry stands for in a layer of a stack.
    fn item(
        &self,
        alloc: Global,
        layer: &AssetId,
        offset: LayerOffset,
    ) -> Result<OrderedItem, AllocError>
        ensures { IfOk result (λ item. item ≡ item_of layer.now offset self.now) };
}

impl Entry for Path {
    ghost use Rattle.composition.specs.Arcs.{class_item};

    ghost item_of = { λ layer offset target. class_item target };

    fn item(
        &self,
        _alloc: Global,
        _layer: &AssetId,
        _offset: LayerOffset,
    ) -> Result<OrderedItem, AllocError> {
        Ok(OrderedItem {
            item: FaultItem {
                source: ItemSource::Own,
                path: Some(copy(self)?),
                offset: identity(),
            },
        })
    }
}

impl Entry for RefItem {
    ghost use Rattle.composition.specs.Arcs.{reference_item};

    ghost item_of = { reference_item };

    fn item(
        &self,
        alloc: Global,
        layer: &AssetId,
        offset: LayerOffset,
    ) -> Result<OrderedItem, AllocError> {
        Ok(OrderedItem {
            item: FaultItem {
                source: source(alloc, layer, self)?,
                path: copy(&self.path)?,
                offset: composed(self.offset, offset),
            },
        })
    }
}

/// The layer that a reference or payload names, from the folder of the layer that has it.
fn source(alloc: Global, layer: &AssetId, item: &RefItem) -> Result<ItemSource, AllocError>
    ensures { IfOk result (λ source. source ≡ source_of layer.now item.now.asset) }
{
    let Some(asset) = &item.asset else {
        return Ok(ItemSource::Own);
    };
    match AssetId::anchor(alloc, layer, asset.as_str()) {
        Ok(name) => Ok(ItemSource::Named(name)),
        Err(AssetFault::BadAsset { at: _ }) => Ok(ItemSource::Unanchored(copy(asset)?)),
        Err(AssetFault::NoMemory) => Err(AllocError),
    }
}

/// The items that entries stand for.
fn items<T: Entry>(
    alloc: Global,
    layer: &AssetId,
    offset: LayerOffset,
    entries: &Items<T>,
) -> Result<Items<OrderedItem>, AllocError>
    ensures { IfOk result (λ items. items ≡ map (T.item_of layer.now offset) entries.now) }
{
    let mut items = Items::new(alloc);
    for entry in entries.as_slice() {
        items.push(entry.item(alloc, layer, offset)?)?;
    }
    Ok(items)
}

/// The items of an explicit list, if there is one.
fn explicit_items<T: Entry>(
    alloc: Global,
    layer: &AssetId,
    offset: LayerOffset,
    entries: &Option<Items<T>>,
) -> Result<Option<Items<OrderedItem>>, AllocError>
    ensures { IfOk result (λ found. found ≡ option_map (map (T.item_of layer.now offset)) entries.now) }
{
    match entries {
        Some(entries) => Ok(Some(items(alloc, layer, offset, entries)?)),
        None => Ok(None),
    }
}

/// The items of the explicit list, if there is one, and those that are deleted, in the place of others.
fn put_explicit<T: Entry>(
    alloc: Global,
    layer: &AssetId,
    offset: LayerOffset,
    op: &ListOp<T>,
    edit: &mut ListOp<OrderedItem>,
) -> Result<(), AllocError>
    ensures { OnOk result (edit.new ≡ record edit.old { explicit = option_map (map (T.item_of layer.now offset)) op.now.explicit; deleted = map (T.item_of layer.now offset) op.now.deleted }) }
{
    edit.explicit = explicit_items(alloc, layer, offset, &op.explicit)?;
    edit.deleted = items(alloc, layer, offset, &op.deleted)?;
    Ok(())
}

/// The items that are added and those that are prepended, in the place of others.
fn put_added<T: Entry>(
    alloc: Global,
    layer: &AssetId,
    offset: LayerOffset,
    op: &ListOp<T>,
    edit: &mut ListOp<OrderedItem>,
) -> Result<(), AllocError>
    ensures { OnOk result (edit.new ≡ record edit.old { added = map (T.item_of layer.now offset) op.now.added; prepended = map (T.item_of layer.now offset) op.now.prepended }) }
{
    edit.added = items(alloc, layer, offset, &op.added)?;
    edit.prepended = items(alloc, layer, offset, &op.prepended)?;
    Ok(())
}

/// The items that are appended and those that are ordered, in the place of others.
fn put_appended<T: Entry>(
    alloc: Global,
    layer: &AssetId,
    offset: LayerOffset,
    op: &ListOp<T>,
    edit: &mut ListOp<OrderedItem>,
) -> Result<(), AllocError>
    ensures { OnOk result (edit.new ≡ record edit.old { appended = map (T.item_of layer.now offset) op.now.appended; ordered = map (T.item_of layer.now offset) op.now.ordered }) }
{
    edit.appended = items(alloc, layer, offset, &op.appended)?;
    edit.ordered = items(alloc, layer, offset, &op.ordered)?;
    Ok(())
}

/// The items of all lists, in the place of others.
fn put_all<T: Entry>(
    alloc: Global,
    layer: &AssetId,
    offset: LayerOffset,
    op: &ListOp<T>,
    edit: &mut ListOp<OrderedItem>,
) -> Result<(), AllocError>
    ensures { OnOk result (edit.new ≡ map_op (T.item_of layer.now offset) op.now) }
{
    put_explicit(alloc, layer, offset, op, edit)?;
    put_added(alloc, layer, offset, op, edit)?;
    put_appended(alloc, layer, offset, op, edit)
}

/// The edit, item by item: deletes and reorders name items like the others.
pub fn edit<T: Entry>(
    alloc: Global,
    layer: &AssetId,
    offset: LayerOffset,
    op: &ListOp<T>,
) -> Result<ListOp<OrderedItem>, AllocError>
    ensures { IfOk result (λ edit. edit ≡ map_op (T.item_of layer.now offset) op.now) }
{
    let mut edit = ListOp::new(alloc);
    match put_all(alloc, layer, offset, op, &mut edit) {
        Ok(()) => Ok(edit),
        Err(error) => {
            drop(edit);
            Err(error)
        }
    }
}
