//! Lists of which the first of each item is kept.
ghost use Rattle.std.specs.Prelude.{◌≡◌, IfOk, OnOk};
ghost use Rattle.list_ops.specs.ListEdits.{firsts};
ghost use Rattle.spec_parts.specs.declared.items.RefItem.{RefItem};
ghost use Rattle.usda_lists.specs.Lists.{close_list};
ghost use Rattle.usda_lists.specs.References.{same_text, same_path, same_item};

use crate::edit::ListEdit;
use crate::lists::{put_list, take_list};
use list_ops::{ListOp, firsts_ordered};
use plain_data::{ExactClone, ExactEq, ExactOrd, Items, Text};
use sdf_paths::Path;
use sdf_values::LayerOffset;
use spec_parts::RefItem;
use std::alloc::{AllocError, Global};
use std::marker::Model;

/// Ends the list of texts of an edit: repeats after the first are dropped. With `n` items it makes `n log n` comparisons.
pub fn close_texts(alloc: Global, op: &mut ListOp<Text>, edit: ListEdit) -> Result<(), AllocError>
    ensures { OnOk result (op.new ≡ close_list same_text edit op.old) }
{
    let items = take_list(op, edit);
    let kept = first_texts(alloc, items)?;
    put_list(op, edit, kept);
    Ok(())
}

/// Ends the list of paths of an edit.
pub fn close_paths(alloc: Global, op: &mut ListOp<Path>, edit: ListEdit) -> Result<(), AllocError>
    ensures { OnOk result (op.new ≡ close_list same_path edit op.old) }
{
    let items = take_list(op, edit);
    let kept = first_paths(alloc, items)?;
    put_list(op, edit, kept);
    Ok(())
}

/// The first of each text.
pub fn first_texts(alloc: Global, items: Items<Text>) -> Result<Items<Text>, AllocError>
    ensures { IfOk result (λ kept. kept ≡ firsts same_text items) }
{
    firsts_ordered(alloc, items.as_slice())
}

/// The first of each path.
pub fn first_paths(alloc: Global, items: Items<Path>) -> Result<Items<Path>, AllocError>
    ensures { IfOk result (λ kept. kept ≡ firsts same_path items) }
{
    firsts_ordered(alloc, items.as_slice())
}

/// An item of references in an order.
#[derive(Clone, Drop, PartialEq, Eq, PartialOrd, Ord)]
struct OrderedItem {
    asset: Option<Text>,
    path: Option<Path>,
    offset: LayerOffset,
}

impl Model for OrderedItem {
    ghost use Rattle.spec_parts.specs.declared.items.RefItem.{RefItem};

    ghost Value = { RefItem };

    ghost view = { λ o. record { asset = o.asset; path = o.path; offset = o.offset } };

    ghost inverse = { λ i. record { asset = i.asset; path = i.path; offset = i.offset } };
}

impl ExactClone for OrderedItem {
    ghost use Rattle.std.proofs.Common.{rules};

    ghost copy_is_same = { Prim.search rules };
}

impl ExactEq for OrderedItem {
    ghost use Rattle.usda_lists.specs.Repeats.{item_equal};

    ghost equal_is_same = { item_equal };
}

impl ExactOrd for OrderedItem {
    ghost use Rattle.usda_lists.specs.Repeats.{item_tie};

    ghost tie_is_same = { item_tie };
}

fn ordered(alloc: Global, items: Items<RefItem>) -> Result<Items<OrderedItem>, AllocError>
    ensures { IfOk result (λ all. all ≡ items) }
{
    let mut all = Items::new(alloc);
    for item in items.into_vec() {
        let RefItem {
            asset,
            path,
            offset,
        } = item;
        all.push(OrderedItem {
            asset,
            path,
            offset,
        })?;
    }
    Ok(all)
}

fn unordered(alloc: Global, items: Items<OrderedItem>) -> Result<Items<RefItem>, AllocError>
    ensures { IfOk result (λ all. all ≡ items) }
{
    let mut all = Items::new(alloc);
    for item in items.into_vec() {
        let OrderedItem {
            asset,
            path,
            offset,
        } = item;
        all.push(RefItem {
            asset,
            path,
            offset,
        })?;
    }
    Ok(all)
}

fn first_items(alloc: Global, items: Items<RefItem>) -> Result<Items<RefItem>, AllocError>
    ensures { IfOk result (λ kept. kept ≡ firsts same_item items) }
{
    let all = ordered(alloc, items)?;
    let kept = firsts_ordered(alloc, all.as_slice())?;
    unordered(alloc, kept)
}

/// Ends the list of references or payloads of an edit.
pub fn close_items(
    alloc: Global,
    op: &mut ListOp<RefItem>,
    edit: ListEdit,
) -> Result<(), AllocError>
    ensures { OnOk result (op.new ≡ close_list same_item edit op.old) }
{
    let items = take_list(op, edit);
    let kept = first_items(alloc, items)?;
    put_list(op, edit, kept);
    Ok(())
}
