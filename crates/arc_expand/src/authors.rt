//! The strongest layer that gives each item.
ghost use Rattle.std.specs.Prelude.{◌≡◌, Some, None, IfOk, OnOk, cond};
ghost use Rattle.std.specs.Option.{is_some};
ghost use Rattle.std.specs.BTreeMap.{get};
ghost use Rattle.list_ops.specs.ListEdits.{contains};
ghost use Rattle.composition.specs.Arcs.{Item, gives};
ghost use Rattle.composition.specs.Fields.{or_else};
ghost use Rattle.arc_expand.specs.Authors.{only, author_in};
ghost use Rattle.arc_expand.specs.ItemOrder.{item_cmp};

use crate::ordered::OrderedItem;
use asset_names::AssetId;
use list_ops::ListOp;
use plain_data::{ExactClone, ExactEq, ExactOrd, copy};
use std::alloc::{AllocError, Global};
use std::collections::BTreeMap;

/// Notes a value at a key, if none has been noted.
fn note<K: ExactEq + ExactOrd + ExactClone + Drop, V: ExactClone + Drop>(
    table: &mut BTreeMap<K, V>,
    key: &K,
    value: &V,
) -> Result<(), AllocError>
    ensures { OnOk result ((q : K) → get K.cmp table.new q ≡ cond (is_some (get K.cmp table.old key.now)) (get K.cmp table.old q) (cond (K.eq key.now q) (Some value.now) (get K.cmp table.old q))) }
{
    if table.contains_key(key) {
        return Ok(());
    }
    table.insert(copy(key)?, copy(value)?)?;
    Ok(())
}

/// Notes a value at each key that has none.
fn note_all<K: ExactEq + ExactOrd + ExactClone + Drop, V: ExactClone + Drop>(
    table: &mut BTreeMap<K, V>,
    keys: &[K],
    value: &V,
) -> Result<(), AllocError>
    ensures { OnOk result ((q : K) → get K.cmp table.new q ≡ or_else (get K.cmp table.old q) (only (contains K.eq keys.now q) value.now)) }
{
    for key in keys {
        note(table, key, value)?;
    }
    Ok(())
}

/// Notes a value at each item that an edit brings and that has none.
fn note_edit<K: ExactEq + ExactOrd + ExactClone + Drop, V: ExactClone + Drop>(
    table: &mut BTreeMap<K, V>,
    edit: &ListOp<K>,
    value: &V,
) -> Result<(), AllocError>
    ensures { OnOk result ((q : K) → get K.cmp table.new q ≡ or_else (get K.cmp table.old q) (only (gives K.eq edit.now q) value.now)) }
{
    match &edit.explicit {
        Some(items) => note_all(table, items.as_slice(), value),
        None => {
            note_all(table, edit.added.as_slice(), value)?;
            note_all(table, edit.prepended.as_slice(), value)?;
            note_all(table, edit.appended.as_slice(), value)
        }
    }
}

/// The strongest layer of each item that an edit brings, the strongest edit given first.
pub fn authors(
    alloc: Global,
    edits: &[(AssetId, ListOp<OrderedItem>)],
) -> Result<BTreeMap<OrderedItem, AssetId>, AllocError>
    ensures { IfOk result (λ table. (x : Item) → get item_cmp table x ≡ author_in edits.now x) }
{
    let mut table = BTreeMap::new(alloc);
    for edit in edits {
        note_edit(&mut table, &edit.1, &edit.0)?;
    }
    Ok(table)
}
