//! How metadata merges: dictionaries key by key, the stronger first, nested ones too; of all else the strongest is kept.
ghost use Rattle.std.specs.Prelude.{◌≡◌, [], map, fold, IfOk, OnOk};
ghost use Rattle.std.specs.Option.{option_copied};
ghost use Rattle.composition.specs.Merging.{entries_of, merged_within, over_entry, with_item, with_stronger, items_over, with_weaker};

use plain_data::{Items, Text, copy};
use sdf_values::{DictItem, Value};
use spec_properties::Meta;
use spec_tables::OrderedTable;
use std::alloc::{AllocError, Global};

/// How deep values nest.
const MAX_NESTING: usize = 64;

/// Entries of a dictionary by their keys.
type Entries = OrderedTable<Text, DictItem>;

/// The entries by their keys.
fn by_key(alloc: Global, items: &[DictItem]) -> Result<Entries, AllocError>
    ensures { IfOk result (λ table. table ≡ fold with_item [] items.now) }
{
    let mut table = OrderedTable::new(alloc);
    for item in items {
        drop(table.insert(copy(&item.key)?, copy(item)?)?);
    }
    Ok(table)
}

/// The entries in the order of their keys.
fn in_order(alloc: Global, table: &Entries) -> Result<Items<DictItem>, AllocError>
    ensures { IfOk result (λ items. items ≡ map (λ e. e.1) table.now) }
{
    let mut items = Items::new(alloc);
    for (_, item) in table.iter() {
        items.push(copy(item)?)?;
    }
    Ok(items)
}

/// The entries of a dictionary; none where the value is no dictionary.
fn entries_of(value: &Value) -> Option<&[DictItem]>
    ensures { option_copied result ≡ entries_of value.now }
{
    match value {
        Value::Dict(items) => Some(items.as_slice()),
        _ => None,
    }
}

/// A value over a weaker one, so many dictionaries deep.
#[cycle(merge)]
fn merged_within(
    alloc: Global,
    levels: usize,
    stronger: &Value,
    weaker: &Value,
) -> Result<Value, AllocError>
    ensures { IfOk result (λ value. value ≡ merged_within levels stronger.now weaker.now) }
{
    if levels == 0 {
        return copy(stronger);
    }
    let Some(items) = entries_of(stronger) else {
        return copy(stronger);
    };
    let Some(others) = entries_of(weaker) else {
        return copy(stronger);
    };
    Ok(Value::Dict(items_over(alloc, levels - 1, items, others)?))
}

/// The entries of a dictionary over those of a weaker one.
#[cycle(merge)]
fn items_over(
    alloc: Global,
    levels: usize,
    items: &[DictItem],
    others: &[DictItem],
) -> Result<Items<DictItem>, AllocError>
    ensures { IfOk result (λ all. all ≡ items_over (merged_within levels) items.now others.now) }
{
    let mut table = by_key(alloc, others)?;
    for item in items {
        put_over(alloc, levels, &mut table, item)?;
    }
    in_order(alloc, &table)
}

/// Puts an entry over the weaker one of its key.
#[cycle(merge)]
fn put_over(
    alloc: Global,
    levels: usize,
    table: &mut Entries,
    item: &DictItem,
) -> Result<(), AllocError>
    ensures { OnOk result (table.new ≡ with_stronger (merged_within levels) table.old item.now) }
{
    let key = copy(&item.key)?;
    let entry = over_entry(alloc, levels, item, table.get(&item.key))?;
    drop(table.insert(key, entry)?);
    Ok(())
}

/// An entry over the weaker one of its key, if there is one.
#[cycle(merge)]
fn over_entry(
    alloc: Global,
    levels: usize,
    item: &DictItem,
    weaker: Option<&DictItem>,
) -> Result<DictItem, AllocError>
    ensures { IfOk result (λ entry. entry ≡ over_entry (merged_within levels) item.now (option_copied weaker.entry)) }
{
    match weaker {
        None => copy(item),
        Some(weaker) => Ok(DictItem {
            key: copy(&item.key)?,
            ty: item.ty,
            value: merged_within(alloc, levels, &item.value, &weaker.value)?,
        }),
    }
}

/// Puts an entry of metadata below the stronger ones: under a key that is there it only fills in what a stronger dictionary lacks.
fn put_below(alloc: Global, meta: &mut Meta, key: &Text, value: &Value) -> Result<(), AllocError>
    ensures { OnOk result (meta.new ≡ with_weaker meta.old (key.now, value.now)) }
{
    let name = copy(key)?;
    let value = match meta.get(key) {
        None => copy(value)?,
        Some(stronger) => merged_within(alloc, MAX_NESTING, stronger, value)?,
    };
    drop(meta.insert(name, value)?);
    Ok(())
}

/// Merges a table of metadata below the stronger ones. After want of memory the table is of no use.
pub fn merge_into(alloc: Global, meta: &mut Meta, weaker: &Meta) -> Result<(), AllocError>
    ensures { OnOk result (meta.new ≡ fold with_weaker meta.old weaker.now) }
{
    for (key, value) in weaker.iter() {
        put_below(alloc, meta, key, value)?;
    }
    Ok(())
}
