//! The entries of a dictionary that is open.
ghost use Rattle.std.specs.Prelude.{◌≡◌, [], IfOk, OnOk};
ghost use Rattle.usda_values.specs.Entries.{has_key, with_entry, items_of};

use plain_data::{Items, Text};
use sdf_values::DictItem;
use std::alloc::{AllocError, Global};
use std::collections::BTreeMap;
use std::marker::Model;

/// A table from keys to entries, which contracts see as the list of both in byte order of keys.
#[derive(Debug, Drop)]
pub struct Entries {
    map: BTreeMap<Text, DictItem>,
}

impl Model for Entries {
    ghost use Rattle.std.specs.Prelude.{List, ℕ};
    ghost use Rattle.sdf_values.specs.declared.value.DictItem.{DictItem};
    ghost use Rattle.sdf_values.specs.contracts.value.DictItem as item;
    ghost use Rattle.std.specs.Coded.{codes};

    ghost Value = { List (List ℕ × DictItem) };

    ghost coded = { Prim.hlevel (codes, item.the_row.coded) };

    ghost view = { λ e. e.map.entries };
}

impl Entries {
    /// A table without entries, which takes no memory.
    pub fn new(alloc: Global) -> Entries
        ensures { result ≡ [] }
    {
        Entries {
            map: BTreeMap::new(alloc),
        }
    }

    /// Whether there is an entry of this key.
    pub fn has(&self, key: &Text) -> bool
        ensures { result ≡ has_key key.now self.now }
    {
        self.map.contains_key(key)
    }

    /// Sets the entry of a key. After want of memory the table is of no use.
    pub fn put(&mut self, key: Text, item: DictItem) -> Result<(), AllocError>
        ensures { OnOk result (self.new ≡ with_entry key item self.old) }
    {
        drop(self.map.insert(key, item)?);
        Ok(())
    }

    /// The entries in order of their keys.
    pub fn into_items(self, alloc: Global) -> Result<Items<DictItem>, AllocError>
        ensures { IfOk result (λ items. items ≡ items_of self) }
    {
        let Entries { map } = self;
        items_of(alloc, map)
    }
}

fn items_of(alloc: Global, map: BTreeMap<Text, DictItem>) -> Result<Items<DictItem>, AllocError>
    ensures { IfOk result (λ items. items ≡ items_of map.entries) }
{
    let mut items = Items::new(alloc);
    for entry in map {
        items.push(entry.1)?;
    }
    Ok(items)
}
