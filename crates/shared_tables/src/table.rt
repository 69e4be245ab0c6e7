ghost use Rattle.std.specs.Prelude.{◌≡◌, ◌↔◌, ◌<◌, ◌+◌, ◌^◌, [], cond, length, is_some, false, Ok, None, IfOk, OnOk, OnErr, IsTrue};
ghost use Rattle.std.specs.Cmp.Lexicographic.{slice_cmp};
ghost use Rattle.std.specs.Option.{option_copied, option_map};
ghost use Rattle.std.specs.Map.Iter.{ShowsInOrder, deref_pair};
ghost use Rattle.spec_tables.specs.Tables.{IsTable, at_key, with_key, without_key, with_value, entries_from};
ghost use Rattle.shared_tables.specs.Rest.{entries_after, onwards};

use crate::entries::Entries;
use crate::entry::Entry;
use crate::exchange::exchange;
use crate::insert::with_entry;
use crate::node::{Link, shared};
use crate::remove::without_entry;
use crate::search::{first, first_after, first_from, found, found_by_items};
use plain_data::{ExactClone, Items};
use std::alloc::{AllocError, Global};
use std::marker::Model;

/// Values by key, in the order of keys, whose copies share what did not change.
///
/// Contracts see the list of keys and values in the order of keys, each key once.
#[derive(Debug, Drop)]
pub struct SharedTable<K: Ord, V> {
    alloc: Global,
    len: usize,
    root: Link<K, V>,
}

/// The most entries of a table.
const MAX_ENTRIES: usize = 0x7fff_ffff_ffff_ffff;

impl<K: Ord, V> Model for SharedTable<K, V> {
    ghost use Rattle.std.specs.Prelude.{◌≡◌, ◌<◌, ◌^◌, List, length};

    ghost Value = { List (K × V) };

    ghost use Rattle.spec_tables.specs.Tables.{IsTable};
    ghost use Rattle.shared_tables.specs.Trees.{link_entries};

    ghost view = { λ t. link_entries t.root };

    ghost invariant = { λ t. IsTable K.cmp (link_entries t.root) × (t.len ≡ length (link_entries t.root)) × (t.len < 2 ^ 63) };
}

impl<K: Ord, V> SharedTable<K, V> {
    /// The table without entries, which takes no memory.
    pub fn new(alloc: Global) -> SharedTable<K, V>
        ensures { result ≡ [] }
    {
        SharedTable {
            alloc,
            len: 0,
            root: None,
        }
    }

    /// How many entries there are.
    pub fn len(&self) -> usize
        ensures len { result ≡ length self.now }
        ensures order { IsTable K.cmp self.now }
    {
        self.len
    }

    /// Whether there is no entry.
    pub fn is_empty(&self) -> bool
        ensures { IsTrue result ↔ (self.now ≡ []) }
    {
        match &self.root {
            None => true,
            Some(_) => false,
        }
    }

    /// The value at a key, found by a search.
    pub fn get(&self, key: &K) -> Option<&V>
        ensures { option_copied result ≡ at_key K.cmp key.now self.now }
    {
        found(&self.root, key)
    }

    /// Whether a value stands at a key.
    pub fn has(&self, key: &K) -> bool
        ensures { result ≡ is_some (at_key K.cmp key.now self.now) }
    {
        self.get(key).is_some()
    }

    /// The entries in the order of keys. It takes no memory, and goes from each to the next by a search.
    pub fn iter(&self) -> Entries<'_, K, V>
        ensures rest { result ≡ self.now }
        ensures runs { ShowsInOrder (deref_pair {K = K} {X = V}) }
        ensures order { IsTable K.cmp self.now }
        ensures bound { length self.now < 2 ^ 63 }
    {
        Entries {
            table: self,
            next: first(&self.root),
        }
    }

    /// The entries from a key on, in the order of keys: the first and each next are found by a search, and no memory is taken.
    pub fn iter_from(&self, key: &K) -> Entries<'_, K, V>
        ensures rest { result ≡ entries_from K.cmp key.now self.now }
        ensures runs { ShowsInOrder (deref_pair {K = K} {X = V}) }
        ensures order { IsTable K.cmp self.now }
        ensures bound { length result < 2 ^ 63 }
    {
        Entries {
            table: self,
            next: first_from(&self.root, key),
        }
    }

    /// The first entry past a key, found by a search.
    pub(crate) fn after(&self, key: &K) -> Option<(&K, &V)>
        ensures { onwards K.cmp self.now (option_map deref_pair result) ≡ entries_after K.cmp key.now self.now }
    {
        first_after(&self.root, key)
    }

    /// How many entries there are once a key has a value. Past the most entries that a table holds there is no room.
    fn len_with(&self, key: &K) -> Result<usize, AllocError>
        ensures count { IfOk result (λ n. n ≡ cond (is_some (at_key K.cmp key.now self.now)) (length self.now) (length self.now + 1)) }
        ensures bound { IfOk result (λ n. n < 2 ^ 63) }
    {
        if self.has(key) {
            Ok(self.len)
        } else if self.len < MAX_ENTRIES {
            Ok(self.len + 1)
        } else {
            Err(AllocError)
        }
    }
}

impl<T: Ord, V> SharedTable<Items<T>, V> {
    /// The value at the key that has these items, found by a search. So a part of a list is looked up without a list of its own.
    pub fn get_by_items(&self, items: &[T]) -> Option<&V>
        ensures { option_copied result ≡ at_key (slice_cmp T.cmp) items.now self.now }
    {
        found_by_items(&self.root, items)
    }
}

impl<K: Ord + Drop, V: Drop> SharedTable<K, V> {
    /// Puts a value at a key: a key that is there stays, and takes the value. The nodes on the way to the key are made anew, so that
    /// copies stay as they were. After want of memory the table is as before.
    pub fn insert(&mut self, key: K, value: V) -> Result<(), AllocError>
        ensures ok { OnOk result (self.new ≡ with_key K.cmp key value self.old) }
        ensures err { OnErr result (self.new ≡ self.old) }
    {
        let len = self.len_with(&key)?;
        let entry = Entry::new(self.alloc, key, value)?;
        let root = with_entry(self.alloc, &self.root, entry)?;
        self.root = Some(root);
        self.len = len;
        Ok(())
    }

    /// Takes a key with its value out, and answers whether it was there. The nodes on the way to the key are made anew, so that copies
    /// stay as they were. After want of memory the table is as before.
    pub fn remove(&mut self, key: &K) -> Result<bool, AllocError>
        ensures there { IfOk result (λ there. there ≡ is_some (at_key K.cmp key.now self.old)) }
        // Where the key is not there no memory is asked for.
        ensures absent { at_key K.cmp key.now self.old ≡ None → result ≡ Ok false }
        ensures ok { OnOk result (self.new ≡ without_key K.cmp key.now self.old) }
        ensures err { OnErr result (self.new ≡ self.old) }
    {
        let there = self.has(key);
        if there {
            let root = without_entry(self.alloc, &self.root, key)?;
            self.root = root;
            self.len -= 1;
        }
        Ok(there)
    }
}

impl<K: Ord + Drop, V: ExactClone + Drop> SharedTable<K, V> {
    /// Exchanges the value at a key that is there, and answers the one before as one's own; nothing where the key is not there. What
    /// other tables share is made anew on the way, so that copies stay as they were; what is this table's alone changes in its place.
    /// After want of memory the table is as before.
    pub fn exchange(&mut self, key: &K, value: V) -> Result<Option<V>, AllocError>
        ensures before { IfOk result (λ before. before ≡ at_key K.cmp key.now self.old) }
        ensures ok { OnOk result (self.new ≡ with_value K.cmp key.now value self.old) }
        ensures err { OnErr result (self.new ≡ self.old) }
    {
        exchange(&mut self.root, key, value)
    }
}

impl<K: Ord + Drop, V: Drop> Clone for SharedTable<K, V> {
    ghost use Rattle.std.specs.Prelude.{◌≡◌};

    ghost is_clone = { λ s t. t ≡ s };

    /// The same table once more, which shares all entries and takes no memory. It fails only where too many share them to be counted.
    fn clone(&self) -> Result<SharedTable<K, V>, AllocError> {
        Ok(SharedTable {
            alloc: self.alloc,
            len: self.len,
            root: shared(&self.root)?,
        })
    }
}

impl<K: Ord + Drop, V: Drop> ExactClone for SharedTable<K, V> {
    ghost copy_is_same = { λ x y h. h };
}
