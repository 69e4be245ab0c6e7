ghost use Rattle.std.specs.Prelude.{◌≡◌, [], IfOk, OnOk, OnErr};
ghost use Rattle.std.specs.BTreeMap.{insert_entry, is_at};
ghost use Rattle.std.specs.List.Sorted.{IsStrictlySortedBy};
ghost use Rattle.std.specs.Map.{remove_entry};
ghost use Rattle.dependency_table.specs.Tables.{marked};

use crate::collect::{all_keys, gathered, listed};
use crate::links::{link_all, new_keys, unlink_all, unlink_others};
use plain_data::{ExactClone, ExactOrd, Items, copy};
use std::alloc::{AllocError, Global};
use std::collections::{BTreeMap, BTreeSet};
use std::marker::Model;

/// A table from places to the keys that each was made from. Contracts see it as its entries, in the order of places.
///
/// It keeps both directions, from a place to its keys and from a key to its places, so that each call costs what it names and no walk
/// over the other places.
#[derive(Drop)]
pub struct Table<P: Ord, K: Ord> {
    reads: BTreeMap<P, Items<K>>,
    readers: BTreeMap<K, BTreeSet<P>>,
    alloc: Global,
}

impl<P: Ord, K: Ord> Model for Table<P, K> {
    ghost use Rattle.std.specs.Prelude.{List, ◌≡◌};
    ghost use Rattle.dependency_table.specs.Tables.{has_key, is_noted};

    ghost Value = { List (P × List K) };

    ghost view = { λ t. t.reads.entries };

    // A place is noted at exactly its keys.
    ghost invariant = { λ t. (p : P) (k : K) → is_noted P.cmp K.cmp t.readers k p ≡ has_key P.cmp K.cmp t.reads.entries p k };
}

impl<P: ExactOrd + ExactClone + Drop, K: ExactOrd + ExactClone + Drop> Table<P, K> {
    /// An empty table. It takes no memory.
    pub fn new(alloc: Global) -> Table<P, K>
        ensures { result ≡ [] }
    {
        Table {
            reads: BTreeMap::new(alloc),
            readers: BTreeMap::new(alloc),
            alloc,
        }
    }

    /// Gives the place these keys, in place of those that it had.
    ///
    /// # Errors
    ///
    /// Memory ran out. The table is as before.
    pub fn put(&mut self, place: &P, keys: &[K]) -> Result<(), AllocError>
        ensures ok { OnOk result (self.new ≡ insert_entry P.cmp self.old place.now keys.now) }
        ensures err { OnErr result (self.new ≡ self.old) }
    {
        let kept = listed(self.alloc, keys)?;
        let wanted = all_keys(self.alloc, keys)?;
        let fresh = new_keys(self.alloc, &self.readers, keys, place)?;
        let named = copy(place)?;
        link_all(&mut self.readers, self.alloc, fresh.as_slice(), place)?;
        match self.reads.insert(named, kept) {
            Ok(Some(before)) => unlink_others(&mut self.readers, before.as_slice(), &wanted, place),
            Ok(None) => {}
            Err(_) => {
                unlink_all(&mut self.readers, fresh.as_slice(), place);
                return Err(AllocError);
            }
        }
        Ok(())
    }

    /// Takes the place and its keys out of the table. It takes no memory.
    pub fn forget(&mut self, place: &P)
        ensures { self.new ≡ remove_entry (is_at (P.cmp place.now)) self.old }
    {
        if let Some(before) = self.reads.remove(place) {
            unlink_all(&mut self.readers, before.as_slice(), place);
        }
    }

    /// The places one of whose keys is among these, in order and each once.
    ///
    /// # Errors
    ///
    /// Memory ran out.
    pub fn marked_by(&self, keys: &[K]) -> Result<Vec<P>, AllocError>
        ensures places { IfOk result (λ places. places.items ≡ marked K.cmp self.now keys.now) }
        ensures order { IfOk result (λ places. IsStrictlySortedBy P.cmp places.items) }
    {
        if self.reads.len() == 0 {
            return Ok(Vec::new(self.alloc));
        }
        let places = gathered(self.alloc, &self.readers, keys)?;
        Ok(places)
    }
}
