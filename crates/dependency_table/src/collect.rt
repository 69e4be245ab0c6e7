//! Keys and places, copied.
ghost use Rattle.std.specs.Prelude.{◌≡◌, ◌||◌, IfOk};
ghost use Rattle.std.specs.List.Sorted.{IsStrictlySortedBy};
ghost use Rattle.std.specs.BTreeSet.{contains, IsOrdered};
ghost use Rattle.std.specs.List.{list_any};
ghost use Rattle.dependency_table.specs.Tables.{is_listed, is_noted};

use plain_data::{ExactClone, ExactOrd, Items, copy};
use std::alloc::{AllocError, Global};
use std::collections::{BTreeMap, BTreeSet};

/// The keys as a list of their own.
pub fn listed<K: ExactClone + Drop>(alloc: Global, keys: &[K]) -> Result<Items<K>, AllocError>
    ensures { IfOk result (λ list. list ≡ keys.now) }
{
    let mut list = Items::new(alloc);
    for key in keys {
        list.push(copy(key)?)?;
    }
    Ok(list)
}

/// The keys as a set.
pub fn all_keys<K: ExactOrd + ExactClone + Drop>(
    alloc: Global,
    keys: &[K],
) -> Result<BTreeSet<K>, AllocError>
    ensures { IfOk result (λ set. (k : K) → contains K.cmp set k ≡ is_listed K.cmp keys.now k) }
{
    let mut set = BTreeSet::new(alloc);
    for key in keys {
        set.insert(copy(key)?)?;
    }
    Ok(set)
}

/// Adds places to a set.
fn add_places<P: ExactOrd + ExactClone + Drop>(
    found: &mut BTreeSet<P>,
    places: &BTreeSet<P>,
) -> Result<(), AllocError>
    ensures { IfOk result (λ _. (p : P) → contains P.cmp found.new p ≡ (contains P.cmp found.old p || contains P.cmp places.now p)) }
{
    for place in places {
        if !found.contains(place) {
            found.insert(copy(place)?)?;
        }
    }
    Ok(())
}

/// The places that are noted at these keys, as a set.
fn places_of<P: ExactOrd + ExactClone + Drop, K: ExactOrd>(
    alloc: Global,
    readers: &BTreeMap<K, BTreeSet<P>>,
    keys: &[K],
) -> Result<BTreeSet<P>, AllocError>
    ensures { IfOk result (λ found. (p : P) → contains P.cmp found p ≡ list_any (λ k. is_noted P.cmp K.cmp readers.now k p) keys.now) }
{
    let mut found = BTreeSet::new(alloc);
    for key in keys {
        if let Some(places) = readers.get(key) {
            add_places(&mut found, places)?;
        }
    }
    Ok(found)
}

/// The members of a set, in order.
fn into_list<P: ExactOrd + Drop>(alloc: Global, set: BTreeSet<P>) -> Result<Vec<P>, AllocError>
    ensures order { IsOrdered P.cmp set }
    ensures list { IfOk result (λ list. list.items ≡ set.keys) }
{
    let mut list = Vec::with_capacity(alloc, set.len())?;
    for place in set {
        list.push(place)?;
    }
    Ok(list)
}

/// The places that are noted at these keys, each once and in order.
pub fn gathered<P: ExactOrd + ExactClone + Drop, K: ExactOrd>(
    alloc: Global,
    readers: &BTreeMap<K, BTreeSet<P>>,
    keys: &[K],
) -> Result<Vec<P>, AllocError>
    ensures order { IfOk result (λ places. IsStrictlySortedBy P.cmp places.items) }
    ensures found { IfOk result (λ places. (p : P) → is_listed P.cmp places.items p ≡ list_any (λ k. is_noted P.cmp K.cmp readers.now k p) keys.now) }
{
    into_list(alloc, places_of(alloc, readers, keys)?)
}
