//! The places noted at each key.
ghost use Rattle.std.specs.Prelude.{◌≡◌, ◌&&◌, ◌||◌, not, IfOk, OnOk, OnErr, true, false};
ghost use Rattle.std.specs.BTreeMap.{is_at};
ghost use Rattle.std.specs.BTreeSet.{contains};
ghost use Rattle.dependency_table.specs.Tables.{is_noted, is_listed};

use plain_data::{ExactClone, ExactOrd, Items, copy};
use std::alloc::{AllocError, Global};
use std::collections::{BTreeMap, BTreeSet};

/// Whether the place is noted at the key.
fn is_linked<P: Ord, K: Ord>(readers: &BTreeMap<K, BTreeSet<P>>, key: &K, place: &P) -> bool
    ensures { result ≡ is_noted P.cmp K.cmp readers.now key.now place.now }
{
    match readers.get(key) {
        Some(places) => places.contains(place),
        None => false,
    }
}

/// Notes the place at the key.
fn link<P: ExactOrd + ExactClone + Drop, K: ExactOrd + ExactClone + Drop>(
    readers: &mut BTreeMap<K, BTreeSet<P>>,
    alloc: Global,
    key: &K,
    place: &P,
) -> Result<(), AllocError>
    ensures ok { OnOk result ((k : K) (p : P) → is_noted P.cmp K.cmp readers.new k p ≡ (is_noted P.cmp K.cmp readers.old k p || (is_at (K.cmp k) key.now && is_at (P.cmp p) place.now))) }
    ensures err { OnErr result ((k : K) (p : P) → is_noted P.cmp K.cmp readers.new k p ≡ is_noted P.cmp K.cmp readers.old k p) }
{
    let named = copy(place)?;
    if let Some(places) = readers.get_mut(key) {
        places.insert(named)?;
        return Ok(());
    }
    let mut places = BTreeSet::new(alloc);
    places.insert(named)?;
    readers.insert(copy(key)?, places)?;
    Ok(())
}

/// Takes the place away from the key.
fn unlink<P: ExactOrd + Drop, K: ExactOrd + Drop>(
    readers: &mut BTreeMap<K, BTreeSet<P>>,
    key: &K,
    place: &P,
)
    ensures { (k : K) (p : P) → is_noted P.cmp K.cmp readers.new k p ≡ (is_noted P.cmp K.cmp readers.old k p && not (is_at (K.cmp k) key.now && is_at (P.cmp p) place.now)) }
{
    let Some(places) = readers.get_mut(key) else {
        return;
    };
    places.remove(place);
    if places.is_empty() {
        readers.remove(key);
    }
}

/// The keys at which the place is not noted yet.
pub fn new_keys<P: ExactOrd, K: ExactOrd + ExactClone + Drop>(
    alloc: Global,
    readers: &BTreeMap<K, BTreeSet<P>>,
    keys: &[K],
    place: &P,
) -> Result<Items<K>, AllocError>
    ensures { IfOk result (λ fresh. (k : K) → is_listed K.cmp fresh k ≡ (is_listed K.cmp keys.now k && not (is_noted P.cmp K.cmp readers.now k place.now))) }
{
    let mut fresh = Items::new(alloc);
    for key in keys {
        if !is_linked(readers, key, place) {
            fresh.push(copy(key)?)?;
        }
    }
    Ok(fresh)
}

/// Notes the place at keys at which it was not. After want of memory all is as before.
pub fn link_all<P: ExactOrd + ExactClone + Drop, K: ExactOrd + ExactClone + Drop>(
    readers: &mut BTreeMap<K, BTreeSet<P>>,
    alloc: Global,
    keys: &[K],
    place: &P,
) -> Result<(), AllocError>
    requires { (k : K) → is_listed K.cmp keys.now k ≡ true → is_noted P.cmp K.cmp readers.old k place.now ≡ false }
    ensures ok { OnOk result ((k : K) (p : P) → is_noted P.cmp K.cmp readers.new k p ≡ (is_noted P.cmp K.cmp readers.old k p || (is_listed K.cmp keys.now k && is_at (P.cmp p) place.now))) }
    ensures err { OnErr result ((k : K) (p : P) → is_noted P.cmp K.cmp readers.new k p ≡ is_noted P.cmp K.cmp readers.old k p) }
{
    for key in keys {
        if let Err(error) = link(readers, alloc, key, place) {
            unlink_all(readers, keys, place);
            return Err(error);
        }
    }
    Ok(())
}

/// Takes the place away from all these keys.
pub fn unlink_all<P: ExactOrd + Drop, K: ExactOrd + Drop>(
    readers: &mut BTreeMap<K, BTreeSet<P>>,
    keys: &[K],
    place: &P,
)
    ensures { (k : K) (p : P) → is_noted P.cmp K.cmp readers.new k p ≡ (is_noted P.cmp K.cmp readers.old k p && not (is_listed K.cmp keys.now k && is_at (P.cmp p) place.now)) }
{
    for key in keys {
        unlink(readers, key, place);
    }
}

/// Takes the place away from those of the keys that are not wanted.
pub fn unlink_others<P: ExactOrd + Drop, K: ExactOrd + Drop>(
    readers: &mut BTreeMap<K, BTreeSet<P>>,
    keys: &[K],
    wanted: &BTreeSet<K>,
    place: &P,
)
    ensures { (k : K) (p : P) → is_noted P.cmp K.cmp readers.new k p ≡ (is_noted P.cmp K.cmp readers.old k p && not (is_listed K.cmp keys.now k && not (contains K.cmp wanted.now k) && is_at (P.cmp p) place.now)) }
{
    for key in keys {
        if !wanted.contains(key) {
            unlink(readers, key, place);
        }
    }
}
