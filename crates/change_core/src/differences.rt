//! What two lists of keys do not have in common.

ghost use Rattle.std.specs.Prelude.{◌≡◌, ◌&&◌, ◌||◌, ◌++◌, not, IfOk, OnOk};
ghost use Rattle.std.specs.List.Sorted.{IsStrictlySortedBy};
ghost use Rattle.std.specs.BTreeSet.{contains};
ghost use Rattle.change_core.specs.Kept.{is_listed};

use plain_data::{ExactClone, ExactOrd, Items, copy};
use std::alloc::{AllocError, Global};
use std::collections::BTreeSet;

/// Whether the key is in the list, whose keys are in order.
fn is_in_order<K: ExactOrd>(keys: &[K], key: &K) -> bool
    requires { IsStrictlySortedBy K.cmp keys.now }
    ensures { result ≡ is_listed K.cmp keys.now key.now }
{
    keys.binary_search(key).is_ok()
}

/// Whether the key is in a list of any order.
fn is_in<K: ExactOrd>(keys: &[K], key: &K) -> bool
    ensures { result ≡ is_listed K.cmp keys.now key.now }
{
    for other in keys {
        if key.cmp(other).is_eq() {
            return true;
        }
    }
    false
}

/// The keys of a list that are not in the other, whose keys are in order.
pub fn left_out<K: ExactOrd + ExactClone + Drop>(
    alloc: Global,
    keys: &[K],
    others: &[K],
) -> Result<Items<K>, AllocError>
    requires { IsStrictlySortedBy K.cmp others.now }
    ensures { IfOk result (λ left. (k : K) → is_listed K.cmp left k ≡ (is_listed K.cmp keys.now k && not (is_listed K.cmp others.now k))) }
{
    let mut left = Items::new(alloc);
    for key in keys {
        if !is_in_order(others, key) {
            left.push(copy(key)?)?;
        }
    }
    Ok(left)
}

/// Those of the keys read above that are read here too.
fn hits_above<K: ExactOrd + ExactClone + Drop>(
    alloc: Global,
    above: &[K],
    dropped: &[K],
) -> Result<Items<K>, AllocError>
    ensures { IfOk result (λ hits. (k : K) → is_listed K.cmp hits k ≡ (is_listed K.cmp above.now k && not (is_listed K.cmp dropped.now k))) }
{
    let mut hits = Items::new(alloc);
    for key in above {
        if !is_in(dropped, key) {
            hits.push(copy(key)?)?;
        }
    }
    Ok(hits)
}

/// Those of the keys that are changed.
fn hits_among<K: ExactOrd + ExactClone + Drop>(
    alloc: Global,
    changed: &BTreeSet<K>,
    keys: &[K],
) -> Result<Items<K>, AllocError>
    ensures { IfOk result (λ hits. (k : K) → is_listed K.cmp hits k ≡ (is_listed K.cmp keys.now k && contains K.cmp changed.now k)) }
{
    let mut hits = Items::new(alloc);
    for key in keys {
        if changed.contains(key) {
            hits.push(copy(key)?)?;
        }
    }
    Ok(hits)
}

/// Adds keys at the end of a list.
fn append<K: ExactClone + Drop>(list: &mut Items<K>, more: &[K]) -> Result<(), AllocError>
    ensures { OnOk result (list.new ≡ list.old ++ more.now) }
{
    for key in more {
        list.push(copy(key)?)?;
    }
    Ok(())
}

/// The changed keys that are read at a place: those read above but not dropped, and those added.
pub fn hits<K: ExactOrd + ExactClone + Drop>(
    alloc: Global,
    changed: &BTreeSet<K>,
    above: &[K],
    added: &[K],
    dropped: &[K],
) -> Result<Items<K>, AllocError>
    ensures { IfOk result (λ hits. (k : K) → is_listed K.cmp hits k ≡ ((is_listed K.cmp above.now k && not (is_listed K.cmp dropped.now k)) || (is_listed K.cmp added.now k && contains K.cmp changed.now k))) }
{
    let mut hits = hits_above(alloc, above, dropped)?;
    let more = hits_among(alloc, changed, added)?;
    append(&mut hits, more.as_slice())?;
    Ok(hits)
}

/// Adds keys to a set.
pub fn add_keys<K: ExactOrd + ExactClone + Drop>(
    set: &mut BTreeSet<K>,
    keys: &[K],
) -> Result<(), AllocError>
    ensures { IfOk result (λ _. (k : K) → contains K.cmp set.new k ≡ (contains K.cmp set.old k || is_listed K.cmp keys.now k)) }
{
    for key in keys {
        set.insert(copy(key)?)?;
    }
    Ok(())
}
