//! Keys in order.
ghost use Rattle.std.specs.Prelude.{◌≡◌, IfOk, OnOk};
ghost use Rattle.std.specs.BTreeSet.{insert_key};
ghost use Rattle.key_sets.specs.Order.{key_cmp, in_order};

use layer_set::Key;
use plain_data::Items;
use std::alloc::{AllocError, Global};
use std::collections::BTreeSet;

/// Puts a key at its place, unless it is there.
fn put(set: &mut BTreeSet<Key>, key: Key) -> Result<(), AllocError>
    ensures { OnOk result (set.new.keys ≡ insert_key key_cmp set.old.keys key) }
{
    set.insert(key)?;
    Ok(())
}

/// The keys of a set as a list.
fn listed(alloc: Global, set: BTreeSet<Key>) -> Result<Items<Key>, AllocError>
    ensures { IfOk result (λ list. list ≡ set.keys) }
{
    let mut list = Vec::with_capacity(alloc, set.len())?;
    for key in set {
        list.push(key)?;
    }
    Ok(Items::from_vec(list))
}

/// Each of these keys once, in the order of keys.
///
/// # Errors
///
/// Memory ran out.
#[tactic(auto, using(crate::proofs::Order::with_last))]
pub fn in_order(alloc: Global, keys: Items<Key>) -> Result<Items<Key>, AllocError>
    ensures { IfOk result (λ list. list ≡ in_order keys) }
{
    let mut set = BTreeSet::new(alloc);
    for key in keys.into_vec() {
        put(&mut set, key)?;
    }
    let list = listed(alloc, set)?;
    Ok(list)
}
