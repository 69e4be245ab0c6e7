//! Sets that grow item by item.
ghost use Rattle.std.specs.Prelude.{◌≡◌, OnOk, IfOk};
ghost use Rattle.std.specs.List.{Contains};
ghost use Rattle.std.specs.BTreeSet.{IsOrdered};

use plain_data::{ExactOrd, Items};
use std::alloc::{AllocError, Global};
use std::collections::BTreeSet;

/// Adds an item to a set.
pub fn add<K: ExactOrd + Drop>(set: &mut BTreeSet<K>, item: K) -> Result<(), AllocError>
    ensures added { OnOk result (Contains set.new.keys item) }
    ensures kept { OnOk result ((k : K) → Contains set.old.keys k → Contains set.new.keys k) }
{
    set.insert(item)?;
    Ok(())
}

/// The items of a set, in order.
pub fn into_list<K: ExactOrd + Drop>(
    alloc: Global,
    set: BTreeSet<K>,
) -> Result<Items<K>, AllocError>
    ensures order { IsOrdered K.cmp set }
    ensures list { IfOk result (λ list. list ≡ set.keys) }
{
    let mut list = Vec::with_capacity(alloc, set.len())?;
    for item in set {
        list.push(item)?;
    }
    Ok(Items::from_vec(list))
}
