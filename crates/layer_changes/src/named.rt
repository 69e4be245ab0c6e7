//! Keys that a batch names: those at which the two worlds may differ.
ghost use Rattle.std.specs.Prelude.{OnOk, IfOk};
ghost use Rattle.std.specs.List.{Contains, All};
ghost use Rattle.std.specs.List.Sorted.{IsStrictlySortedBy};
ghost use Rattle.key_sets.specs.Order.{key_cmp};
ghost use Rattle.layer_changes.specs.Parts.{parts_of};
ghost use Rattle.layer_changes.specs.Covering.{Names, NamesBatch};

use crate::growing::{add, into_list};
use crate::part::Part;
use crate::parts::parts_of;
use crate::trees::{add_spec, add_tree};
use edit_batches::{Batch, Op};
use layer_set::{Key, World};
use plain_data::{Items, copy};
use std::alloc::{AllocError, Global};
use std::collections::BTreeSet;

/// Adds parts to a set.
fn add_all(set: &mut BTreeSet<Part>, parts: &[Part]) -> Result<(), AllocError>
    ensures added { OnOk result (All (λ p. Contains set.new.keys p) parts.now) }
    ensures kept { OnOk result ((p : Part) → Contains set.old.keys p → Contains set.new.keys p) }
{
    for part in parts {
        add(set, copy(part)?)?;
    }
    Ok(())
}

/// Adds the parts that an operation may change.
fn add_parts(alloc: Global, set: &mut BTreeSet<Part>, op: &Op) -> Result<(), AllocError>
    ensures added { OnOk result (All (λ p. Contains set.new.keys p) (parts_of op.now)) }
    ensures kept { OnOk result ((p : Part) → Contains set.old.keys p → Contains set.new.keys p) }
{
    let parts = parts_of(alloc, op)?;
    add_all(set, parts.as_slice())?;
    Ok(())
}

/// The parts that these operations may change, each once.
fn parts_of_all(alloc: Global, ops: &[Op]) -> Result<Items<Part>, AllocError>
    ensures { IfOk result (λ parts. All (λ op. All (λ p. Contains parts p) (parts_of op)) ops.now) }
{
    let mut set = BTreeSet::new(alloc);
    for op in ops {
        add_parts(alloc, &mut set, op)?;
    }
    let parts = into_list(alloc, set)?;
    Ok(parts)
}

/// Adds the keys of a part at which the two worlds may differ.
fn add_part(
    alloc: Global,
    keys: &mut BTreeSet<Key>,
    old: &World,
    new: &World,
    part: &Part,
) -> Result<(), AllocError>
    ensures added { OnOk result (Names old.now new.now keys.new.keys part.now) }
    ensures kept { OnOk result ((k : Key) → Contains keys.old.keys k → Contains keys.new.keys k) }
{
    match part {
        Part::At(key) => {
            add(keys, copy(key)?)?;
            Ok(())
        }
        Part::Below(name, front) => {
            add_spec(keys, name, front)?;
            add_tree(alloc, keys, old.held(name), name, front)?;
            add_tree(alloc, keys, new.held(name), name, front)?;
            Ok(())
        }
    }
}

/// The keys of these parts at which the two worlds may differ, in the order of keys.
fn keys_of_parts(
    alloc: Global,
    old: &World,
    new: &World,
    parts: &[Part],
) -> Result<Items<Key>, AllocError>
    ensures order { IfOk result (λ keys. IsStrictlySortedBy key_cmp keys) }
    ensures named { IfOk result (λ keys. All (λ part. Names old.now new.now keys part) parts.now) }
{
    let mut set = BTreeSet::new(alloc);
    for part in parts {
        add_part(alloc, &mut set, old, new, part)?;
    }
    let keys = into_list(alloc, set)?;
    Ok(keys)
}

/// The keys that a batch names, in the order of keys: among them are all at which the two worlds may differ.
pub fn named_keys(
    alloc: Global,
    old: &World,
    new: &World,
    batch: &Batch,
) -> Result<Items<Key>, AllocError>
    ensures order { IfOk result (λ keys. IsStrictlySortedBy key_cmp keys) }
    ensures named { IfOk result (λ keys. NamesBatch old.now new.now keys batch.now) }
{
    let parts = parts_of_all(alloc, batch.ops())?;
    let keys = keys_of_parts(alloc, old, new, parts.as_slice())?;
    Ok(keys)
}
