//! A tree in which a value is exchanged: only what other trees share is made anew.
ghost use Rattle.std.specs.Prelude.{◌≡◌, IfOk, OnOk, OnErr};
ghost use Rattle.spec_tables.specs.Tables.{IsTable, at_key, with_value};
ghost use Rattle.shared_tables.specs.Trees.{link_entries};

use crate::node::{Link, Node, shared};
use plain_data::ExactClone;
use std::alloc::AllocError;
use std::cmp::Ordering;
use std::sync::Arc;

impl<K: Drop, V: Drop> Clone for Node<K, V> {
    ghost use Rattle.shared_tables.specs.Trees.{IsSameNode};

    ghost is_clone = { λ x y. IsSameNode x y };

    fn clone(&self) -> Result<Node<K, V>, AllocError> {
        Ok(Node {
            entry: self.entry.shared()?,
            height: self.height,
            before: shared(&self.before)?,
            after: shared(&self.after)?,
        })
    }
}

/// Exchanges the value at a key that is there, and answers the one before as one's own; nothing where the key is not there.
pub(crate) fn exchange<K: Ord + Drop, V: ExactClone + Drop>(
    tree: &mut Link<K, V>,
    key: &K,
    value: V,
) -> Result<Option<V>, AllocError>
    ensures before { IsTable K.cmp (link_entries tree.old) → IfOk result (λ before. before ≡ at_key K.cmp key.now (link_entries tree.old)) }
    ensures ok { IsTable K.cmp (link_entries tree.old) → OnOk result (link_entries tree.new ≡ with_value K.cmp key.now value (link_entries tree.old)) }
    ensures err { OnErr result (link_entries tree.new ≡ link_entries tree.old) }
{
    match tree {
        None => {
            drop(value);
            Ok(None)
        }
        Some(top) => {
            let node = Arc::make_mut(top)?;
            match key.cmp(node.entry.key()) {
                Ordering::Less => exchange(&mut node.before, key, value),
                Ordering::Equal => Ok(Some(node.entry.exchange(value)?)),
                Ordering::Greater => exchange(&mut node.after, key, value),
            }
        }
    }
}
