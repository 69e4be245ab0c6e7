//! A tree with another value at a key: the nodes on the way from the root are made anew, and the others are shared.
ghost use Rattle.std.specs.Prelude.{◌≡◌, IfOk};
ghost use Rattle.spec_tables.specs.Tables.{IsTable, with_key, with_value};
ghost use Rattle.shared_tables.specs.Trees.{entries, link_entries};

use crate::entry::Entry;
use crate::node::{Link, Node, joined, shared, with_after, with_before};
use std::alloc::{AllocError, Global};
use std::cmp::Ordering;
use std::sync::Arc;

/// The tree with an entry. A key that is there stays, and takes the value.
pub(crate) fn with_entry<K: Ord + Drop, V: Drop>(
    alloc: Global,
    tree: &Link<K, V>,
    entry: Entry<K, V>,
) -> Result<Arc<Node<K, V>>, AllocError>
    ensures { IsTable K.cmp (link_entries tree.now) → IfOk result (λ n. entries n.value ≡ with_key K.cmp entry.0 entry.1 (link_entries tree.now)) }
{
    match tree {
        None => joined(alloc, None, entry, None),
        Some(top) => {
            let node: &Node<K, V> = top;
            match entry.key().cmp(node.entry.key()) {
                Ordering::Less => {
                    let before = with_entry(alloc, &node.before, entry)?;
                    with_before(alloc, Some(before), node)
                }
                Ordering::Equal => {
                    let before = shared(&node.before)?;
                    let middle = node.entry.with_value(entry.into_value())?;
                    let after = shared(&node.after)?;
                    joined(alloc, before, middle, after)
                }
                Ordering::Greater => {
                    let after = with_entry(alloc, &node.after, entry)?;
                    with_after(alloc, node, Some(after))
                }
            }
        }
    }
}
