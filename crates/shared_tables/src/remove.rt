//! A tree without a key: the nodes on the way from the root are made anew, and the others are shared.
ghost use Rattle.std.specs.Prelude.{◌≡◌, ◌++◌, ◌∷◌, IfOk};
ghost use Rattle.spec_tables.specs.Tables.{IsTable, without_key};
ghost use Rattle.shared_tables.specs.Trees.{entries, link_entries};

use crate::entry::Entry;
use crate::node::{Link, Node, balanced, shared, with_after, with_before};
use std::alloc::{AllocError, Global};
use std::cmp::Ordering;

/// The first entry of a tree, and the tree without it.
fn split_first<K: Drop, V: Drop>(
    alloc: Global,
    node: &Node<K, V>,
) -> Result<(Entry<K, V>, Link<K, V>), AllocError>
    ensures { IfOk result (λ p. entries node.now ≡ p.0 ∷ link_entries p.1) }
{
    match &node.before {
        None => Ok((node.entry.shared()?, shared(&node.after)?)),
        Some(before) => {
            let (first, rest) = split_first(alloc, before)?;
            let tree = with_before(alloc, rest, node)?;
            Ok((first, Some(tree)))
        }
    }
}

/// Two parts as one tree.
fn together<K: Drop, V: Drop>(
    alloc: Global,
    before: &Link<K, V>,
    after: &Link<K, V>,
) -> Result<Link<K, V>, AllocError>
    ensures { IfOk result (λ t. link_entries t ≡ link_entries before.now ++ link_entries after.now) }
{
    match after {
        None => shared(before),
        Some(node) => {
            let front = shared(before)?;
            let (first, rest) = split_first(alloc, node)?;
            let tree = balanced(alloc, front, first, rest)?;
            Ok(Some(tree))
        }
    }
}

/// The tree without a key.
pub(crate) fn without_entry<K: Ord + Drop, V: Drop>(
    alloc: Global,
    tree: &Link<K, V>,
    key: &K,
) -> Result<Link<K, V>, AllocError>
    ensures { IsTable K.cmp (link_entries tree.now) → IfOk result (λ t. link_entries t ≡ without_key K.cmp key.now (link_entries tree.now)) }
{
    match tree {
        None => Ok(None),
        Some(top) => {
            let node: &Node<K, V> = top;
            match key.cmp(node.entry.key()) {
                Ordering::Less => {
                    let before = without_entry(alloc, &node.before, key)?;
                    let tree = with_before(alloc, before, node)?;
                    Ok(Some(tree))
                }
                Ordering::Equal => together(alloc, &node.before, &node.after),
                Ordering::Greater => {
                    let after = without_entry(alloc, &node.after, key)?;
                    let tree = with_after(alloc, node, after)?;
                    Ok(Some(tree))
                }
            }
        }
    }
}
