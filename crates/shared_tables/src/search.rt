//! What stands in a tree at a key.
ghost use Rattle.std.specs.Prelude.{◌≡◌};
ghost use Rattle.std.specs.Cmp.Lexicographic.{slice_cmp};
ghost use Rattle.std.specs.Option.{option_copied, option_map};
ghost use Rattle.std.specs.Map.Iter.{deref_pair};
ghost use Rattle.spec_tables.specs.Tables.{IsTable, at_key, entries_from};
ghost use Rattle.shared_tables.specs.Rest.{head, entries_after};
ghost use Rattle.shared_tables.specs.Trees.{link_entries};

use crate::node::{Link, Node};
use plain_data::Items;
use std::cmp::Ordering;

/// The value at a key.
pub(crate) fn found<'a, K: Ord, V>(tree: &'a Link<K, V>, key: &K) -> Option<&'a V>
    ensures { IsTable K.cmp (link_entries tree.now) → option_copied result ≡ at_key K.cmp key.now (link_entries tree.now) }
{
    match tree {
        None => None,
        Some(top) => {
            let node: &Node<K, V> = top;
            match key.cmp(node.entry.key()) {
                Ordering::Less => found(&node.before, key),
                Ordering::Equal => Some(node.entry.value()),
                Ordering::Greater => found(&node.after, key),
            }
        }
    }
}

/// The value at the key that has these items.
pub(crate) fn found_by_items<'a, T: Ord, V>(
    tree: &'a Link<Items<T>, V>,
    items: &[T],
) -> Option<&'a V>
    ensures { IsTable (slice_cmp T.cmp) (link_entries tree.now) → option_copied result ≡ at_key (slice_cmp T.cmp) items.now (link_entries tree.now) }
{
    match tree {
        None => None,
        Some(top) => {
            let node: &Node<Items<T>, V> = top;
            match items.cmp(node.entry.key().as_slice()) {
                Ordering::Less => found_by_items(&node.before, items),
                Ordering::Equal => Some(node.entry.value()),
                Ordering::Greater => found_by_items(&node.after, items),
            }
        }
    }
}

/// The first entry.
pub(crate) fn first<K, V>(tree: &Link<K, V>) -> Option<(&K, &V)>
    ensures { option_map deref_pair result ≡ head (link_entries tree.now) }
{
    match tree {
        None => None,
        Some(top) => {
            let node: &Node<K, V> = top;
            match first(&node.before) {
                None => Some(node.entry.pair()),
                Some(entry) => Some(entry),
            }
        }
    }
}

/// The first entry at a key or past it.
pub(crate) fn first_from<'a, K: Ord, V>(tree: &'a Link<K, V>, key: &K) -> Option<(&'a K, &'a V)>
    ensures { IsTable K.cmp (link_entries tree.now) → option_map deref_pair result ≡ head (entries_from K.cmp key.now (link_entries tree.now)) }
{
    match tree {
        None => None,
        Some(top) => {
            let node: &Node<K, V> = top;
            match key.cmp(node.entry.key()) {
                Ordering::Less => match first_from(&node.before, key) {
                    None => Some(node.entry.pair()),
                    Some(entry) => Some(entry),
                },
                Ordering::Equal => Some(node.entry.pair()),
                Ordering::Greater => first_from(&node.after, key),
            }
        }
    }
}

/// The first entry past a key.
pub(crate) fn first_after<'a, K: Ord, V>(tree: &'a Link<K, V>, key: &K) -> Option<(&'a K, &'a V)>
    ensures { IsTable K.cmp (link_entries tree.now) → option_map deref_pair result ≡ head (entries_after K.cmp key.now (link_entries tree.now)) }
{
    match tree {
        None => None,
        Some(top) => {
            let node: &Node<K, V> = top;
            match key.cmp(node.entry.key()) {
                Ordering::Less => match first_after(&node.before, key) {
                    None => Some(node.entry.pair()),
                    Some(entry) => Some(entry),
                },
                Ordering::Equal => first_after(&node.after, key),
                Ordering::Greater => first_after(&node.after, key),
            }
        }
    }
}
