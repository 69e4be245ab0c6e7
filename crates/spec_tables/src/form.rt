//! How the entries of a table are kept.

use std::collections::BTreeMap;

/// A single entry stands by itself, and few stand in a list in the order of keys, which has room for half as many more at most; many
/// stand in a tree, where an entry is put without moving all that come after it. Each is behind a box, since most tables are empty or
/// have one entry.
#[derive(Debug, Drop)]
pub(crate) enum Form<K: Ord, V> {
    Empty,
    One(Box<(K, V)>),
    Few(Box<Vec<(K, V)>>),
    Many(Box<BTreeMap<K, V>>),
}
