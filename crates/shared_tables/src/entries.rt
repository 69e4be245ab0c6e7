//! The entries of a table one by one, each found by a search.
ghost use Rattle.std.specs.Prelude.{length};
ghost use Rattle.std.specs.Iterator.{at_most};
ghost use Rattle.std.specs.Map.Iter.{TakesFirst, deref_pair};

use crate::table::SharedTable;
use std::marker::Model;

/// The entries of a table in the order of keys. It takes no memory: it keeps the next entry, and finds the one after it by a search.
///
/// Contracts see the list of keys and values that are left.
#[derive(Drop)]
pub struct Entries<'a, K: Ord, V> {
    pub(crate) table: &'a SharedTable<K, V>,
    pub(crate) next: Option<(&'a K, &'a V)>,
}

impl<'a, K: Ord, V> Model for Entries<'a, K, V> {
    ghost use Rattle.std.specs.Prelude.{List};

    ghost Value = { List (K × V) };

    ghost use Rattle.std.specs.Map.Iter.{deref_pair};
    ghost use Rattle.std.specs.Option.{option_map};
    ghost use Rattle.shared_tables.specs.Rest.{onwards};

    ghost view = { λ s. onwards K.cmp s.table.now (option_map deref_pair s.next) };
}

impl<'a, K: Ord, V> Iterator for Entries<'a, K, V> {
    type Item = (&'a K, &'a V);

    ghost next_gives = { TakesFirst deref_pair };

    ghost remaining = { λ s. at_most (length s) };

    fn next(&mut self) -> Option<(&'a K, &'a V)> {
        let (key, value) = self.next?;
        self.next = self.table.after(key);
        Some((key, value))
    }
}
