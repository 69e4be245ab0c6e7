//! Comparison of two tables, entry by entry.

use crate::table::OrderedTable;
use plain_data::{ExactEq, ExactOrd};

impl<K: Ord, V: PartialEq> PartialEq for OrderedTable<K, V> {
    ghost use Rattle.std.specs.Cmp.{and_per, on_per};
    ghost use Rattle.std.specs.Cmp.Lexicographic.{pointwise, lists_per};
    ghost use Rattle.spec_tables.specs.Same.{same_entry};

    ghost eq = { pointwise (same_entry K.eq V.eq) };

    ghost laws = { lists_per (and_per (on_per (λ p. p.0) K.PartialEq.laws) (on_per (λ p. p.1) V.laws)) };

    fn eq(&self, other: &Self) -> bool {
        let mut theirs = other.iter();
        for (key, value) in self.iter() {
            match theirs.next() {
                None => return false,
                Some((k, v)) => {
                    if key != k || value != v {
                        return false;
                    }
                }
            }
        }
        theirs.next().is_none()
    }
}

impl<K: Ord, V: Eq> Eq for OrderedTable<K, V> {
    ghost use Rattle.std.specs.Cmp.{and_equiv, on_equiv};
    ghost use Rattle.std.specs.Cmp.Lexicographic.{lists_equiv};

    ghost laws = { lists_equiv (and_equiv (on_equiv (λ p. p.0) K.Eq.laws) (on_equiv (λ p. p.1) V.Eq.laws)) };
}

impl<K: ExactOrd + ExactEq, V: ExactEq> ExactEq for OrderedTable<K, V> {
    ghost use Rattle.plain_data.specs.Exact.{pointwise_same};
    ghost use Rattle.spec_tables.specs.Same.{same_entry, entry_same};

    ghost equal_is_same = { λ x y h. pointwise_same (same_entry K.eq V.eq) (entry_same K.eq V.eq K.equal_is_same V.equal_is_same) x y h };
}
