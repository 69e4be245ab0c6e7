//! A single entry.
ghost use Rattle.std.specs.Prelude.{◌≡◌, [], ◌∷◌, IfOk};
ghost use Rattle.std.specs.Option.{option_copied, option_map};
ghost use Rattle.plain_data.specs.Ends.{last};
ghost use Rattle.spec_tables.specs.Tables.{at_key, entries_from, entries_until};
ghost use Rattle.spec_tables.specs.Rest.{rest_entries};

use crate::entries::Rest;
use std::cmp::Ordering;

/// The value at a key.
pub(crate) fn get<'a, K: Ord, V>(entry: &'a (K, V), key: &K) -> Option<&'a V>
    ensures { option_copied result ≡ at_key K.cmp key.now (entry.now ∷ []) }
{
    match key.cmp(&entry.0) {
        Ordering::Less => None,
        Ordering::Equal => Some(&entry.1),
        Ordering::Greater => None,
    }
}

/// The entry, unless it stands before a key.
pub(crate) fn from<'a, K: Ord, V>(entry: &'a (K, V), key: &K) -> Rest<'a, K, V>
    ensures { rest_entries result ≡ entries_from K.cmp key.now (entry.now ∷ []) }
{
    match key.cmp(&entry.0) {
        Ordering::Less => Rest::One(entry),
        Ordering::Equal => Rest::One(entry),
        Ordering::Greater => Rest::Done,
    }
}

/// The entry, unless its key is above this one.
pub(crate) fn last_until<'a, K: Ord, V>(entry: &'a (K, V), key: &K) -> Option<(&'a K, &'a V)>
    ensures { option_map (λ e. (e.0.now, e.1.now)) result ≡ last (entries_until K.cmp key.now (entry.now ∷ [])) }
{
    match key.cmp(&entry.0) {
        Ordering::Less => None,
        Ordering::Equal => Some((&entry.0, &entry.1)),
        Ordering::Greater => Some((&entry.0, &entry.1)),
    }
}
