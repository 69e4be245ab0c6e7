//! Few entries: a list in the order of keys.
ghost use Rattle.std.specs.Prelude.{◌≡◌, ℕ, ◌≤◌, ◌<◌, List, ◌∷◌, ◌++◌, length, Some, None, IfOk, IfErr, OnOk, OnErr, MatchResult};
ghost use Rattle.std.specs.Option.{option_copied, option_map};
ghost use Rattle.plain_data.specs.Ends.{last};
ghost use Rattle.spec_tables.specs.Tables.{IsTable, at_key, with_key, without_key, with_value, entries_from, entries_until};
ghost use Rattle.spec_tables.specs.Places.{IsPlace};

use std::alloc::AllocError;
use std::cmp::Ordering;
use std::mem;

/// Where a key stands in the entries, or where it would.
fn place<K: Ord, V>(entries: &[(K, V)], key: &K) -> Result<usize, usize>
    ensures within { MatchResult result (λ i. i < length entries.now) (λ i. i ≤ length entries.now) }
    ensures place { IsTable K.cmp entries.now → IsPlace K.cmp key.now entries.now result }
{
    entries.binary_search_by(|entry| entry.0.cmp(key))
}

/// The same, where the key is likely to stand past all that are there.
fn place_from_end<K: Ord, V>(entries: &[(K, V)], key: &K) -> Result<usize, usize>
    ensures within { MatchResult result (λ i. i < length entries.now) (λ i. i ≤ length entries.now) }
    ensures place { IsTable K.cmp entries.now → IsPlace K.cmp key.now entries.now result }
{
    match entries.split_last() {
        None => Err(0),
        Some((last, _)) => match key.cmp(&last.0) {
            Ordering::Greater => Err(entries.len()),
            _ => place(entries, key),
        },
    }
}

/// The value at a key.
pub(crate) fn get<'a, K: Ord, V>(entries: &'a [(K, V)], key: &K) -> Option<&'a V>
    ensures { IsTable K.cmp entries.now → option_copied result ≡ at_key K.cmp key.now entries.now }
{
    match place(entries, key) {
        Ok(i) => Some(&entries[i].1),
        Err(_) => None,
    }
}

/// The entries from a key on.
pub(crate) fn from<'a, K: Ord, V>(entries: &'a [(K, V)], key: &K) -> &'a [(K, V)]
    ensures rest { IsTable K.cmp entries.now → result.now ≡ entries_from K.cmp key.now entries.now }
    ensures few { length result.now ≤ length entries.now }
{
    match place(entries, key) {
        Ok(i) => &entries[i..],
        Err(i) => &entries[i..],
    }
}

/// The entries up to a key.
fn until<'a, K: Ord, V>(entries: &'a [(K, V)], key: &K) -> &'a [(K, V)]
    ensures { IsTable K.cmp entries.now → result.now ≡ entries_until K.cmp key.now entries.now }
{
    match place(entries, key) {
        Ok(i) => &entries[..=i],
        Err(i) => &entries[..i],
    }
}

/// The last entry whose key is not above this one.
pub(crate) fn last_until<'a, K: Ord, V>(entries: &'a [(K, V)], key: &K) -> Option<(&'a K, &'a V)>
    ensures { IsTable K.cmp entries.now → option_map (λ e. (e.0.now, e.1.now)) result ≡ last (entries_until K.cmp key.now entries.now) }
{
    match until(entries, key).split_last() {
        None => None,
        Some((entry, _)) => Some((&entry.0, &entry.1)),
    }
}

/// Exchanges the value at a place, and answers the one before.
fn exchange<K, V>(entries: &mut Vec<(K, V)>, i: usize, value: V) -> V
    requires { i < length entries.old.items }
    ensures exchanged { (front : List (K × V)) (entry : K × V) (back : List (K × V)) → entries.old.items ≡ front ++ entry ∷ back → length front ≡ i → (result ≡ entry.1) × (entries.new.items ≡ front ++ (entry.0, value) ∷ back) }
    ensures len { length entries.new.items ≡ length entries.old.items }
{
    mem::replace(&mut entries[i].1, value)
}

/// Exchanges the value at a key that is there, and answers the one before; else hands the value back.
pub(crate) fn replace<K: Ord, V>(entries: &mut Vec<(K, V)>, key: &K, value: V) -> Result<V, V>
    ensures before { IsTable K.cmp entries.old.items → IfOk result (λ before. at_key K.cmp key.now entries.old.items ≡ Some before) }
    ensures ok { IsTable K.cmp entries.old.items → OnOk result (entries.new.items ≡ with_value K.cmp key.now value entries.old.items) }
    ensures absent { IsTable K.cmp entries.old.items → IfErr result (λ back. (back ≡ value) × (at_key K.cmp key.now entries.old.items ≡ None)) }
    ensures err { OnErr result (entries.new.items ≡ entries.old.items) }
    ensures len { length entries.new.items ≡ length entries.old.items }
{
    match place(entries, key) {
        Ok(i) => Ok(exchange(entries, i, value)),
        Err(_) => Err(value),
    }
}

/// Makes room for one more entry, and for half as many as there are.
fn reserve<K, V>(entries: &mut Vec<(K, V)>) -> Result<(), AllocError>
    ensures { entries.new.items ≡ entries.old.items }
{
    if entries.len() == entries.capacity() {
        entries.reserve_exact((entries.len() / 2).saturating_add(1))?;
    }
    Ok(())
}

/// Puts a value at a key, and answers the one before.
pub(crate) fn put<K: Ord + Drop, V: Drop>(
    entries: &mut Vec<(K, V)>,
    key: K,
    value: V,
) -> Result<Option<V>, AllocError>
    ensures before { IsTable K.cmp entries.old.items → IfOk result (λ before. before ≡ at_key K.cmp key entries.old.items) }
    ensures ok { IsTable K.cmp entries.old.items → OnOk result (entries.new.items ≡ with_key K.cmp key value entries.old.items) }
    ensures absent { IsTable K.cmp entries.old.items → OnErr result (at_key K.cmp key entries.old.items ≡ None) }
    ensures err { OnErr result (entries.new.items ≡ entries.old.items) }
    ensures few { (n : ℕ) → IsTable K.cmp entries.old.items → length entries.old.items ≤ n → (at_key K.cmp key entries.old.items ≡ None → length entries.old.items < n) → length entries.new.items ≤ n }
{
    match place_from_end(entries, &key) {
        Ok(i) => {
            drop(key);
            Ok(Some(exchange(entries, i, value)))
        }
        Err(i) => {
            reserve(entries)?;
            entries.insert(i, (key, value))?;
            Ok(None)
        }
    }
}

/// Takes the entry of a key out, and answers its value.
pub(crate) fn take<K: Ord + Drop, V: Drop>(entries: &mut Vec<(K, V)>, key: &K) -> Option<V>
    ensures before { IsTable K.cmp entries.old.items → result ≡ at_key K.cmp key.now entries.old.items }
    ensures removed { IsTable K.cmp entries.old.items → entries.new.items ≡ without_key K.cmp key.now entries.old.items }
    ensures len { length entries.new.items ≤ length entries.old.items }
{
    match place(entries, key) {
        Ok(i) => {
            let (_, value) = entries.remove(i);
            Some(value)
        }
        Err(_) => None,
    }
}
