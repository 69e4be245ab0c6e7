ghost use Rattle.std.specs.Prelude.{◌≡◌, ◌↔◌, ◌<◌, ◌^◌, [], length, slice_get, is_some, Some, None, IfOk, IfErr, OnOk, OnErr, IsTrue};
ghost use Rattle.std.specs.Map.Iter.{ShowsInOrder, deref_pair};
ghost use Rattle.std.specs.Option.{option_copied, option_map};
ghost use Rattle.spec_tables.specs.Tables.{IsTable, at_key, with_key, without_key, with_value, entries_from, entries_until};
ghost use Rattle.plain_data.specs.Ends.{last};

use crate::copied::copied;
use crate::edits::{exchange, take};
use crate::entries::{Entries, all, all_from};
use crate::form::Form;
use crate::insert::{make_room, put};
use crate::{few, one};
use plain_data::{ExactClone, ExactOrd};
use std::alloc::{AllocError, Global};
use std::marker::Model;

/// Values by key, in the order of keys.
///
/// Contracts see the list of keys and values in the order of keys, each key once.
#[derive(Debug, Drop)]
pub struct OrderedTable<K: Ord, V> {
    alloc: Global,
    form: Form<K, V>,
}

impl<K: Ord, V> Model for OrderedTable<K, V> {
    ghost use Rattle.std.specs.Prelude.{List};
    ghost use Rattle.spec_tables.specs.Tables.{IsTable};
    ghost use Rattle.spec_tables.specs.Forms.{form_entries, IsFew};

    ghost Value = { List (K × V) };

    ghost view = { λ t. form_entries t.form };

    ghost invariant = { λ t. IsTable K.cmp (form_entries t.form) × IsFew t.form };
}

impl<K: Ord, V> OrderedTable<K, V> {
    /// The table without entries, which takes no memory.
    pub fn new(alloc: Global) -> OrderedTable<K, V>
        ensures { result ≡ [] }
    {
        OrderedTable {
            alloc,
            form: Form::Empty,
        }
    }

    /// How many entries there are.
    pub fn len(&self) -> usize
        ensures len { result ≡ length self.now }
        ensures order { IsTable K.cmp self.now }
    {
        match &self.form {
            Form::Empty => 0,
            Form::One(_) => 1,
            Form::Few(entries) => entries.len(),
            Form::Many(entries) => entries.len(),
        }
    }

    /// Whether there is no entry.
    pub fn is_empty(&self) -> bool
        ensures { IsTrue result ↔ (self.now ≡ []) }
    {
        match &self.form {
            Form::Empty => true,
            Form::One(_) => false,
            Form::Few(entries) => entries.is_empty(),
            Form::Many(entries) => entries.is_empty(),
        }
    }

    /// The value at a key.
    pub fn get(&self, key: &K) -> Option<&V>
        ensures { option_copied result ≡ at_key K.cmp key.now self.now }
    {
        match &self.form {
            Form::Empty => None,
            Form::One(entry) => one::get(entry, key),
            Form::Few(entries) => few::get(entries, key),
            Form::Many(entries) => entries.get(key),
        }
    }

    /// Whether a value stands at a key.
    pub fn has(&self, key: &K) -> bool
        ensures { result ≡ is_some (at_key K.cmp key.now self.now) }
    {
        self.get(key).is_some()
    }

    /// The entry at this place, counted from 0; nothing past the end. Among many entries it walks to the place: `iter` goes over all
    /// entries.
    pub fn at(&self, i: usize) -> Option<(&K, &V)>
        ensures entry { option_map (λ e. (e.0.now, e.1.now)) result ≡ slice_get self.now i }
        ensures order { IsTable K.cmp self.now }
    {
        match &self.form {
            Form::Empty => None,
            Form::One(entry) => match i {
                0 => Some((&entry.0, &entry.1)),
                _ => None,
            },
            Form::Few(entries) => match entries.get(i) {
                None => None,
                Some(entry) => Some((&entry.0, &entry.1)),
            },
            Form::Many(entries) => entries.iter().nth(i),
        }
    }

    /// The entries in the order of keys, from either end.
    pub fn iter(&self) -> Entries<'_, K, V>
        ensures rest { result ≡ self.now }
        ensures runs { ShowsInOrder (deref_pair {K = K} {X = V}) }
        ensures order { IsTable K.cmp self.now }
        ensures bound { length self.now < 2 ^ 63 }
    {
        Entries {
            rest: all(&self.form),
        }
    }

    /// The entries from a key on, in the order of keys, found by a search.
    pub fn iter_from(&self, key: &K) -> Entries<'_, K, V>
        ensures rest { result ≡ entries_from K.cmp key.now self.now }
        ensures runs { ShowsInOrder (deref_pair {K = K} {X = V}) }
        ensures order { IsTable K.cmp self.now }
        ensures bound { length result < 2 ^ 63 }
    {
        Entries {
            rest: all_from(&self.form, key),
        }
    }

    /// The last entry whose key is not above this one, found by a search; none where each is above it.
    pub fn last_until(&self, key: &K) -> Option<(&K, &V)>
        ensures { option_map (λ e. (e.0.now, e.1.now)) result ≡ last (entries_until K.cmp key.now self.now) }
    {
        match &self.form {
            Form::Empty => None,
            Form::One(entry) => one::last_until(entry, key),
            Form::Few(entries) => few::last_until(entries, key),
            Form::Many(entries) => entries.range(..=key).next_back(),
        }
    }

    /// Exchanges the value at a key that is there, and answers the one before; else hands the value back. Takes no memory.
    pub fn replace(&mut self, key: &K, value: V) -> Result<V, V>
        ensures before { IfOk result (λ before. at_key K.cmp key.now self.old ≡ Some before) }
        ensures ok { OnOk result (self.new ≡ with_value K.cmp key.now value self.old) }
        ensures absent { IfErr result (λ back. (back ≡ value) × (at_key K.cmp key.now self.old ≡ None)) }
        ensures err { OnErr result (self.new ≡ self.old) }
    {
        exchange(&mut self.form, key, value)
    }
}

impl<K: Ord + Drop, V: Drop> OrderedTable<K, V> {
    /// Puts a value at a key, and answers the one before. After want of memory, which comes only where the key is not there, the
    /// table is as before.
    pub fn insert(&mut self, key: K, value: V) -> Result<Option<V>, AllocError>
        ensures before { IfOk result (λ before. before ≡ at_key K.cmp key self.old) }
        ensures ok { OnOk result (self.new ≡ with_key K.cmp key value self.old) }
        ensures absent { OnErr result (at_key K.cmp key self.old ≡ None) }
        ensures err { OnErr result (self.new ≡ self.old) }
    {
        make_room(self.alloc, &mut self.form, &key)?;
        put(self.alloc, &mut self.form, key, value)
    }

    /// Takes the entry of a key out, and answers its value. Takes no memory.
    pub fn remove(&mut self, key: &K) -> Option<V>
        ensures before { result ≡ at_key K.cmp key.now self.old }
        ensures removed { self.new ≡ without_key K.cmp key.now self.old }
    {
        take(&mut self.form, key)
    }
}

impl<K: ExactOrd + ExactClone, V: ExactClone> Clone for OrderedTable<K, V> {
    ghost use Rattle.std.specs.Prelude.{◌≡◌};

    ghost is_clone = { λ s t. t ≡ s };

    fn clone(&self) -> Result<OrderedTable<K, V>, AllocError> {
        Ok(OrderedTable {
            alloc: self.alloc,
            form: copied(self.alloc, &self.form)?,
        })
    }
}

impl<K: ExactOrd + ExactClone, V: ExactClone> ExactClone for OrderedTable<K, V> {
    ghost copy_is_same = { λ x y h. h };
}
