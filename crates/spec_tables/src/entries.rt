//! The entries of a table one by one, from either end.
ghost use Rattle.std.specs.Prelude.{◌≡◌, ◌<◌, ◌^◌, length};
ghost use Rattle.std.specs.Iterator.{at_most};
ghost use Rattle.std.specs.Map.Iter.{TakesFirst, TakesLast, deref_pair};
ghost use Rattle.spec_tables.specs.Forms.{form_entries, IsFew};
ghost use Rattle.spec_tables.specs.Rest.{rest_entries};
ghost use Rattle.spec_tables.specs.Tables.{IsTable, entries_from};

use crate::form::Form;
use crate::{few, one};
use std::collections::btree_map::{Iter, Range};
use std::marker::Model;

/// What is left of a table, by how its entries are kept.
#[derive(Drop)]
pub(crate) enum Rest<'a, K, V> {
    Done,
    One(&'a (K, V)),
    Few(&'a [(K, V)]),
    Many(Iter<'a, K, V>),
    Part(Range<'a, K, V>),
}

/// All entries.
pub(crate) fn all<K: Ord, V>(form: &Form<K, V>) -> Rest<'_, K, V>
    ensures rest { rest_entries result ≡ form_entries form.now }
    ensures bound { IsFew form.now → length (form_entries form.now) < 2 ^ 63 }
{
    match form {
        Form::Empty => Rest::Done,
        Form::One(entry) => Rest::One(entry),
        Form::Few(entries) => Rest::Few(entries),
        Form::Many(entries) => Rest::Many(entries.iter()),
    }
}

/// The entries from a key on.
pub(crate) fn all_from<'a, K: Ord, V>(form: &'a Form<K, V>, key: &K) -> Rest<'a, K, V>
    ensures rest { IsTable K.cmp (form_entries form.now) → rest_entries result ≡ entries_from K.cmp key.now (form_entries form.now) }
    ensures bound { IsFew form.now → length (rest_entries result) < 2 ^ 63 }
{
    match form {
        Form::Empty => Rest::Done,
        Form::One(entry) => one::from(entry, key),
        Form::Few(entries) => Rest::Few(few::from(entries, key)),
        Form::Many(entries) => Rest::Part(entries.range(key..)),
    }
}

/// The entries of a table in the order of keys, from either end.
///
/// Contracts see the list of keys and values that are left.
#[derive(Drop)]
pub struct Entries<'a, K, V> {
    pub(crate) rest: Rest<'a, K, V>,
}

impl<'a, K, V> Model for Entries<'a, K, V> {
    ghost use Rattle.std.specs.Prelude.{List};
    ghost use Rattle.spec_tables.specs.Rest.{rest_entries};

    ghost Value = { List (K × V) };

    ghost view = { λ s. rest_entries s.rest };
}

impl<'a, K, V> Iterator for Entries<'a, K, V> {
    type Item = (&'a K, &'a V);

    ghost next_gives = { TakesFirst deref_pair };

    ghost remaining = { λ s. at_most (length s) };

    fn next(&mut self) -> Option<(&'a K, &'a V)> {
        match &mut self.rest {
            Rest::Done => None,
            Rest::One(entry) => {
                let entry: &'a (K, V) = entry;
                self.rest = Rest::Done;
                Some((&entry.0, &entry.1))
            }
            Rest::Few(entries) => {
                let (entry, rest) = entries.split_first()?;
                *entries = rest;
                Some((&entry.0, &entry.1))
            }
            Rest::Many(entries) => entries.next(),
            Rest::Part(entries) => entries.next(),
        }
    }
}

impl<'a, K, V> DoubleEndedIterator for Entries<'a, K, V> {
    ghost next_back_gives = { TakesLast deref_pair };

    fn next_back(&mut self) -> Option<(&'a K, &'a V)> {
        match &mut self.rest {
            Rest::Done => None,
            Rest::One(entry) => {
                let entry: &'a (K, V) = entry;
                self.rest = Rest::Done;
                Some((&entry.0, &entry.1))
            }
            Rest::Few(entries) => {
                let (entry, rest) = entries.split_last()?;
                *entries = rest;
                Some((&entry.0, &entry.1))
            }
            Rest::Many(entries) => entries.next_back(),
            Rest::Part(entries) => entries.next_back(),
        }
    }
}
