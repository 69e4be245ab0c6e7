//! How an entry is put into a table, and how a list of entries becomes a tree.
ghost use Rattle.std.specs.Prelude.{◌≡◌, ◌≤◌, ◌<◌, ◌+◌, [], ◌∷◌, ◌++◌, length, vec_len, vec_capacity, Some, None, IfOk, IfErr, OnOk, OnErr, IsTrue, IsFalse};
ghost use Rattle.spec_tables.specs.Tables.{IsTable, at_key, with_key};
ghost use Rattle.spec_tables.specs.Forms.{form_entries, IsFew, HasRoom, most_listed};

use crate::form::Form;
use crate::{few, one};
use std::alloc::{AllocError, Global};
use std::collections::BTreeMap;
use std::mem;

/// How many entries stand in a list at most.
const MOST_LISTED: usize = 32;

/// Puts an entry back at the end, from where it was taken.
fn put_back<T>(entries: &mut Vec<T>, entry: T)
where
    T: Drop,
    requires { vec_len entries.old < vec_capacity entries.old }
    ensures items { entries.new.items ≡ entries.old.items ++ entry ∷ [] }
    ensures capacity { vec_capacity entries.old ≤ vec_capacity entries.new }
{
    if let Err(refused) = entries.push(entry) {
        drop(refused);
    }
}

/// Moves the entries of a list, from the last on, to the front of a tree. After want of memory all stand where they stood.
fn move_to_tree<K: Ord + Drop, V: Drop>(
    entries: &mut Vec<(K, V)>,
    tree: &mut BTreeMap<K, V>,
) -> Result<(), AllocError>
    ensures ok { IsTable K.cmp (entries.old.items ++ tree.old.entries) → OnOk result (tree.new.entries ≡ entries.old.items ++ tree.old.entries) }
    ensures err { IsTable K.cmp (entries.old.items ++ tree.old.entries) → OnErr result ((entries.new.items ≡ entries.old.items) × (tree.new.entries ≡ tree.old.entries)) }
    ensures len { length entries.new.items ≤ length entries.old.items }
    ensures capacity { vec_capacity entries.old ≤ vec_capacity entries.new }
{
    match entries.pop() {
        None => Ok(()),
        Some((key, value)) => match tree.insert(key, value) {
            Ok(before) => {
                drop(before);
                let moved = move_to_tree(entries, tree);
                if moved.is_err() {
                    if let Some(entry) = tree.pop_first() {
                        put_back(entries, entry);
                    }
                }
                moved
            }
            Err(refused) => {
                put_back(entries, refused.value);
                Err(AllocError)
            }
        },
    }
}

/// Makes a single entry a list with room for another. After want of memory it is as before.
fn make_list<K: Ord + Drop, V: Drop>(alloc: Global, form: &mut Form<K, V>) -> Result<(), AllocError>
    ensures same { form_entries form.new ≡ form_entries form.old }
    ensures few { IsFew form.old → IsFew form.new }
    ensures room { length (form_entries form.old) < most_listed → OnOk result (HasRoom form.new) }
{
    let mut entries = Box::new(alloc, Vec::with_capacity(alloc, 2)?)?;
    match mem::replace(form, Form::Empty) {
        Form::One(entry) => {
            put_back(&mut entries, Box::into_inner(entry));
            *form = Form::Few(entries);
        }
        other => *form = other,
    }
    Ok(())
}

/// The entries of a list as a tree. After want of memory the list is as before.
fn as_tree<K: Ord + Drop, V: Drop>(
    alloc: Global,
    entries: &mut Vec<(K, V)>,
) -> Result<Form<K, V>, AllocError>
    requires { IsTable K.cmp entries.old.items }
    ensures ok { IfOk result (λ form. (form_entries form ≡ entries.old.items) × IsFew form × HasRoom form) }
    ensures err { OnErr result (entries.new.items ≡ entries.old.items) }
{
    let mut tree = Box::new(alloc, BTreeMap::new(alloc))?;
    move_to_tree(entries, &mut tree)?;
    Ok(Form::Many(tree))
}

/// Whether a value can be put at a key as the entries are kept: the key is there, or another entry finds its place.
fn has_room<K: Ord, V>(form: &Form<K, V>, key: &K) -> bool
    requires { IsTable K.cmp (form_entries form.now) }
    ensures room { IsTrue result → at_key K.cmp key.now (form_entries form.now) ≡ None → HasRoom form.now }
    ensures absent { IsFalse result → at_key K.cmp key.now (form_entries form.now) ≡ None }
{
    match form {
        Form::Empty => true,
        Form::One(entry) => one::get(entry, key).is_some(),
        Form::Few(entries) => entries.len() < MOST_LISTED || few::get(entries, key).is_some(),
        Form::Many(_) => true,
    }
}

/// Makes room for a key, unless it is there: a single entry becomes a list, and a full list a tree. After want of memory the entries
/// are as before.
pub(crate) fn make_room<K: Ord + Drop, V: Drop>(
    alloc: Global,
    form: &mut Form<K, V>,
    key: &K,
) -> Result<(), AllocError>
    requires { IsTable K.cmp (form_entries form.old) × IsFew form.old }
    ensures same { form_entries form.new ≡ form_entries form.old }
    ensures few { IsFew form.new }
    ensures room { OnOk result (at_key K.cmp key.now (form_entries form.old) ≡ None → HasRoom form.new) }
    ensures absent { OnErr result (at_key K.cmp key.now (form_entries form.old) ≡ None) }
{
    if has_room(form, key) {
        return Ok(());
    }
    match form {
        Form::Empty => Ok(()),
        Form::One(_) => make_list(alloc, form),
        Form::Few(entries) => {
            *form = as_tree(alloc, entries)?;
            Ok(())
        }
        Form::Many(_) => Ok(()),
    }
}

/// Puts a value at a key, and answers the one before. After want of memory, which comes only where the key is not there, the entries are
/// as before.
pub(crate) fn put<K: Ord + Drop, V: Drop>(
    alloc: Global,
    form: &mut Form<K, V>,
    key: K,
    value: V,
) -> Result<Option<V>, AllocError>
    requires order { IsTable K.cmp (form_entries form.old) }
    requires few { IsFew form.old }
    requires room { at_key K.cmp key (form_entries form.old) ≡ None → HasRoom form.old }
    ensures before { IfOk result (λ before. before ≡ at_key K.cmp key (form_entries form.old)) }
    ensures ok { OnOk result (form_entries form.new ≡ with_key K.cmp key value (form_entries form.old)) }
    ensures absent { OnErr result (at_key K.cmp key (form_entries form.old) ≡ None) }
    ensures err { OnErr result (form_entries form.new ≡ form_entries form.old) }
    ensures few { IsFew form.new }
{
    match form {
        Form::Empty => {
            *form = Form::One(Box::new(alloc, (key, value))?);
            Ok(None)
        }
        Form::One(entry) => {
            drop(key);
            Ok(Some(mem::replace(&mut entry.1, value)))
        }
        Form::Few(entries) => few::put(entries, key, value),
        Form::Many(entries) => Ok(entries.insert(key, value)?),
    }
}
