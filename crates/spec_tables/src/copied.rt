//! Copies of the entries of a table.
ghost use Rattle.std.specs.Prelude.{◌≡◌, IfOk};
ghost use Rattle.spec_tables.specs.Forms.{form_entries, IsFew};

use crate::form::Form;
use plain_data::{ExactClone, ExactOrd, copy};
use std::alloc::{AllocError, Global};
use std::collections::BTreeMap;

/// A copy of an entry.
fn entry_copied<K: ExactClone, V: ExactClone>(entry: &(K, V)) -> Result<(K, V), AllocError>
    ensures { IfOk result (λ copy. copy ≡ entry.now) }
{
    Ok((copy(&entry.0)?, copy(&entry.1)?))
}

/// A copy of a list.
fn list_copied<K: ExactClone, V: ExactClone>(
    entries: &Vec<(K, V)>,
) -> Result<Vec<(K, V)>, AllocError>
    ensures { IfOk result (λ copy. copy.items ≡ entries.now.items) }
{
    entries.clone()
}

/// A copy of a tree.
fn tree_copied<K: ExactOrd + ExactClone, V: ExactClone>(
    entries: &BTreeMap<K, V>,
) -> Result<BTreeMap<K, V>, AllocError>
    ensures { IfOk result (λ copy. copy.entries ≡ entries.now.entries) }
{
    entries.clone()
}

/// A copy of the entries, kept in the same way.
pub(crate) fn copied<K: ExactOrd + ExactClone, V: ExactClone>(
    alloc: Global,
    form: &Form<K, V>,
) -> Result<Form<K, V>, AllocError>
    ensures same { IfOk result (λ copy. form_entries copy ≡ form_entries form.now) }
    ensures few { IsFew form.now → IfOk result (λ copy. IsFew copy) }
{
    match form {
        Form::Empty => Ok(Form::Empty),
        Form::One(entry) => Ok(Form::One(Box::new(alloc, entry_copied(entry)?)?)),
        Form::Few(entries) => Ok(Form::Few(Box::new(alloc, list_copied(entries)?)?)),
        Form::Many(entries) => Ok(Form::Many(Box::new(alloc, tree_copied(entries)?)?)),
    }
}
