//! How the value of a key is exchanged, and how its entry is taken out.
ghost use Rattle.std.specs.Prelude.{◌≡◌, Some, None, IfOk, IfErr, OnOk, OnErr};
ghost use Rattle.spec_tables.specs.Forms.{form_entries, IsFew};
ghost use Rattle.spec_tables.specs.Tables.{IsTable, at_key, with_value, without_key};

use crate::few;
use crate::form::Form;
use std::cmp::Ordering;
use std::mem;

/// Exchanges the value at a key that is there, and answers the one before; else hands the value back.
pub(crate) fn exchange<K: Ord, V>(form: &mut Form<K, V>, key: &K, value: V) -> Result<V, V>
    requires { IsTable K.cmp (form_entries form.old) × IsFew form.old }
    ensures before { IfOk result (λ before. at_key K.cmp key.now (form_entries form.old) ≡ Some before) }
    ensures ok { OnOk result (form_entries form.new ≡ with_value K.cmp key.now value (form_entries form.old)) }
    ensures absent { IfErr result (λ back. (back ≡ value) × (at_key K.cmp key.now (form_entries form.old) ≡ None)) }
    ensures err { OnErr result (form_entries form.new ≡ form_entries form.old) }
    ensures few { IsFew form.new }
{
    match form {
        Form::Empty => Err(value),
        Form::One(entry) => match key.cmp(&entry.0) {
            Ordering::Less => Err(value),
            Ordering::Equal => Ok(mem::replace(&mut entry.1, value)),
            Ordering::Greater => Err(value),
        },
        Form::Few(entries) => few::replace(entries, key, value),
        Form::Many(entries) => match entries.get_mut(key) {
            Some(slot) => Ok(mem::replace(slot, value)),
            None => Err(value),
        },
    }
}

/// Takes the entry of a key out, and answers its value. A list without entries is given up.
pub(crate) fn take<K: Ord + Drop, V: Drop>(form: &mut Form<K, V>, key: &K) -> Option<V>
    requires { IsTable K.cmp (form_entries form.old) × IsFew form.old }
    ensures before { result ≡ at_key K.cmp key.now (form_entries form.old) }
    ensures removed { form_entries form.new ≡ without_key K.cmp key.now (form_entries form.old) }
    ensures few { IsFew form.new }
{
    match mem::replace(form, Form::Empty) {
        Form::Empty => None,
        Form::One(entry) => match key.cmp(&entry.0) {
            Ordering::Equal => {
                let (_, value) = Box::into_inner(entry);
                Some(value)
            }
            _ => {
                *form = Form::One(entry);
                None
            }
        },
        Form::Few(mut entries) => {
            let value = few::take(&mut entries, key);
            if !entries.is_empty() {
                *form = Form::Few(entries);
            }
            value
        }
        Form::Many(mut entries) => {
            let value = entries.remove(key);
            *form = Form::Many(entries);
            value
        }
    }
}
