//! What stands at names of layers, shared with copies.
ghost use Rattle.std.specs.Prelude.{◌≡◌, length, slice_get, is_some, IfOk, OnOk, OnErr};
ghost use Rattle.std.specs.Map.{keys_of};
ghost use Rattle.std.specs.Option.{option_copied};
ghost use Rattle.layer_set.specs.Named.{AreNamed, at_name, with_name};

use crate::shared::Shared;
use asset_names::AssetId;
use plain_data::ExactClone;
use spec_tables::OrderedTable;
use std::alloc::{AllocError, Global};

/// What stands at a name.
pub fn at_name<'t, V>(
    entries: &'t OrderedTable<AssetId, Shared<V>>,
    name: &AssetId,
) -> Option<&'t V>
    ensures { option_copied result ≡ at_name name.now entries.now }
{
    match entries.get(name) {
        Some(shared) => Some(shared.get()),
        None => None,
    }
}

/// The name at this place, counted from 0.
pub fn name_at<V>(entries: &OrderedTable<AssetId, Shared<V>>, i: usize) -> Option<&AssetId>
    ensures name { option_copied result ≡ slice_get (keys_of entries.now) i }
    ensures order { AreNamed entries.now }
{
    match entries.at(i) {
        Some((name, _)) => Some(name),
        None => None,
    }
}

/// How many names there are.
pub fn count<V>(entries: &OrderedTable<AssetId, Shared<V>>) -> usize
    ensures count { result ≡ length entries.now }
    ensures order { AreNamed entries.now }
{
    entries.len()
}

/// Whether something stands at a name.
pub fn has<V>(entries: &OrderedTable<AssetId, Shared<V>>, name: &AssetId) -> bool
    ensures { result ≡ is_some (at_name name.now entries.now) }
{
    entries.has(name)
}

/// Takes what stands at a name out, as one's own: it is copied only where something else shares it.
pub fn take<V: ExactClone + Drop>(
    entries: &mut OrderedTable<AssetId, Shared<V>>,
    name: &AssetId,
) -> Result<Option<V>, AllocError>
    ensures taken { IfOk result (λ taken. taken ≡ at_name name.now entries.old) }
    ensures left { (value : V) → with_name name.now value entries.new ≡ with_name name.now value entries.old }
{
    let _names = count(entries);
    match entries.remove(name) {
        Some(shared) => Ok(Some(shared.into_own()?)),
        None => Ok(None),
    }
}

/// Puts a value at a name. After want of memory the entries are as before.
pub fn put<V: Drop>(
    alloc: Global,
    entries: &mut OrderedTable<AssetId, Shared<V>>,
    name: AssetId,
    value: V,
) -> Result<(), AllocError>
    ensures ok { OnOk result (entries.new ≡ with_name name value entries.old) }
    ensures err { OnErr result (entries.new ≡ entries.old) }
{
    let shared = Shared::new(alloc, value)?;
    entries.insert(name, shared)?;
    Ok(())
}
