//! Those of some keys at which two worlds differ.
ghost use Rattle.std.specs.Prelude.{◌≡◌, ◌++◌, ◌∷◌, [], if◌then◌else◌, IfOk, OnOk};
ghost use Rattle.layer_changes.specs.Changed.{IsChangedKey};
ghost use Rattle.layer_changes.specs.Covering.{Keeps};

use layer_set::{Key, World};
use plain_data::{Items, copy};
use std::alloc::{AllocError, Global};

/// Keeps a key, unless its value is the same.
fn keep_unless(kept: &mut Items<Key>, key: &Key, same: bool) -> Result<(), AllocError>
    ensures { OnOk result (kept.new ≡ (if same then kept.old else kept.old ++ key.now ∷ [])) }
{
    if same {
        return Ok(());
    }
    kept.push(copy(key)?)?;
    Ok(())
}

/// Those of the keys whose values differ, in their order.
pub fn differing_keys(
    alloc: Global,
    old: &World,
    new: &World,
    keys: &[Key],
) -> Result<Items<Key>, AllocError>
    ensures { IfOk result (λ changed. Keeps (IsChangedKey old.now new.now) keys.now changed) }
{
    let mut changed = Items::new(alloc);
    for key in keys {
        let same = old.same_key(new, key);
        keep_unless(&mut changed, key, same)?;
    }
    Ok(changed)
}
