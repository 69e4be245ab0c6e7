ghost use Rattle.std.specs.Prelude.{◌≡◌, Ok, Err, IfOk, IfErr};
ghost use Rattle.layer_apply.specs.Edits.{edit};
ghost use Rattle.layer_apply.specs.Answers.{IfOp};
ghost use Rattle.layer_changes.specs.Changed.{AreChanged};

use crate::differing::differing_keys;
use crate::named::named_keys;
use edit_batches::{Batch, EditRefused};
use layer_apply::edited_world;
use layer_set::{Key, World};
use plain_data::Items;
use std::alloc::{AllocError, Global};

/// A world after a batch, and the keys that the batch changed.
#[derive(Drop)]
pub struct Applied {
    /// The world after the batch.
    pub world: World,
    /// Exactly the keys whose values differ between the two worlds, each once, in the order of keys.
    pub changed: Items<Key>,
}

/// The keys that a batch changed, of the worlds before and after it.
fn changed_keys(
    alloc: Global,
    before: &World,
    after: &World,
    batch: &Batch,
) -> Result<Items<Key>, AllocError>
    requires { edit before.now batch.now ≡ Ok after.now }
    ensures { IfOk result (λ keys. AreChanged before.now after.now keys) }
{
    let named = named_keys(alloc, before, after, batch)?;
    let keys = differing_keys(alloc, before, after, named.as_slice())?;
    Ok(keys)
}

/// The world after a batch, with the keys that it changed. The world before is left as it was.
///
/// # Errors
///
/// `Op` with the first operation that is refused, counted from 1, and why. `NoMemory` where memory ran out.
pub fn apply(alloc: Global, world: &World, batch: &Batch) -> Result<Applied, EditRefused>
    ensures world { IfOk result (λ applied. edit world.now batch.now ≡ Ok applied.world) }
    ensures changed { IfOk result (λ applied. AreChanged world.now applied.world applied.changed) }
    ensures refused { IfErr result (λ e. IfOp e (λ op fault. edit world.now batch.now ≡ Err (op, fault))) }
{
    let after = edited_world(alloc, world, batch)?;
    match changed_keys(alloc, world, &after, batch) {
        Ok(changed) => Ok(Applied {
            world: after,
            changed,
        }),
        Err(_) => {
            drop(after);
            Err(EditRefused::NoMemory)
        }
    }
}
