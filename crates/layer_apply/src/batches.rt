//! Operations one after the other.
ghost use Rattle.std.specs.Prelude.{◌≡◌, Ok, Err, IfOk, IfErr};
ghost use Rattle.layer_apply.specs.Edits.{edited, edit};
ghost use Rattle.layer_apply.specs.Answers.{DoesOne, DoesAll, IfOp};

use crate::layers::{edit_in_layer, layer_of};
use crate::worlds::edit_world;
use edit_batches::{Batch, EditRefused, Op, OpRefused};
use layer_set::World;
use std::alloc::Global;

/// Carries out one operation.
fn edit_by(alloc: Global, world: &mut World, op: &Op) -> Result<(), OpRefused>
    ensures { DoesOne result world.new (edited op.now world.old) }
{
    match layer_of(op) {
        Some(name) => edit_in_layer(alloc, world, name, op),
        None => edit_world(alloc, world, op),
    }
}

/// Carries out all operations on a world, up to the first that is refused.
fn edit_all(alloc: Global, world: &mut World, batch: &Batch) -> Result<(), EditRefused>
    ensures { DoesAll result world.new (edit world.old batch.now) }
{
    let ops = batch.ops();
    for i in 0..ops.len() {
        match edit_by(alloc, world, &ops[i]) {
            Ok(()) => (),
            Err(OpRefused::Fault(fault)) => {
                return Err(EditRefused::Op {
                    op: i as u32 + 1,
                    fault,
                });
            }
            Err(OpRefused::NoMemory) => return Err(EditRefused::NoMemory),
        }
    }
    Ok(())
}

/// The world after a batch. The world before is left as it was.
///
/// # Errors
///
/// `Op` with the first operation that is refused, counted from 1, and why. `NoMemory` where memory ran out.
pub fn edited_world(alloc: Global, world: &World, batch: &Batch) -> Result<World, EditRefused>
    ensures world { IfOk result (λ after. edit world.now batch.now ≡ Ok after) }
    ensures refused { IfErr result (λ e. IfOp e (λ op fault. edit world.now batch.now ≡ Err (op, fault))) }
{
    let mut after = world.copy()?;
    match edit_all(alloc, &mut after, batch) {
        Ok(()) => Ok(after),
        Err(refused) => {
            drop(after);
            Err(refused)
        }
    }
}
