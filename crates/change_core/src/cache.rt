//! What is kept between two publishes.

ghost use Rattle.std.specs.Prelude.{◌≡◌, ◌<◌, ◌≤◌, length, Ok, Err, IfOk, IfErr};
ghost use Rattle.compose_api.specs.Agreement.{IsChanged};
ghost use Rattle.compose_api.specs.Refusals.{IfOp};
ghost use Rattle.compose_api.specs.Stage.{stage_of};

use crate::differences::add_keys;
use crate::kept::KeptStage;
use crate::walk::kept_stage;
use compose_api::{Applied, ApplyRefused, Composer, StageRefused};
use plain_data::Items;
use std::alloc::Global;
use std::collections::BTreeSet;
use std::marker::Model;
use std::mem::replace;
use std::snapshot::Snapshot;

/// What was composed for a stage, and the keys that were changed since. Contracts see it as the world for which it is meant.
#[derive(Drop)]
pub struct Cache<C: Composer> {
    stage: KeptStage<C>,
    changed: BTreeSet<C::Key>,
    world: Snapshot<C::World>,
}

impl<C: Composer> Model for Cache<C> {
    ghost use Rattle.change_core.specs.Kept.{Covers};

    ghost Value = { C.World };

    ghost view = { λ c. c.world.value };

    ghost invariant = { λ c. Covers C.Key.cmp (C.value_of c.stage.world) (C.value_of c.world.value) c.changed };
}

impl<C: Composer> Cache<C> {
    /// Nothing is kept. It takes no memory.
    pub fn new(alloc: Global, world: &C::World) -> Cache<C>
        ensures { result ≡ world.now }
    {
        Cache {
            stage: KeptStage::new(alloc, world),
            changed: BTreeSet::new(alloc),
            world: Snapshot::of(world),
        }
    }

    /// Notes the keys that a batch changed, after which the world is this one. Where memory runs out for them, nothing is kept any more.
    fn note(&mut self, alloc: Global, after: &C::World, changed: &[C::Key])
        requires { IsChanged (C.value_of self.old) (C.value_of after.now) changed.now }
        ensures { self.new ≡ after.now }
    {
        if self.stage.len() == 0 || add_keys(&mut self.changed, changed).is_err() {
            self.stage = KeptStage::new(alloc, after);
            self.changed = BTreeSet::new(alloc);
        }
        self.world = Snapshot::of(after);
    }

    /// The world after a batch on this one, or the first operation that is refused. What is kept is then meant for the world after.
    pub fn apply(
        &mut self,
        alloc: Global,
        composer: &C,
        world: &C::World,
        batch: &C::Batch,
    ) -> Result<C::World, ApplyRefused<C::Fault>>
        requires { world.now ≡ self.old }
        ensures ok { IfOk result (λ after. C.applied world.now batch.now ≡ Ok after) }
        ensures after { IfOk result (λ after. self.new ≡ after) }
        ensures refused { IfErr result (λ e. IfOp e (λ op fault. C.applied world.now batch.now ≡ Err (op, fault))) }
        ensures same { IfErr result (λ _. self.new ≡ self.old) }
    {
        match composer.apply(world, batch) {
            Ok(
                Applied {
                    world: after,
                    changed,
                },
            ) => {
                self.note(alloc, &after, changed.as_slice());
                Ok(after)
            }
            Err(refused) => Err(refused),
        }
    }

    /// The stage of the world, of so many places at most, which is kept in place of the one before. After a refusal nothing is kept.
    ///
    /// # Errors
    ///
    /// `Full` exactly where the stage has more places. `NoMemory` where memory ran out.
    pub fn stage_within(
        &mut self,
        alloc: Global,
        composer: &C,
        world: &C::World,
        most: usize,
    ) -> Result<Items<(C::Place, C::Entry)>, StageRefused>
        requires { world.now ≡ self.old }
        ensures same { self.new ≡ self.old }
        ensures stage { IfOk result (λ items. items ≡ stage_of C.entry_of C.listed world.now C.root_place) }
        ensures few { IfOk result (λ items. length items ≤ most) }
        ensures full { result ≡ Err StageRefused.Full → most < length (stage_of C.entry_of C.listed world.now C.root_place) }
    {
        let stage = replace(&mut self.stage, KeptStage::new(alloc, world));
        let changed = replace(&mut self.changed, BTreeSet::new(alloc));
        let made = kept_stage(alloc, composer, world, &changed, stage, most)?;
        let items = made.published(alloc)?;
        self.stage = made;
        Ok(items)
    }
}
