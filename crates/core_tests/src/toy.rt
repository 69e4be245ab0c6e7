//! A world is a number: the root's entry is that number, and where it is not 0 the root has one child, whose entry is 0.

ghost use Rattle.core_tests.specs.Toys.{held, entry, reads, children, after, parent, depth};

use compose_api::{Applied, ApplyRefused, Composed, Composer};
use plain_data::Items;
use std::alloc::{AllocError, Global};

/// The composer of numbers. A batch with a number makes it the world; a batch with none is refused at its first operation, with the fault 7.
#[derive(Debug, Drop)]
pub struct Toy {
    /// Where its lists grow.
    pub alloc: Global,
}

impl Composer for Toy {
    ghost use Rattle.core_tests.specs.Toys.{covers, are_in_order, are_different, are_below};
    ghost use Rattle.std.specs.Prelude.{refl, ℕ};

    type World = u64;

    type Place = u64;

    type Entry = u64;

    type Key = u64;

    type Index = ();

    type Batch = Option<u64>;

    type Fault = u64;

    ghost Held = { ℕ };

    ghost value_of = { held };

    ghost entry_of = { entry };

    ghost index_of = { λ _ _. tt };

    ghost reads_of = { λ _ p. reads p };

    ghost applied = { after };

    ghost parent_of = { parent };

    ghost depth_of = { depth };

    ghost root_place = { 0 };

    ghost listed = { λ _ e. children e };

    fn top(&self) -> Result<u64, AllocError> {
        Ok(0)
    }

    fn child_count(&self, entry: &u64) -> usize {
        if *entry == 0 { 0 } else { 1 }
    }

    fn child_at(&self, _place: &u64, _entry: &u64, _i: usize) -> Result<u64, AllocError> {
        Ok(1)
    }

    fn is_child(&self, _place: &u64, entry: &u64, i: usize, child: &u64) -> bool {
        *entry != 0 && i == 0 && *child == 1
    }

    fn index(&self, _world: &u64, _parent: Option<&()>, _place: &u64) -> Result<(), AllocError> {
        Ok(())
    }

    fn compose(
        &self,
        world: &u64,
        _parent: Option<&()>,
        place: &u64,
    ) -> Result<Composed<u64, ()>, AllocError> {
        let entry = if *place == 0 { *world } else { 0 };
        Ok(Composed { entry, index: () })
    }

    fn reads(
        &self,
        _world: &u64,
        _above: Option<&Items<u64>>,
        place: &u64,
        _index: &(),
    ) -> Result<Items<u64>, AllocError> {
        let mut reads = Items::new(self.alloc);
        if *place == 0 {
            reads.push(0)?;
        }
        Ok(reads)
    }

    fn apply(
        &self,
        world: &u64,
        batch: &Option<u64>,
    ) -> Result<Applied<u64, u64>, ApplyRefused<u64>> {
        let Some(after) = *batch else {
            return Err(ApplyRefused::Op { op: 1, fault: 7 });
        };
        let mut changed = Items::new(self.alloc);
        if after != *world && changed.push(0).is_err() {
            return Err(ApplyRefused::NoMemory);
        }
        Ok(Applied {
            world: after,
            changed,
        })
    }

    ghost reads_cover = { covers };

    ghost reads_are_in_order = { are_in_order };

    ghost root_has_no_parent = { refl };

    ghost root_is_at_the_top = { refl };

    ghost listed_are_different = { are_different };

    ghost listed_are_below = { are_below };
}
