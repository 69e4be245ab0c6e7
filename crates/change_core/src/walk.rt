//! The stage of a world, with what is kept of the stage before moved over where it holds.

ghost use Rattle.std.specs.Prelude.{◌≡◌, ◌++◌, ◌<◌, ◌≤◌, length, slice_get, IfOk, OnOk, Err, Some};
ghost use Rattle.compose_api.specs.declared.refused.StageRefused.TheVariants as StageRefused;
ghost use Rattle.compose_api.specs.Stage.{walked, stage_of};
ghost use Rattle.change_core.specs.Kept.{Covers};
ghost use Rattle.change_core.specs.Above.{IsAbove};

use crate::above::Above;
use crate::arrive::{Arrived, arrive};
use crate::kept::KeptStage;
use compose_api::{Composer, StageRefused};
use plain_data::{Items, copy};
use std::alloc::{AllocError, Global};
use std::collections::BTreeSet;

/// The levels from the root place down to the deepest places.
const LEVELS: u32 = 65;

/// How many old places are left once the place and all below it are taken.
fn end_of<C: Composer>(
    old: &KeptStage<C>,
    above: &Above<C::Place, C::Index, C::Key>,
    place: &C::Place,
) -> usize {
    if above.hits.is_some() {
        old.end_of(place)
    } else {
        usize::MAX
    }
}

/// The listed place of this number. Where it is the next of the old places, that is copied, which takes less than to make it.
fn child_of<C: Composer>(
    composer: &C,
    old: &KeptStage<C>,
    place: &C::Place,
    entry: &C::Entry,
    i: usize,
) -> Result<C::Place, AllocError>
    requires { i < length (C.listed place.now entry.now) }
    ensures { IfOk result (λ child. slice_get (C.listed place.now entry.now) i ≡ Some child) }
{
    if let Some(next) = old.next_place() {
        if composer.is_child(place, entry, i, next) {
            return copy(next);
        }
    }
    composer.child_at(place, entry, i)
}

/// Adds a place and all below it, while there are not more places than this.
fn push_kept<C: Composer>(
    composer: &C,
    world: &C::World,
    changed: &BTreeSet<C::Key>,
    old: &mut KeptStage<C>,
    above: &mut Above<C::Place, C::Index, C::Key>,
    place: C::Place,
    levels: u32,
    most: usize,
    made: &mut KeptStage<C>,
) -> Result<(), StageRefused>
    requires covers { Covers C.Key.cmp (C.value_of old.old.world) (C.value_of world.now) changed.now }
    requires above { IsAbove C.index_of C.reads_of C.Key.cmp world.now old.old.world changed.now above.old }
    requires place { above.old.place ≡ C.parent_of place }
    requires made { made.old.world ≡ world.now }
    ensures stage { OnOk result (made.new.stage ≡ made.old.stage ++ walked C.entry_of C.listed levels world.now place) }
    ensures full { result ≡ Err StageRefused.Full → most < length (made.old.stage ++ walked C.entry_of C.listed levels world.now place) }
    ensures above { IsAbove C.index_of C.reads_of C.Key.cmp world.now old.old.world changed.now above.new }
    ensures above_is { above.new.place ≡ above.old.place }
    ensures world { old.new.world ≡ old.old.world }
    ensures made { made.new.world ≡ made.old.world }
{
    if levels == 0 {
        return Ok(());
    }
    if made.len() >= most {
        return Err(StageRefused::Full);
    }
    let end = end_of(old, above, &place);
    let at = made.len();
    let Arrived { entry, mut below } = arrive(composer, world, changed, old, above, &place, made)?;
    let count = composer.child_count(&entry);
    for i in 0..count {
        let child = child_of(composer, old, &place, &entry, i)?;
        push_kept(
            composer,
            world,
            changed,
            old,
            &mut below,
            child,
            levels - 1,
            most,
            made,
        )?;
    }
    made.close(at);
    old.cut(end);
    Ok(())
}

/// All populated places of a world, while there are not more than this. What is kept of a stage is moved over where none of the changed
/// keys was read.
///
/// # Errors
///
/// `Full` exactly where there are more places. `NoMemory` where memory ran out.
pub fn kept_stage<C: Composer>(
    alloc: Global,
    composer: &C,
    world: &C::World,
    changed: &BTreeSet<C::Key>,
    old: KeptStage<C>,
    most: usize,
) -> Result<KeptStage<C>, StageRefused>
    requires { Covers C.Key.cmp (C.value_of old.world) (C.value_of world.now) changed.now }
    ensures world { IfOk result (λ made. made.world ≡ world.now) }
    ensures stage { IfOk result (λ made. made.stage ≡ stage_of C.entry_of C.listed world.now C.root_place) }
    ensures few { IfOk result (λ made. length made.stage ≤ most) }
    ensures full { result ≡ Err StageRefused.Full → most < length (stage_of C.entry_of C.listed world.now C.root_place) }
{
    let mut left = old;
    left.turn();
    let mut made = KeptStage::new(alloc, world);
    let mut above = Above {
        place: None,
        index: None,
        reads: None,
        hits: Some(Items::new(alloc)),
        same: true,
    };
    let root = composer.top()?;
    push_kept(
        composer, world, changed, &mut left, &mut above, root, LEVELS, most, &mut made,
    )?;
    if made.len() > most {
        return Err(StageRefused::Full);
    }
    Ok(made)
}
