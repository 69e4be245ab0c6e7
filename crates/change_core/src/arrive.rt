//! What is done at a place: what is kept there is moved over, or the place is composed anew.

ghost use Rattle.std.specs.Prelude.{◌≡◌, ◌∷◌, ◌++◌, ◌⊎◌, [], true, Some, Option, IfOk, OnOk};
ghost use Rattle.change_core.specs.Kept.{IsCurrent, Covers, AreHits, Keys, reads_above};
ghost use Rattle.change_core.specs.Above.{IsTold, IsFilled, IsAbove, Arrives};

use crate::above::{Above, Differing, Found, differences, fill_unless_it_holds, find};
use crate::kept::{Kept, KeptStage};
use compose_api::{Composed, Composer};
use plain_data::{ExactOrd, Items, copy};
use std::alloc::{AllocError, Global};
use std::collections::BTreeSet;

/// What was composed anew at a place, with its index and all that it reads.
#[derive(Drop)]
struct Made<P, E, I, K> {
    kept: Kept<P, E, K>,
    index: I,
    reads: Items<K>,
}

/// What is kept at a place, and what is known of it for the places right below.
#[derive(Drop)]
pub struct Arrival<P, E, I, K> {
    /// What is kept there.
    pub kept: Kept<P, E, K>,
    /// What is known for the places right below.
    pub below: Above<P, I, K>,
}

/// The entry of a place that was added, and what is known of it for the places right below.
#[derive(Drop)]
pub struct Arrived<P, E, I, K> {
    /// The entry.
    pub entry: E,
    /// What is known for the places right below.
    pub below: Above<P, I, K>,
}

/// What is kept of a place with this entry that reads these keys.
fn kept_of<C: Composer>(
    alloc: Global,
    world: &C::World,
    above: &Above<C::Place, C::Index, C::Key>,
    place: &C::Place,
    entry: C::Entry,
    reads: &Items<C::Key>,
) -> Result<Kept<C::Place, C::Entry, C::Key>, AllocError>
    requires filled { IsFilled C.index_of C.reads_of world.now above.now }
    requires place { above.now.place ≡ C.parent_of place.now }
    requires entry { entry ≡ C.entry_of world.now place.now }
    requires reads { reads.now ≡ C.reads_of world.now place.now }
    ensures place { IfOk result (λ kept. kept.place ≡ place.now) }
    ensures current { IfOk result (IsCurrent C.Key.cmp C.entry_of C.reads_of C.parent_of world.now) }
{
    let _ = world;
    let Differing { added, dropped } = differences(alloc, &above.reads, reads)?;
    Ok(Kept {
        place: copy(place)?,
        entry,
        added,
        dropped,
    })
}

/// Composes a place anew.
fn anew<C: Composer>(
    alloc: Global,
    composer: &C,
    world: &C::World,
    above: &Above<C::Place, C::Index, C::Key>,
    place: &C::Place,
) -> Result<Made<C::Place, C::Entry, C::Index, C::Key>, AllocError>
    requires told { IsTold C.index_of C.reads_of world.now above.now }
    requires filled { IsFilled C.index_of C.reads_of world.now above.now }
    requires place { above.now.place ≡ C.parent_of place.now }
    ensures place { IfOk result (λ made. made.kept.place ≡ place.now) }
    ensures current { IfOk result (λ made. IsCurrent C.Key.cmp C.entry_of C.reads_of C.parent_of world.now made.kept) }
    ensures index { IfOk result (λ made. made.index ≡ C.index_of world.now place.now) }
    ensures reads { IfOk result (λ made. made.reads ≡ C.reads_of world.now place.now) }
{
    let Composed { entry, index } = composer.compose(world, above.index.as_ref(), place)?;
    let reads = composer.reads(world, above.reads.as_ref(), place, &index)?;
    let kept = kept_of::<C>(alloc, world, above, place, entry, &reads)?;
    Ok(Made { kept, index, reads })
}

/// Composes a place anew at which nothing was kept, as far as is known.
fn arrive_first<C: Composer>(
    alloc: Global,
    composer: &C,
    world: &C::World,
    above: &Above<C::Place, C::Index, C::Key>,
    place: &C::Place,
) -> Result<Arrival<C::Place, C::Entry, C::Index, C::Key>, AllocError>
    requires told { IsTold C.index_of C.reads_of world.now above.now }
    requires filled { IsFilled C.index_of C.reads_of world.now above.now }
    requires place { above.now.place ≡ C.parent_of place.now }
    ensures { IfOk result (λ a. (before : C.World) (changed : Keys C.Key) → Arrives C.index_of C.reads_of C.Key.cmp C.entry_of C.parent_of world.now before changed place.now a) }
{
    let Made { kept, index, reads } = anew(alloc, composer, world, above, place)?;
    let below = Above {
        place: Some(copy(place)?),
        index: Some(index),
        reads: Some(reads),
        hits: None,
        same: false,
    };
    Ok(Arrival { kept, below })
}

/// Whether the two lists are one.
fn same_keys<K: ExactOrd>(first: &Items<K>, second: &Items<K>) -> bool
    ensures { result ≡ true → first.now ≡ second.now }
{
    first.cmp(second).is_eq()
}

/// Whether a place that was composed anew is known to read what it read before: it read no changed key, or it differs by the same keys
/// from the place above, which reads what it read before.
fn reads_as_before<P, E, K: ExactOrd>(
    hits: &Items<K>,
    same_above: bool,
    before: &Kept<P, E, K>,
    now: &Kept<P, E, K>,
) -> bool
    ensures { result ≡ true → (hits.now ≡ []) ⊎ ((same_above ≡ true) × (now.now.added ≡ before.now.added) × (now.now.dropped ≡ before.now.dropped)) }
{
    if hits.is_empty() {
        return true;
    }
    if !same_above {
        return false;
    }
    if !same_keys(&now.added, &before.added) {
        return false;
    }
    same_keys(&now.dropped, &before.dropped)
}

/// Composes a place anew at which this was kept, which read these changed keys.
fn arrive_again<C: Composer>(
    alloc: Global,
    composer: &C,
    world: &C::World,
    above: &Above<C::Place, C::Index, C::Key>,
    old: Kept<C::Place, C::Entry, C::Key>,
    hits: Items<C::Key>,
) -> Result<Arrival<C::Place, C::Entry, C::Index, C::Key>, AllocError>
    requires told { IsTold C.index_of C.reads_of world.now above.now }
    requires filled { IsFilled C.index_of C.reads_of world.now above.now }
    requires place { above.now.place ≡ C.parent_of old.place }
    ensures { IfOk result (λ a. (before : C.World) (changed : Keys C.Key) → IsAbove C.index_of C.reads_of C.Key.cmp world.now before changed above.now → IsCurrent C.Key.cmp C.entry_of C.reads_of C.parent_of before old → AreHits C.Key.cmp changed (C.reads_of before old.place) hits → Covers C.Key.cmp (C.value_of before) (C.value_of world.now) changed → Arrives C.index_of C.reads_of C.Key.cmp C.entry_of C.parent_of world.now before changed old.place a) }
{
    let Made { kept, index, reads } = anew(alloc, composer, world, above, &old.place)?;
    let same = reads_as_before(&hits, above.same, &old, &kept);
    let below = Above {
        place: Some(copy(&old.place)?),
        index: Some(index),
        reads: Some(reads),
        hits: Some(hits),
        same,
    };
    Ok(Arrival { kept, below })
}

/// Moves over what was kept at a place. It read no changed key.
fn move_over<C: Composer>(
    alloc: Global,
    kept: Kept<C::Place, C::Entry, C::Key>,
) -> Result<Arrival<C::Place, C::Entry, C::Index, C::Key>, AllocError>
    ensures { IfOk result (λ a. (now before : C.World) (changed : Keys C.Key) → IsCurrent C.Key.cmp C.entry_of C.reads_of C.parent_of before kept → AreHits C.Key.cmp changed (C.reads_of before kept.place) [] → Covers C.Key.cmp (C.value_of before) (C.value_of now) changed → reads_above C.reads_of now (C.parent_of kept.place) ≡ reads_above C.reads_of before (C.parent_of kept.place) → Arrives C.index_of C.reads_of C.Key.cmp C.entry_of C.parent_of now before changed kept.place a) }
{
    let below = Above {
        place: Some(copy(&kept.place)?),
        index: None,
        reads: None,
        hits: Some(Items::new(alloc)),
        same: true,
    };
    Ok(Arrival { kept, below })
}

/// What is kept at the place now.
fn visit<C: Composer>(
    alloc: Global,
    composer: &C,
    world: &C::World,
    changed: &BTreeSet<C::Key>,
    old: &mut KeptStage<C>,
    above: &mut Above<C::Place, C::Index, C::Key>,
    place: &C::Place,
) -> Result<Arrival<C::Place, C::Entry, C::Index, C::Key>, AllocError>
    requires covers { Covers C.Key.cmp (C.value_of old.old.world) (C.value_of world.now) changed.now }
    requires above { IsAbove C.index_of C.reads_of C.Key.cmp world.now old.old.world changed.now above.old }
    requires place { above.old.place ≡ C.parent_of place.now }
    ensures arrival { IfOk result (Arrives C.index_of C.reads_of C.Key.cmp C.entry_of C.parent_of world.now old.old.world changed.now place.now) }
    ensures above { IsAbove C.index_of C.reads_of C.Key.cmp world.now old.old.world changed.now above.new }
    ensures place { above.new.place ≡ above.old.place }
    ensures world { old.new.world ≡ old.old.world }
{
    let found = find(alloc, changed, old, above, place)?;
    fill_unless_it_holds(composer, world, &found, above)?;
    match found {
        Found::Holds(kept) => move_over::<C>(alloc, kept),
        Found::Stale(kept, hits) => arrive_again(alloc, composer, world, above, kept, hits),
        Found::Nothing => arrive_first(alloc, composer, world, above, place),
    }
}

/// Adds the place with what is composed there.
pub fn arrive<C: Composer>(
    composer: &C,
    world: &C::World,
    changed: &BTreeSet<C::Key>,
    old: &mut KeptStage<C>,
    above: &mut Above<C::Place, C::Index, C::Key>,
    place: &C::Place,
    made: &mut KeptStage<C>,
) -> Result<Arrived<C::Place, C::Entry, C::Index, C::Key>, AllocError>
    requires covers { Covers C.Key.cmp (C.value_of old.old.world) (C.value_of world.now) changed.now }
    requires above { IsAbove C.index_of C.reads_of C.Key.cmp world.now old.old.world changed.now above.old }
    requires place { above.old.place ≡ C.parent_of place.now }
    requires made { made.old.world ≡ world.now }
    ensures stage { OnOk result (made.new.stage ≡ made.old.stage ++ (place.now, C.entry_of world.now place.now) ∷ []) }
    ensures entry { IfOk result (λ a. a.entry ≡ C.entry_of world.now place.now) }
    ensures below { IfOk result (λ a. IsAbove C.index_of C.reads_of C.Key.cmp world.now old.old.world changed.now a.below) }
    ensures below_is { IfOk result (λ a. a.below.place ≡ Some place.now) }
    ensures above { IsAbove C.index_of C.reads_of C.Key.cmp world.now old.old.world changed.now above.new }
    ensures above_is { above.new.place ≡ above.old.place }
    ensures world { old.new.world ≡ old.old.world }
    ensures made { made.new.world ≡ made.old.world }
{
    let alloc = made.allocator();
    let Arrival { kept, below } = visit(alloc, composer, world, changed, old, above, place)?;
    let entry = copy(&kept.entry)?;
    made.push(kept)?;
    Ok(Arrived { entry, below })
}
