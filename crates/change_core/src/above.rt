//! What is known of a place while those right below it are composed.

ghost use Rattle.std.specs.Prelude.{◌≡◌, IfOk, IfSome, OnOk};
ghost use Rattle.std.specs.List.Sorted.{IsStrictlySortedBy};
ghost use Rattle.change_core.specs.Kept.{AreRead, AreHits, IsCurrent, reads_above};
ghost use Rattle.change_core.specs.Above.{IsTold, IsFilled, IsFound, UnlessHolds, told_keys};

use crate::differences::{hits, left_out};
use crate::kept::{Kept, KeptStage};
use compose_api::Composer;
use plain_data::{ExactClone, ExactOrd, Items};
use std::alloc::{AllocError, Global};
use std::collections::BTreeSet;

/// What is known of the place above one that is visited.
#[derive(Drop)]
pub struct Above<P, I, K> {
    /// The place above, which the root place has not.
    pub place: Option<P>,
    /// Its index, where it was asked for.
    pub index: Option<I>,
    /// What it reads, where it was asked for.
    pub reads: Option<Items<K>>,
    /// The changed keys that it read before, where something was kept there.
    pub hits: Option<Items<K>>,
    /// Whether it is known to read what it read before.
    pub same: bool,
}

/// What was kept at a place.
#[derive(Drop)]
pub enum Found<P, E, K> {
    /// It is what would be composed there: it read no changed key, and the place above reads what it read.
    Holds(Kept<P, E, K>),
    /// It may be something else than what would be composed there. It read these changed keys.
    Stale(Kept<P, E, K>, Items<K>),
    /// Nothing was kept there, as far as is known.
    Nothing,
}

/// Asks for the index of the place above and for what it reads, unless that was done.
fn fill<C: Composer>(
    composer: &C,
    world: &C::World,
    above: &mut Above<C::Place, C::Index, C::Key>,
) -> Result<(), AllocError>
    requires { IsTold C.index_of C.reads_of world.now above.old }
    ensures told { IsTold C.index_of C.reads_of world.now above.new }
    ensures filled { OnOk result (IsFilled C.index_of C.reads_of world.now above.new) }
    ensures place { above.new.place ≡ above.old.place }
    ensures hits { above.new.hits ≡ above.old.hits }
    ensures same { above.new.same ≡ above.old.same }
{
    if above.reads.is_some() {
        return Ok(());
    }
    let Some(place) = &above.place else {
        return Ok(());
    };
    let unknown: Option<C::Index> = None;
    let untold: Option<Items<C::Key>> = None;
    let index = composer.index(world, unknown.as_ref(), place)?;
    let reads = composer.reads(world, untold.as_ref(), place, &index)?;
    above.index = Some(index);
    above.reads = Some(reads);
    Ok(())
}

/// The same, unless what was found holds.
pub fn fill_unless_it_holds<C: Composer>(
    composer: &C,
    world: &C::World,
    found: &Found<C::Place, C::Entry, C::Key>,
    above: &mut Above<C::Place, C::Index, C::Key>,
) -> Result<(), AllocError>
    requires { IsTold C.index_of C.reads_of world.now above.old }
    ensures told { IsTold C.index_of C.reads_of world.now above.new }
    ensures filled { OnOk result (UnlessHolds found.now (IsFilled C.index_of C.reads_of world.now above.new)) }
    ensures place { above.new.place ≡ above.old.place }
    ensures hits { above.new.hits ≡ above.old.hits }
    ensures same { above.new.same ≡ above.old.same }
{
    match found {
        Found::Holds(_) => Ok(()),
        Found::Stale(_, _) | Found::Nothing => fill(composer, world, above),
    }
}

/// The keys that are read and not read above, and those that are read above alone.
#[derive(Drop)]
pub struct Differing<K> {
    /// The keys that are read and not read above.
    pub added: Items<K>,
    /// The keys that are read above alone.
    pub dropped: Items<K>,
}

/// How what is read differs from what is read above, both in order.
pub fn differences<K: ExactOrd + ExactClone + Drop>(
    alloc: Global,
    above: &Option<Items<K>>,
    reads: &Items<K>,
) -> Result<Differing<K>, AllocError>
    requires above { IsStrictlySortedBy K.cmp (told_keys above.now) }
    requires reads { IsStrictlySortedBy K.cmp reads.now }
    ensures { IfOk result (λ found. AreRead K.cmp reads.now (told_keys above.now) found.added found.dropped) }
{
    match above {
        None => Ok(Differing {
            added: reads.copy()?,
            dropped: Items::new(alloc),
        }),
        Some(above) => {
            let added = left_out(alloc, reads.as_slice(), above.as_slice())?;
            let dropped = left_out(alloc, above.as_slice(), reads.as_slice())?;
            Ok(Differing { added, dropped })
        }
    }
}

/// The changed keys that were read at a place, where those are known that were read above it.
pub fn hits_at<P, E, K: ExactOrd + ExactClone + Drop>(
    alloc: Global,
    changed: &BTreeSet<K>,
    above: &Option<Items<K>>,
    kept: &Kept<P, E, K>,
) -> Result<Option<Items<K>>, AllocError>
    ensures { IfOk result (λ found. IfSome found (λ hits. (reads others : _) → IfSome above.now (AreHits K.cmp changed.now others) → AreRead K.cmp reads others kept.now.added kept.now.dropped → AreHits K.cmp changed.now reads hits)) }
{
    match above {
        None => Ok(None),
        Some(above) => Ok(Some(hits(
            alloc,
            changed,
            above.as_slice(),
            kept.added.as_slice(),
            kept.dropped.as_slice(),
        )?)),
    }
}

/// What was kept at a place: it holds where it read no changed key and the place above reads what it read.
fn judged<C: Composer>(
    alloc: Global,
    changed: &BTreeSet<C::Key>,
    above: &Above<C::Place, C::Index, C::Key>,
    kept: Kept<C::Place, C::Entry, C::Key>,
) -> Result<Found<C::Place, C::Entry, C::Key>, AllocError>
    ensures { IfOk result (λ found. (before : C.World) → IfSome above.now.hits (AreHits C.Key.cmp changed.now (reads_above C.reads_of before above.now.place)) → above.now.place ≡ C.parent_of kept.place → IsCurrent C.Key.cmp C.entry_of C.reads_of C.parent_of before kept → IsFound C.index_of C.reads_of C.Key.cmp C.entry_of C.parent_of before changed.now above.now kept.place found) }
{
    match hits_at(alloc, changed, &above.hits, &kept)? {
        None => Ok(Found::Nothing),
        Some(hits) => {
            if above.same && hits.is_empty() {
                Ok(Found::Holds(kept))
            } else {
                Ok(Found::Stale(kept, hits))
            }
        }
    }
}

/// Takes what was kept at the place, unless nothing is known of what was kept above it.
pub fn find<C: Composer>(
    alloc: Global,
    changed: &BTreeSet<C::Key>,
    old: &mut KeptStage<C>,
    above: &Above<C::Place, C::Index, C::Key>,
    place: &C::Place,
) -> Result<Found<C::Place, C::Entry, C::Key>, AllocError>
    requires hits { IfSome above.now.hits (AreHits C.Key.cmp changed.now (reads_above C.reads_of old.old.world above.now.place)) }
    requires place { above.now.place ≡ C.parent_of place.now }
    ensures found { IfOk result (IsFound C.index_of C.reads_of C.Key.cmp C.entry_of C.parent_of old.old.world changed.now above.now place.now) }
    ensures world { old.new.world ≡ old.old.world }
{
    if above.hits.is_none() {
        return Ok(Found::Nothing);
    }
    match old.take(place) {
        None => Ok(Found::Nothing),
        Some(kept) => judged::<C>(alloc, changed, above, kept),
    }
}
