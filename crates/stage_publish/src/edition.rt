ghost use Rattle.std.specs.Prelude.{◌≡◌, ◌↔◌, [], length, slice_get, IfOk, IsTrue};
ghost use Rattle.std.specs.Arc.{arc_value};
ghost use Rattle.std.specs.BTreeMap.{get};
ghost use Rattle.std.specs.Option.{option_copied, option_map};
ghost use Rattle.stage_publish.specs.Editions.{item_at, index_of};

use crate::places::{has_same_places, indices};
use crate::view::View;
use plain_data::{ExactClone, ExactOrd, Items};
use std::alloc::{AllocError, Global};
use std::collections::BTreeMap;
use std::marker::Model;
use std::sync::Arc;

/// A version of a stage: items by place, in their order.
///
/// Contracts see the numbers of the version and the list of its items.
#[derive(Debug, Drop)]
pub struct Edition<P: Ord, E> {
    version: u64,
    batches: u64,
    items: Items<(P, E)>,
    indices: Arc<BTreeMap<P, usize>, Global>,
}

impl<P: Ord, E> Model for Edition<P, E> {
    ghost use Rattle.std.specs.Prelude.{◌≡◌};
    ghost use Rattle.std.specs.Arc.{arc_value};
    ghost use Rattle.std.specs.BTreeMap.{get};
    ghost use Rattle.stage_publish.specs.Editions.{Published, index_of};

    ghost Value = { Published P E };

    ghost view = { λ t. record { version = t.version; batches = t.batches; items = t.items } };

    ghost invariant = { λ t. (p : P) → get P.cmp (arc_value t.indices) p ≡ index_of P.cmp p t.items };
}

impl<P: Ord, E> Edition<P, E> {
    /// The number of the version.
    pub fn version(&self) -> u64
        ensures { result ≡ self.now.version }
    {
        self.version
    }

    /// How many edit batches were accepted before the version.
    pub fn batches(&self) -> u64
        ensures { result ≡ self.now.batches }
    {
        self.batches
    }

    /// How many items there are.
    pub fn len(&self) -> usize
        ensures { result ≡ length self.now.items }
    {
        self.items.len()
    }

    /// Whether there is no item.
    pub fn is_empty(&self) -> bool
        ensures { IsTrue result ↔ (self.now.items ≡ []) }
    {
        self.items.is_empty()
    }

    /// A look into this version. Takes no memory.
    pub fn view(&self) -> View<'_, P, E>
        ensures { result ≡ self.now }
    {
        View::of(self)
    }

    /// What stands at a place.
    pub(crate) fn find(&self, place: &P) -> Option<&E>
        ensures { option_copied result ≡ item_at P.cmp place.now self.now.items }
    {
        match self.indices.get(place) {
            Some(i) => entry(self.items.as_slice(), *i),
            None => None,
        }
    }

    /// The place and what stands there, at this index, counted from 0.
    pub(crate) fn nth(&self, i: usize) -> Option<(&P, &E)>
        ensures { option_map (λ e. (e.0.now, e.1.now)) result ≡ slice_get self.now.items i }
    {
        match self.items.get(i) {
            Some(item) => Some((&item.0, &item.1)),
            None => None,
        }
    }
}

/// What stands at an index.
fn entry<P, E>(items: &[(P, E)], i: usize) -> Option<&E>
    ensures { option_copied result ≡ option_map (λ e. e.1) (slice_get items.now i) }
{
    match items.get(i) {
        Some(item) => Some(&item.1),
        None => None,
    }
}

/// The index of the first item of each place: that of a version with the same places, where one is given, which is then shared.
fn indices_beside<P: ExactOrd + ExactClone + Drop, E: Drop>(
    alloc: Global,
    items: &Items<(P, E)>,
    before: Option<&Edition<P, E>>,
) -> Result<Arc<BTreeMap<P, usize>, Global>, AllocError>
    ensures { IfOk result (λ found. (p : P) → get P.cmp (arc_value found) p ≡ index_of P.cmp p items.now) }
{
    if let Some(edition) = before {
        if has_same_places(items.as_slice(), edition.items.as_slice()) {
            let shared = Arc::try_clone(&edition.indices)?;
            return Ok(shared);
        }
    }
    let found = indices(alloc, items.as_slice())?;
    Ok(Arc::new(alloc, found)?)
}

impl<P: ExactOrd + ExactClone + Drop, E: Drop> Edition<P, E> {
    ghost use Rattle.stage_publish.specs.Editions.{Published};

    /// The version of these numbers and these items in this order. A place that stands twice is found where it stands first.
    ///
    /// `before` is the version published before this one, if there is one. Where the places are the same, the table by which they are
    /// found is shared with it.
    ///
    /// # Errors
    ///
    /// Memory ran out.
    pub fn build(
        alloc: Global,
        version: u64,
        batches: u64,
        items: Items<(P, E)>,
        before: Option<&Edition<P, E>>,
    ) -> Result<Edition<P, E>, AllocError>
        ensures { IfOk result (λ edition. edition ≡ record { version = version; batches = batches; items = items }) }
    {
        let indices = indices_beside(alloc, &items, before)?;
        Ok(Edition {
            version,
            batches,
            items,
            indices,
        })
    }
}
