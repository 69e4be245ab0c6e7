ghost use Rattle.std.specs.Prelude.{◌≡◌, ◌↔◌, [], length, slice_get, IsTrue};
ghost use Rattle.std.specs.Option.{option_copied, option_map};
ghost use Rattle.stage_publish.specs.Editions.{item_at};

use crate::edition::Edition;
use std::marker::Model;

/// A look into one version of a stage. No call on it takes memory.
///
/// Contracts see what they see of the version itself.
#[derive(Debug, Drop)]
pub struct View<'a, P: Ord, E> {
    edition: &'a Edition<P, E>,
}

impl<'a, P: Ord, E> Model for View<'a, P, E> {
    ghost use Rattle.stage_publish.specs.Editions.{Published};

    ghost Value = { Published P E };

    ghost view = { λ v. v.edition.now };
}

impl<'a, P: Ord, E> View<'a, P, E> {
    /// A look into this version.
    pub(crate) fn of(edition: &'a Edition<P, E>) -> View<'a, P, E>
        ensures { result ≡ edition.now }
    {
        View { edition }
    }

    /// The number of the version.
    pub fn version(&self) -> u64
        ensures { result ≡ self.now.version }
    {
        self.edition.version()
    }

    /// How many edit batches were accepted before the version.
    pub fn batches(&self) -> u64
        ensures { result ≡ self.now.batches }
    {
        self.edition.batches()
    }

    /// How many items there are.
    pub fn len(&self) -> usize
        ensures { result ≡ length self.now.items }
    {
        self.edition.len()
    }

    /// Whether there is no item.
    pub fn is_empty(&self) -> bool
        ensures { IsTrue result ↔ (self.now.items ≡ []) }
    {
        self.edition.is_empty()
    }

    /// What stands at a place, found by a search.
    pub fn find(&self, place: &P) -> Option<&E>
        ensures { option_copied result ≡ item_at P.cmp place.now self.now.items }
    {
        self.edition.find(place)
    }

    /// The place and what stands there, at this index, counted from 0; nothing past the end.
    pub fn nth(&self, i: usize) -> Option<(&P, &E)>
        ensures { option_map (λ e. (e.0.now, e.1.now)) result ≡ slice_get self.now.items i }
    {
        self.edition.nth(i)
    }
}
