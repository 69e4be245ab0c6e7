//! Where items stand in a list: by going through it, or by their order.
ghost use Rattle.std.specs.Prelude.{◌≡◌, ℕ, List, Option, Some, None, IfOk, OnOk, cond};
ghost use Rattle.std.specs.Option.{is_some};
ghost use Rattle.std.specs.BTreeMap.{get};
ghost use Rattle.std.specs.List.{position_from};

use plain_data::{ExactClone, ExactEq, ExactOrd, copy};
use std::alloc::{AllocError, Global};
use std::collections::BTreeMap;

/// A way to look up where items stand in a list, which is lent to each look-up again.
pub trait Places<T: Eq>: Drop {
    ghost place_of: { Self → List T → T → Option ℕ };

    /// Notes what a look-up in these items needs.
    fn of(alloc: Global, items: &[T]) -> Result<Self, AllocError>
        ensures { IfOk result (λ places. (x : T) → place_of places items.now x ≡ position_from (λ y. T.eq y x) 0 items.now) };

    /// The place, from 0, of the first item that is equal to this one; `None` where no item is. The items are those that were noted.
    fn place(&self, items: &[T], item: &T) -> Option<usize>
        ensures { result ≡ place_of self.now items.now item.now };
}

/// Nothing is noted: a look-up goes through the items.
#[derive(Drop)]
pub struct Scanned;

impl<T: ExactEq + ExactClone + Drop> Places<T> for Scanned {
    ghost place_of = { λ places items x. position_from (λ y. T.eq y x) 0 items };

    fn of(_alloc: Global, _items: &[T]) -> Result<Scanned, AllocError> {
        Ok(Scanned)
    }

    fn place(&self, items: &[T], item: &T) -> Option<usize> {
        place_in(items, item)
    }
}

/// The first place of an item.
pub fn place_in<T: Eq>(items: &[T], item: &T) -> Option<usize>
    ensures { result ≡ position_from (λ y. T.eq y item.now) 0 items.now }
{
    for i in 0..items.len() {
        if items[i] == *item {
            return Some(i);
        }
    }
    None
}

/// Up to how many items a look-up goes through. A map of so few costs more than it saves.
pub const FEW: usize = 8;

/// A map from each item to its place; none of few items.
#[derive(Drop)]
pub struct Sorted<T: Ord> {
    by_item: Option<BTreeMap<T, usize>>,
}

impl<T: ExactEq + ExactOrd + ExactClone + Drop> Places<T> for Sorted<T> {
    ghost place_of = { λ sorted items x. elim sorted.by_item [ Some map ↦ get T.cmp map x | None ↦ position_from (λ y. T.eq y x) 0 items ] };

    fn of(alloc: Global, items: &[T]) -> Result<Sorted<T>, AllocError> {
        if items.len() <= FEW {
            return Ok(Sorted { by_item: None });
        }
        let by_item = Some(places_of(alloc, items)?);
        Ok(Sorted { by_item })
    }

    fn place(&self, items: &[T], item: &T) -> Option<usize> {
        match &self.by_item {
            Some(map) => map.get(item).copied(),
            None => place_in(items, item),
        }
    }
}

/// The place of the first of each item.
fn places_of<T: ExactEq + ExactOrd + ExactClone + Drop>(
    alloc: Global,
    items: &[T],
) -> Result<BTreeMap<T, usize>, AllocError>
    ensures { IfOk result (λ places. (x : T) → get T.cmp places x ≡ position_from (λ y. T.eq y x) 0 items.now) }
{
    let mut places = BTreeMap::new(alloc);
    for i in 0..items.len() {
        note(&mut places, &items[i], i)?;
    }
    Ok(places)
}

/// Notes the place of an item, if none has been noted.
fn note<T: ExactOrd + ExactClone + Drop>(
    places: &mut BTreeMap<T, usize>,
    item: &T,
    at: usize,
) -> Result<(), AllocError>
    ensures { OnOk result ((q : T) → get T.cmp places.new q ≡ cond (is_some (get T.cmp places.old item.now)) (get T.cmp places.old q) (cond (T.eq item.now q) (Some at) (get T.cmp places.old q))) }
{
    if places.contains_key(item) {
        return Ok(());
    }
    places.insert(copy(item)?, at)?;
    Ok(())
}
