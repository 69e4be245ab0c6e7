//! Where the first item of each place stands in a list.
ghost use Rattle.std.specs.Prelude.{◌≡◌, true, Some, map, IfOk, OnOk, cond};
ghost use Rattle.std.specs.Option.{is_some};
ghost use Rattle.std.specs.BTreeMap.{get, is_at};
ghost use Rattle.stage_publish.specs.Editions.{index_of};

use plain_data::{ExactClone, ExactOrd, copy};
use std::alloc::{AllocError, Global};
use std::collections::BTreeMap;

/// The index of the first item of each place.
pub fn indices<P: ExactOrd + ExactClone + Drop, E>(
    alloc: Global,
    items: &[(P, E)],
) -> Result<BTreeMap<P, usize>, AllocError>
    ensures { IfOk result (λ indices. (p : P) → get P.cmp indices p ≡ index_of P.cmp p items.now) }
{
    let mut indices = BTreeMap::new(alloc);
    for i in 0..items.len() {
        note(&mut indices, &items[i].0, i)?;
    }
    Ok(indices)
}

/// Notes the index of a place, if none has been noted.
fn note<P: ExactOrd + ExactClone + Drop>(
    indices: &mut BTreeMap<P, usize>,
    place: &P,
    at: usize,
) -> Result<(), AllocError>
    ensures { OnOk result ((q : P) → get P.cmp indices.new q ≡ cond (is_some (get P.cmp indices.old place.now)) (get P.cmp indices.old q) (cond (is_at (P.cmp q) place.now) (Some at) (get P.cmp indices.old q))) }
{
    if let Some(first) = indices.insert(copy(place)?, at)? {
        indices.insert(copy(place)?, first)?;
    }
    Ok(())
}

/// Whether two items stand at one place.
fn has_same_place<P: ExactOrd, E>(item: &(P, E), other: &(P, E)) -> bool
    ensures { result ≡ true → item.now.0 ≡ other.now.0 }
{
    item.0.cmp(&other.0).is_eq()
}

/// Whether the items of two lists stand at the same places in the same order.
pub fn has_same_places<P: ExactOrd, E>(items: &[(P, E)], others: &[(P, E)]) -> bool
    ensures { result ≡ true → map (λ e. e.0) items.now ≡ map (λ e. e.0) others.now }
{
    if items.len() != others.len() {
        return false;
    }
    for i in 0..items.len() {
        if !has_same_place(&items[i], &others[i]) {
            return false;
        }
    }
    true
}
