//! The best place of each site of a part, in a table by site.
ghost use Rattle.std.specs.Prelude.{◌≡◌, ◌==◌, Some, None, IfOk, OnOk, cond};
ghost use Rattle.std.specs.Option.{option_copied};
ghost use Rattle.std.specs.BTreeMap.{get};
ghost use Rattle.prim_trees.specs.Meant.{meant};
ghost use Rattle.site_order.specs.Best.{site_in, is_as_good, stands_at, place_at, next_best, best_from};
ghost use Rattle.site_order.specs.Entries.{entry, entries};

use crate::ranks::Ranked;
use plain_data::{ExactEq, ExactOrd, copy};
use prim_trees::Tree;
use prim_view::StackName;
use sdf_paths::Path;
use std::alloc::{AllocError, Global};
use std::collections::BTreeMap;

/// A path of a layer stack, with an order.
#[derive(Drop, PartialEq, Eq, PartialOrd, Ord)]
pub struct SiteKey {
    /// The layer stack.
    pub stack: StackName,
    /// The path in that stack.
    pub path: Path,
}

impl ExactEq for SiteKey {
    ghost use Rattle.site_order.specs.SiteKeys.{key_equal};

    ghost equal_is_same = { key_equal };
}

impl ExactOrd for SiteKey {
    ghost use Rattle.site_order.specs.SiteKeys.{key_tie};

    ghost tie_is_same = { key_tie };
}

/// A place in a part.
#[derive(Clone, Copy, Drop)]
pub struct Place {
    /// The rank of the node that stands there.
    pub rank: usize,
    /// How many places stand before it.
    pub at: usize,
}

/// The best place of each site.
pub type BestPlaces = BTreeMap<SiteKey, Place>;

/// The site of a tree's node.
#[tactic(auto, using(crate::proofs::Placing::key_is))]
pub fn key_of(tree: &Tree) -> Result<SiteKey, AllocError>
    ensures { IfOk result (λ key. key ≡ site_in (meant tree.now)) }
{
    Ok(SiteKey {
        stack: copy(&tree.node.stack)?,
        path: copy(&tree.node.path)?,
    })
}

/// Whether a place of no greater rank is found.
fn is_as_good(found: Option<&Place>, rank: usize) -> bool
    ensures { result ≡ is_as_good (option_copied found.entry) rank }
{
    match found {
        Some(place) => place.rank <= rank,
        None => false,
    }
}

/// Notes a place at a key, if none of no greater rank has been noted.
fn note<K: ExactEq + ExactOrd + Drop>(
    best: &mut BTreeMap<K, Place>,
    key: K,
    place: Place,
) -> Result<(), AllocError>
    ensures { OnOk result ((q : K) → get K.cmp best.new q ≡ cond (is_as_good (get K.cmp best.old key) place.rank) (get K.cmp best.old q) (cond (K.eq key q) (Some place) (get K.cmp best.old q))) }
{
    if is_as_good(best.get(&key), place.rank) {
        return Ok(());
    }
    best.insert(key, place)?;
    Ok(())
}

/// Notes a place of a part.
fn note_place(best: &mut BestPlaces, place: &Ranked, at: usize) -> Result<(), AllocError>
    ensures { OnOk result ((q : SiteKey) → place_at best.new q ≡ next_best q (place_at best.old q) at (entry place.now)) }
{
    let key = key_of(place.tree)?;
    let there = Place {
        rank: place.rank,
        at,
    };
    note(best, key, there)?;
    Ok(())
}

/// The best place of each site of a part: of those of least rank the first.
pub fn best_of(alloc: Global, part: &[Ranked]) -> Result<BestPlaces, AllocError>
    ensures { IfOk result (λ best. (q : SiteKey) → place_at best q ≡ best_from q None 0 (entries part.now)) }
{
    let mut best = BTreeMap::new(alloc);
    for (i, place) in part.iter().enumerate() {
        note_place(&mut best, place, i)?;
    }
    Ok(best)
}

/// Whether the place is found.
fn stands_at(found: Option<&Place>, at: usize) -> bool
    ensures { result ≡ stands_at (option_copied found.entry) at }
{
    match found {
        Some(place) => place.at == at,
        None => false,
    }
}

/// Whether a place of a part is the best of its site.
pub fn is_best(best: &BestPlaces, place: &Ranked, at: usize) -> Result<bool, AllocError>
    ensures { IfOk result (λ is. is ≡ stands_at (place_at best.now (site_in (entry place.now).0)) at) }
{
    let key = key_of(place.tree)?;
    let is = stands_at(best.get(&key), at);
    Ok(is)
}
