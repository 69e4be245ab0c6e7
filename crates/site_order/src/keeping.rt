//! The sites of a tree: which of several places of one site is kept.
ghost use Rattle.std.specs.Prelude.{◌≡◌, ◌++◌, [], ◌∷◌, None, IfOk, OnOk, map, filter};
ghost use Rattle.composition.specs.Paths.{limits};
ghost use Rattle.composition.specs.Faults.{site_of};
ghost use Rattle.composition.specs.Opinions.{is_by_class, is_class_map};
ghost use Rattle.composition.specs.Strength.{sites, strong_of, weak_of};
ghost use Rattle.prim_trees.specs.Meant.{meant};
ghost use Rattle.site_order.specs.Best.{place_at, best_from, kept_by, is_alone};
ghost use Rattle.site_order.specs.Entries.{entry, entries};
ghost use Rattle.site_order.specs.Places.{trees_shown};

use crate::best::{BestPlaces, SiteKey, best_of, is_best, key_of};
use crate::order::{is_bare, strong_of, the_node, weak_of};
use crate::ranks::Ranked;
use class_arcs::same_kind;
use path_maps::{ArcKind, ArcMap};
use plain_data::{Items, copy};
use prim_trees::Tree;
use prim_view::Site;
use std::alloc::{AllocError, Global};

/// The sites of a tree that is not overgrown, from strong to weak.
///
/// A site that is reached twice keeps one place: one of the strong part beats those of the weak part, of several in one part one of
/// least rank is kept, and of those the first. Places are looked up by their sites.
pub fn sites(alloc: Global, tree: &Tree) -> Result<Items<Site>, AllocError>
    ensures { IfOk result (λ told. told ≡ map site_of (sites limits (meant tree.now))) }
{
    let kept = places(alloc, tree)?;
    let mut told = Items::new(alloc);
    for node in kept.as_slice() {
        told.push(site_of(node)?)?;
    }
    Ok(told)
}

/// The strong places of a tree, and the best of each site.
fn strong_places<'t>(
    alloc: Global,
    tree: &'t Tree,
) -> Result<(Vec<Ranked<'t>>, BestPlaces), AllocError>
    ensures part { IfOk result (λ both. entries both.0.items ≡ strong_of limits (meant tree.now)) }
    ensures best { IfOk result (λ both. (q : SiteKey) → place_at both.1 q ≡ best_from q None 0 (entries both.0.items)) }
{
    let part = strong_of(alloc, tree)?;
    match best_of(alloc, part.as_slice()) {
        Ok(best) => Ok((part, best)),
        Err(error) => {
            drop(part);
            Err(error)
        }
    }
}

/// The weak places of a tree of sites that have no strong one, and the best of each site.
fn weak_places<'t>(
    alloc: Global,
    tree: &'t Tree,
    strong: &BestPlaces,
) -> Result<(Vec<Ranked<'t>>, BestPlaces), AllocError>
    ensures part { IfOk result (λ both. entries both.0.items ≡ filter (is_alone (place_at strong.now)) (weak_of limits (meant tree.now))) }
    ensures best { IfOk result (λ both. (q : SiteKey) → place_at both.1 q ≡ best_from q None 0 (entries both.0.items)) }
{
    let weak = weak_of(alloc, tree)?;
    let part = not_among(alloc, strong, weak.as_slice())?;
    match best_of(alloc, part.as_slice()) {
        Ok(best) => Ok((part, best)),
        Err(error) => {
            drop(part);
            Err(error)
        }
    }
}

/// The nodes at the best places of a part, and then of another.
fn best_nodes<'t>(
    alloc: Global,
    strong: &(Vec<Ranked<'t>>, BestPlaces),
    weak: &(Vec<Ranked<'t>>, BestPlaces),
) -> Result<Vec<&'t Tree>, AllocError>
    ensures { IfOk result (λ kept. trees_shown kept.items ≡ map (λ e. e.0) (kept_by (place_at strong.now.1) 0 (entries strong.now.0.items)) ++ map (λ e. e.0) (kept_by (place_at weak.now.1) 0 (entries weak.now.0.items))) }
{
    let mut kept = Vec::new(alloc);
    push_best(&mut kept, &strong.1, strong.0.as_slice())?;
    push_best(&mut kept, &weak.1, weak.0.as_slice())?;
    Ok(kept)
}

/// The nodes at the places that the sites of the tree keep.
#[tactic(auto, using(crate::proofs::Kept::places_are))]
pub fn places<'t>(alloc: Global, tree: &'t Tree) -> Result<Vec<&'t Tree>, AllocError>
    ensures { IfOk result (λ kept. trees_shown kept.items ≡ sites limits (meant tree.now)) }
{
    if is_bare(tree) {
        return the_node(alloc, tree);
    }
    let strong = strong_places(alloc, tree)?;
    match weak_places(alloc, tree, &strong.1) {
        Ok(weak) => {
            let kept = best_nodes(alloc, &strong, &weak);
            drop((strong, weak));
            kept
        }
        Err(error) => {
            drop(strong);
            Err(error)
        }
    }
}

/// Appends the nodes at the places of a part that are the best of their sites.
fn push_best<'t>(
    out: &mut Vec<&'t Tree>,
    best: &BestPlaces,
    part: &[Ranked<'t>],
) -> Result<(), AllocError>
    ensures { OnOk result (trees_shown out.new.items ≡ trees_shown out.old.items ++ map (λ e. e.0) (kept_by (place_at best.now) 0 (entries part.now))) }
{
    for (i, place) in part.iter().enumerate() {
        if is_best(best, place, i)? {
            out.push(place.tree)?;
        }
    }
    Ok(())
}

/// The weak places of sites that have no strong one.
fn not_among<'t>(
    alloc: Global,
    strong: &BestPlaces,
    weak: &[Ranked<'t>],
) -> Result<Vec<Ranked<'t>>, AllocError>
    ensures { IfOk result (λ left. entries left.items ≡ filter (is_alone (place_at strong.now)) (entries weak.now)) }
{
    let mut left = Vec::new(alloc);
    for place in weak {
        if is_alone(strong, place)? {
            push_place(&mut left, place)?;
        }
    }
    Ok(left)
}

fn push_place<'t>(out: &mut Vec<Ranked<'t>>, place: &Ranked<'t>) -> Result<(), AllocError>
    ensures { OnOk result (entries out.new.items ≡ entries out.old.items ++ entry place.now ∷ []) }
{
    out.push(*place)?;
    Ok(())
}

/// Whether no place is of the same site.
fn is_alone(best: &BestPlaces, place: &Ranked) -> Result<bool, AllocError>
    ensures { IfOk result (λ alone. alone ≡ is_alone (place_at best.now) (entry place.now)) }
{
    let key = key_of(place.tree)?;
    let found = best.get(&key);
    Ok(found.is_none())
}

/// The site of a tree's node.
#[tactic(auto, using(crate::proofs::Placing::site_is))]
fn site_of(tree: &Tree) -> Result<Site, AllocError>
    ensures { IfOk result (λ site. site ≡ site_of (meant tree.now)) }
{
    Ok(Site {
        stack: copy(&tree.node.stack)?,
        path: copy(&tree.node.path)?,
        maps: copy(&tree.node.maps)?,
        offset: tree.node.offset,
        by_class: is_by_class(tree.node.maps.as_slice()),
        has_spec: tree.node.path.is_root() || tree.here.has_spec,
    })
}

/// Whether one of the arcs is to a class.
fn is_by_class(maps: &[ArcMap]) -> bool
    ensures { result ≡ is_by_class maps.now }
{
    for map in maps {
        if is_class_map(map) {
            return true;
        }
    }
    false
}

fn is_class_map(map: &ArcMap) -> bool
    ensures { result ≡ is_class_map map.now }
{
    same_kind(ArcKind::Inherits, map.kind) || same_kind(ArcKind::Specializes, map.kind)
}
