ghost use Rattle.std.specs.Prelude.{◌≡◌, true, false, IfOk};
ghost use Rattle.std.specs.List.{list_all};
ghost use Rattle.composition.specs.Nodes.{frame_at};
ghost use Rattle.composition.specs.Trees.{node_of};
ghost use Rattle.composition.specs.Paths.{limits};
ghost use Rattle.layer_set.specs.LookUps.{look_ups};
ghost use Rattle.prim_trees.specs.Meant.{meant};
ghost use Rattle.sdf_paths.specs.Paths.{is_prim_name};
ghost use Rattle.prim_index.specs.Answer.{index_at, indexed_of, nothing_there, sites_in, choices_in, faults_in, is_none};

use crate::faults::faults_once;
use crate::settling::stage_tree;
use layer_set::World;
use plain_data::{Items, copy};
use prim_nodes::Node;
use prim_trees::Tree;
use prim_view::{Choices, PrimFault, Site};
use sdf_paths::Path;
use site_order::{arc_faults, is_overgrown_on_the_way, sites};
use std::alloc::{AllocError, Global};
use std::marker::Model;

/// What composition makes of a prim before it looks at values.
///
/// Contracts see it as the index of composition's definitions, or as none where a listing was overgrown.
#[derive(Debug, Drop)]
pub struct PrimIndex {
    sites: Items<Site>,
    choices: Choices,
    faults: Items<PrimFault>,
    is_overgrown: bool,
}

impl Model for PrimIndex {
    ghost use Rattle.std.specs.Prelude.{◌≡◌, true, false, Option, Some, None};
    ghost use Rattle.composition.specs.Faults.{Index, overgrown};
    ghost use Rattle.prim_index.specs.Answer.{viewed, IsAnswer};

    ghost Value = { Option Index };

    ghost view = { λ i. viewed i.is_overgrown i.choices i.sites i.faults };

    ghost invariant = { λ i. IsAnswer i.is_overgrown i.choices i.sites i.faults };
}

impl PrimIndex {
    /// The sites of the prim, from strong to weak.
    pub fn sites(&self) -> &[Site]
        ensures { result.now ≡ sites_in self.now }
    {
        self.sites.as_slice()
    }

    /// The variants that are chosen for the prim.
    pub fn choices(&self) -> &Choices
        ensures { result.now ≡ choices_in self.now }
    {
        &self.choices
    }

    /// The faults of the prim's arcs, each once; of an overgrown prim that one alone.
    pub fn faults(&self) -> &[PrimFault]
        ensures { result.now ≡ faults_in self.now }
    {
        self.faults.as_slice()
    }

    /// Whether a listing of more than 4,096 nodes was met on the way. Such a prim has no site and no choice.
    pub fn is_overgrown(&self) -> bool
        ensures { result ≡ is_none self.now }
    {
        self.is_overgrown
    }
}

/// The index at what is neither a plain prim path nor `/`.
fn nothing_there(alloc: Global) -> PrimIndex
    ensures { result ≡ Some nothing_there }
{
    PrimIndex {
        sites: Items::new(alloc),
        choices: Items::new(alloc),
        faults: Items::new(alloc),
        is_overgrown: false,
    }
}

/// The index of an overgrown prim.
fn overgrown(alloc: Global) -> Result<PrimIndex, AllocError>
    ensures { IfOk result (λ i. i ≡ None) }
{
    let mut faults = Items::new(alloc);
    faults.push(PrimFault::Overgrown)?;
    Ok(PrimIndex {
        sites: Items::new(alloc),
        choices: Items::new(alloc),
        faults,
        is_overgrown: true,
    })
}

/// The variants that are chosen at a node.
fn choices_of(alloc: Global, node: &Node) -> Result<Choices, AllocError>
    ensures { IfOk result (λ choices. choices ≡ (frame_at node.now 0).choices) }
{
    match node.frames.get(0) {
        Some(frame) => copy(&frame.choices),
        None => Ok(Items::new(alloc)),
    }
}

/// The variants that are chosen at the root of a tree.
#[tactic(auto, using(prim_trees::specs::Unfolded::node_is))]
fn choices_at(alloc: Global, tree: &Tree) -> Result<Choices, AllocError>
    ensures { IfOk result (λ choices. choices ≡ (frame_at (node_of (meant tree.now)) 0).choices) }
{
    let choices = choices_of(alloc, &tree.node)?;
    Ok(choices)
}

/// An index that is not overgrown.
fn told(choices: Choices, sites: Items<Site>, faults: Items<PrimFault>) -> PrimIndex
    ensures { result ≡ Some (record { choices = choices; sites = sites; faults = faults }) }
{
    PrimIndex {
        sites,
        choices,
        faults,
        is_overgrown: false,
    }
}

/// The index of the prim whose tree this is.
///
/// # Errors
///
/// Memory ran out.
pub fn index_of(alloc: Global, tree: &Tree) -> Result<PrimIndex, AllocError>
    ensures { IfOk result (λ i. i ≡ indexed_of limits (meant tree.now)) }
{
    let over = is_overgrown_on_the_way(tree);
    if over {
        return overgrown(alloc);
    }
    let found = sites(alloc, tree)?;
    let choices = choices_at(alloc, tree)?;
    let all = arc_faults(alloc, tree)?;
    let faults = faults_once(alloc, all.as_slice())?;
    Ok(told(choices, found, faults))
}

/// The index at a plain prim path, or at `/`.
fn index_of_prim(alloc: Global, world: &World, place: &Path) -> Result<PrimIndex, AllocError>
    ensures { IfOk result (λ i. i ≡ index_at limits (look_ups world.now) place.now) }
{
    let tree = stage_tree(alloc, world, place)?;
    index_of(alloc, &tree)
}

/// Whether a path has names of prims alone, as `/` and plain prim paths have.
pub fn has_prims_alone(path: &Path) -> bool
    ensures { result ≡ list_all is_prim_name path.now }
{
    if path.is_property() {
        return false;
    }
    path.is_plain()
}

/// The index at a path, as composition is defined: at a plain prim path, whether or not the stage has a prim there, and at `/`, whose
/// one site is the root of the stage. At any other path (a property's, one with variant selections) there is no site, choice or fault.
///
/// # Errors
///
/// Memory ran out.
pub fn index(alloc: Global, world: &World, place: &Path) -> Result<PrimIndex, AllocError>
    ensures prim { list_all is_prim_name place.now ≡ true → IfOk result (λ i. i ≡ index_at limits (look_ups world.now) place.now) }
    ensures other { list_all is_prim_name place.now ≡ false → IfOk result (λ i. i ≡ Some nothing_there) }
{
    if has_prims_alone(place) {
        return index_of_prim(alloc, world, place);
    }
    Ok(nothing_there(alloc))
}
