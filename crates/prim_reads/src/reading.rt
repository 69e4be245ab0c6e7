//! What a path reads, in the order of keys.
ghost use Rattle.std.specs.Prelude.{◌≡◌, ◌≢◌, ◌++◌, ◌==◌, true, [], if◌then◌else◌, length, IfOk, OnOk};
ghost use Rattle.std.specs.List.{list_all};
ghost use Rattle.std.specs.Option.{IfSome, option_copied};
ghost use Rattle.composition.specs.Nodes.{bare, bare_node};
ghost use Rattle.composition.specs.Paths.{limits, up};
ghost use Rattle.composition.specs.World.{identity};
ghost use Rattle.layer_set.specs.LookUps.{look_ups};
ghost use Rattle.prim_index.specs.Answer.{stage_tree_at};
ghost use Rattle.prim_reads.specs.Gathered.{is_plain, is_no_body, own_keys, own_rounds, rounds_keys, without_bodies};
ghost use Rattle.prim_reads.specs.Reads.{listed_reads};
ghost use Rattle.prim_trees.specs.Meant.{meant};
ghost use Rattle.sdf_paths.specs.Paths.{is_prim_name};

use crate::bodies::push_own_bodies;
use crate::gather::{gather_rounds, gather_tree};
use crate::node::{push_asked, push_bodies_at};
use class_arcs::path_above;
use key_sets::in_order;
use layer_set::{Key, World};
use layer_stack::StackName;
use list_ops::push_all;
use plain_data::{Items, copy};
use prim_index::{MAX_DEPTH, MAX_NODES, MAX_ROUNDS, first_frame, has_prims_alone, stage_tree};
use prim_nodes::{Frame, Node};
use prim_trees::Tree;
use sdf_paths::Path;
use sdf_values::LayerOffset;
use std::alloc::{AllocError, Global};

/// The node of the stage at a path, before anything is chosen.
fn bare_stage_node(alloc: Global, place: &Path) -> Result<Node, AllocError>
    ensures { IfOk result (λ node. node ≡ bare_node StackName.Root place.now [] 64 identity) }
{
    Ok(Node {
        stack: StackName::Root,
        path: copy(place)?,
        frames: Items::new(alloc),
        chain: Items::new(alloc),
        depth: MAX_DEPTH,
        offset: LayerOffset::identity(),
        maps: Items::new(alloc),
    })
}

/// Frames as a list of their own.
fn copied(alloc: Global, frames: &[Frame]) -> Result<Items<Frame>, AllocError>
    ensures { IfOk result (λ own. own ≡ frames.now) }
{
    let mut own = Items::new(alloc);
    push_all(&mut own, frames)?;
    Ok(own)
}

/// Appends what is read in the rounds of choices of a prim, which are made again.
fn gather_again(
    out: &mut Items<Key>,
    world: &World,
    place: &Path,
    loaded: bool,
    above: &[Frame],
) -> Result<(), AllocError>
    ensures { OnOk result (out.new ≡ out.old ++ rounds_keys (look_ups world.now) 64 16 (bare_node StackName.Root place.now [] 64 identity) above.now (record bare { loaded = loaded })) }
{
    let node = bare_stage_node(out.allocator(), place)?;
    let above = copied(out.allocator(), above)?;
    let first = first_frame(out.allocator(), loaded);
    let last = gather_rounds(out, world, MAX_DEPTH, MAX_ROUNDS, &node, &above, first)?;
    drop((node, above, last));
    Ok(())
}

/// Whether the rounds that gave a frame made the prim's own tree alone: it chooses nothing, and no listing was overgrown.
fn is_plain(frame: &Frame) -> bool
    ensures { result ≡ is_plain frame.now }
{
    frame.choices.len() == 0 && !frame.overgrown
}

/// Appends what is read in the rounds of choices of a prim, of whose node these are the frames, but for its own tree.
#[tactic(auto, unfolding(crate::specs::Gathered::own_rounds))]
fn gather_own_rounds(
    out: &mut Items<Key>,
    world: &World,
    place: &Path,
    frames: &[Frame],
) -> Result<(), AllocError>
    ensures { OnOk result (out.new ≡ out.old ++ own_rounds (look_ups world.now) place.now frames.now) }
{
    match frames {
        [] => Ok(()),
        [own, above @ ..] => {
            if is_plain(own) {
                return Ok(());
            }
            gather_again(out, world, place, own.loaded, above)?;
            Ok(())
        }
    }
}

/// Appends what a prim reads and the prim above it does not, by its tree.
#[tactic(auto, unfolding(crate::specs::Gathered::own_keys))]
fn gather_own(
    out: &mut Items<Key>,
    world: &World,
    place: &Path,
    tree: &Tree,
) -> Result<(), AllocError>
    ensures { OnOk result (out.new ≡ out.old ++ own_keys (look_ups world.now) place.now (meant tree.now)) }
{
    out.push(Key::Load(copy(place)?))?;
    gather_own_rounds(out, world, place, tree.node.frames.as_slice())?;
    gather_tree(out, world, MAX_DEPTH, MAX_NODES, tree)?;
    push_own_bodies(out, world, tree)?;
    Ok(())
}

/// Whether a key is none of a body.
fn is_no_body(key: &Key) -> bool
    ensures { result ≡ is_no_body key.now }
{
    match key {
        Key::Head(_) => true,
        Key::Arcs(_, _) => true,
        Key::Body(_, _) => false,
        Key::Load(_) => true,
    }
}

/// Those of the keys that are none of bodies.
#[tactic(auto, unfolding(crate::specs::Gathered::without_bodies))]
fn without_bodies(alloc: Global, keys: &[Key]) -> Result<Items<Key>, AllocError>
    ensures { IfOk result (λ kept. kept ≡ without_bodies keys.now) }
{
    let mut kept = Items::new(alloc);
    for key in keys {
        if is_no_body(key) {
            kept.push(copy(key)?)?;
        }
    }
    Ok(kept)
}

/// What `/` reads: the heads that the root's stack asks, and the names of root prims.
fn reads_of_root(alloc: Global, world: &World, root: &Path) -> Result<Items<Key>, AllocError>
    requires { root.now ≡ [] }
    ensures { IfOk result (λ keys. keys ≡ listed_reads world.now []) }
{
    let mut out = Items::new(alloc);
    push_asked(&mut out, world, &StackName::Root)?;
    push_bodies_at(&mut out, world, &StackName::Root, root)?;
    let keys = in_order(alloc, out)?;
    Ok(keys)
}

/// What a prim reads as the prim above it does, by what that reads; none where `/` stands above it.
fn taken_over(alloc: Global, place: &Path, above: &[Key]) -> Result<Items<Key>, AllocError>
    ensures { IfOk result (λ front. front ≡ (if length place.now == 1 then [] else without_bodies above.now)) }
{
    if place.elements().len() == 1 {
        return Ok(Items::new(alloc));
    }
    without_bodies(alloc, above)
}

/// What a prim reads, by its tree and by what the prim above it reads: that without the bodies there, and what is read for its own level.
fn reads_of_prim(
    alloc: Global,
    world: &World,
    place: &Path,
    tree: &Tree,
    above: &[Key],
) -> Result<Items<Key>, AllocError>
    requires below { place.now ≢ [] }
    requires prims { list_all is_prim_name place.now ≡ true }
    requires tree { meant tree.now ≡ stage_tree_at limits (look_ups world.now) place.now }
    requires above { above.now ≡ listed_reads world.now (up place.now 1) }
    ensures { IfOk result (λ keys. keys ≡ listed_reads world.now place.now) }
{
    let mut out = taken_over(alloc, place, above)?;
    gather_own(&mut out, world, place, tree)?;
    let keys = in_order(alloc, out)?;
    Ok(keys)
}

/// What a prim reads, by what the prim above it reads.
fn reads_below(
    alloc: Global,
    world: &World,
    place: &Path,
    tree: Option<&Tree>,
    above: &[Key],
) -> Result<Items<Key>, AllocError>
    requires below { place.now ≢ [] }
    requires prims { list_all is_prim_name place.now ≡ true }
    requires tree { IfSome tree (λ t. meant t.now ≡ stage_tree_at limits (look_ups world.now) place.now) }
    requires above { above.now ≡ listed_reads world.now (up place.now 1) }
    ensures { IfOk result (λ keys. keys ≡ listed_reads world.now place.now) }
{
    match tree {
        Some(tree) => reads_of_prim(alloc, world, place, tree, above),
        None => {
            let tree = stage_tree(alloc, world, place)?;
            let keys = reads_of_prim(alloc, world, place, &tree, above);
            drop(tree);
            keys
        }
    }
}

/// The keys that a path reads, each once in the order of keys: of a prim, of `/`, and of any other path none.
///
/// The tree of the prim and what the path above it reads are taken where they are told, and else made from the root.
///
/// # Errors
///
/// Memory ran out.
pub fn reads_at(
    alloc: Global,
    world: &World,
    place: &Path,
    tree: Option<&Tree>,
    above: Option<&Items<Key>>,
) -> Result<Items<Key>, AllocError>
    requires tree { IfSome tree (λ t. meant t.now ≡ stage_tree_at limits (look_ups world.now) place.now) }
    requires above { IfSome above (λ keys. keys.now ≡ listed_reads world.now (up place.now 1)) }
    ensures { IfOk result (λ keys. keys ≡ listed_reads world.now place.now) }
{
    if place.is_root() {
        return reads_of_root(alloc, world, place);
    }
    if !has_prims_alone(place) {
        return Ok(Items::new(alloc));
    }
    match above {
        Some(above) => reads_below(alloc, world, place, tree, above.as_slice()),
        None => {
            let parent = path_above(place, 1)?;
            let above = reads_at(alloc, world, &parent, None, None)?;
            let keys = reads_below(alloc, world, place, tree, above.as_slice());
            drop((parent, above));
            keys
        }
    }
}
