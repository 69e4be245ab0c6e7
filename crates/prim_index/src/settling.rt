//! The tree at a plain prim path. The last round of its choices makes it, unless the rounds rest on an overgrown listing.
ghost use Rattle.std.specs.Prelude.{◌≡◌, [], IfOk};
ghost use Rattle.std.specs.Option.{IfSome};
ghost use Rattle.composition.specs.Paths.{limits};
ghost use Rattle.composition.specs.Nodes.{bare_node};
ghost use Rattle.composition.specs.World.{identity};
ghost use Rattle.layer_set.specs.LookUps.{look_ups};
ghost use Rattle.prim_trees.specs.Meant.{meant};
ghost use Rattle.prim_index.specs.Answer.{stage_tree_at};
ghost use Rattle.node_branches.specs.Children.{node_in_round};
ghost use Rattle.prim_index.specs.Depths.{tree_below, rounds_below};
ghost use Rattle.prim_index.specs.Reading.{said};
ghost use Rattle.prim_index.specs.Settling.{framed};

use crate::grow::{
    MAX_DEPTH, MAX_NODES, MAX_ROUNDS, Payloads, choice_count, first_frame, frames_at, is_loaded,
    is_settled, next_frame, path_length, tree_at,
};
use layer_set::World;
use node_branches::{node_in_round, with_first};
use plain_data::{Items, copy};
use prim_nodes::{Frame, Node};
use prim_trees::Tree;
use prim_view::StackName;
use sdf_paths::Path;
use sdf_values::LayerOffset;
use std::alloc::{AllocError, Global};

/// A frame after its rounds of choices.
#[derive(Drop)]
pub struct Settled {
    /// The frame.
    pub frame: Frame,
    /// The tree with this frame, where the last round made it.
    pub tree: Option<Tree>,
}

/// The node of the stage at a path, before anything is chosen.
fn bare_stage_node(alloc: Global, place: &Path) -> Result<Node, AllocError>
    ensures { IfOk result (λ node. node ≡ bare_node StackName.Root place.now [] 64 identity) }
{
    Ok(Node {
        stack: StackName::Root,
        path: copy(place)?,
        frames: Items::new(alloc),
        chain: Items::new(alloc),
        depth: MAX_DEPTH,
        offset: LayerOffset::identity(),
        maps: Items::new(alloc),
    })
}

/// The node with these frames.
#[tactic(auto, unfolding(crate::specs::Settling::framed))]
fn with_frames(node: Node, frame: Frame, above: &Items<Frame>) -> Result<Node, AllocError>
    ensures { IfOk result (λ n. n ≡ framed node frame above.now) }
{
    let mut node = node;
    match with_first(frame, above) {
        Ok(frames) => {
            node.frames = frames;
            Ok(node)
        }
        Err(error) => {
            drop(node);
            Err(error)
        }
    }
}

/// The tree of a round of choices.
fn round_tree(
    alloc: Global,
    world: &World,
    node: &Node,
    above: &Items<Frame>,
    frame: &Frame,
) -> Result<Tree, AllocError>
    ensures { IfOk result (λ tree. meant tree ≡ tree_below limits (said limits (look_ups world.now)) 64 4096 4096 (node_in_round node.now above.now frame.now)) }
{
    let there = node_in_round(node, above, frame)?;
    let tree = tree_at(alloc, world, MAX_DEPTH, MAX_NODES, MAX_NODES, there)?;
    Ok(tree)
}

/// The frame at a plain prim path after so many further rounds of choices, with the tree that it gives where the last round made it:
/// after a round that decides nothing another would be the same, and so would be the tree.
fn settled_at(
    alloc: Global,
    world: &World,
    rounds: usize,
    node: &Node,
    above: &Items<Frame>,
    frame: Frame,
) -> Result<Settled, AllocError>
    ensures frame { IfOk result (λ s. s.frame ≡ rounds_below limits (said limits (look_ups world.now)) 64 rounds node.now above.now frame) }
    ensures tree { IfOk result (λ s. IfSome s.tree (λ t. meant t ≡ tree_below limits (said limits (look_ups world.now)) 64 4096 4096 (framed node.now s.frame above.now))) }
{
    if rounds == 0 {
        return Ok(Settled { frame, tree: None });
    }
    let count = choice_count(&frame);
    let tree = round_tree(alloc, world, node, above, &frame)?;
    let next = match next_frame(alloc, frame, &tree) {
        Ok(next) => next,
        Err(error) => {
            drop(tree);
            return Err(error);
        }
    };
    let settled = is_settled(&next, count);
    if !settled {
        drop(tree);
        return settled_at(alloc, world, rounds - 1, node, above, next);
    }
    if next.overgrown {
        drop(tree);
        return Ok(Settled {
            frame: next,
            tree: None,
        });
    }
    Ok(Settled {
        frame: next,
        tree: Some(tree),
    })
}

/// The tree of a prim with a frame, where it is not known yet.
fn tree_with(
    alloc: Global,
    world: &World,
    node: Node,
    above: &Items<Frame>,
    settled: Settled,
) -> Result<Tree, AllocError>
    requires { IfSome settled.tree (λ t. meant t ≡ tree_below limits (said limits (look_ups world.now)) 64 4096 4096 (framed node settled.frame above.now)) }
    ensures { IfOk result (λ tree. meant tree ≡ tree_below limits (said limits (look_ups world.now)) 64 4096 4096 (framed node settled.frame above.now)) }
{
    let Settled { frame, tree } = settled;
    match tree {
        Some(tree) => {
            drop((node, frame));
            Ok(tree)
        }
        None => {
            let node = with_frames(node, frame, above)?;
            let tree = tree_at(alloc, world, MAX_DEPTH, MAX_NODES, MAX_NODES, node)?;
            Ok(tree)
        }
    }
}

/// The tree at a plain prim path, or at `/`, made from the root.
///
/// # Errors
///
/// Memory ran out.
pub fn stage_tree(alloc: Global, world: &World, place: &Path) -> Result<Tree, AllocError>
    ensures { IfOk result (λ tree. meant tree ≡ stage_tree_at limits (look_ups world.now) place.now) }
{
    let begun = bare_stage_node(alloc, place)?;
    let count = path_length(&begun);
    if count == 0 {
        let tree = tree_at(alloc, world, MAX_DEPTH, MAX_NODES, MAX_NODES, begun)?;
        return Ok(tree);
    }
    let above = match frames_at(alloc, world, MAX_DEPTH, Payloads::Ruled, &begun, count - 1) {
        Ok(above) => above,
        Err(error) => {
            drop(begun);
            return Err(error);
        }
    };
    let on = match is_loaded(world, Payloads::Ruled, place) {
        Ok(on) => on,
        Err(error) => {
            drop((begun, above));
            return Err(error);
        }
    };
    let first = first_frame(alloc, on);
    let settled = match settled_at(alloc, world, MAX_ROUNDS, &begun, &above, first) {
        Ok(settled) => settled,
        Err(error) => {
            drop((begun, above));
            return Err(error);
        }
    };
    let tree = tree_with(alloc, world, begun, &above, settled)?;
    Ok(tree)
}
