//! The keys that are read for a tree: at its nodes, and at those of each listing that was made on the way.
ghost use Rattle.std.specs.Prelude.{◌≡◌, ◌++◌, map, IfOk, OnOk};
ghost use Rattle.composition.specs.Paths.{limits};
ghost use Rattle.layer_set.specs.LookUps.{look_ups};
ghost use Rattle.node_branches.specs.Children.{node_in_round};
ghost use Rattle.prim_index.specs.Depths.{frames_below, full_tree, round_below, rounds_below};
ghost use Rattle.prim_index.specs.Loading.{loads};
ghost use Rattle.prim_index.specs.Reading.{said};
ghost use Rattle.prim_reads.specs.Gathered.{child_keys, children_keys, names_keys, rounds_keys, tree_keys};
ghost use Rattle.prim_trees.specs.Meant.{led, meant};

use crate::node::push_node;
use class_arcs::same_kind;
use layer_set::{Key, World};
use node_branches::{above_target, front, node_at, node_in_round, with_first};
use path_maps::ArcKind;
use plain_data::Items;
use prim_index::{
    MAX_NODES, MAX_ROUNDS, Payloads, choice_count, first_frame, is_loaded, is_settled, next_frame,
    path_length, tree_at,
};
use prim_nodes::{Frame, Node};
use prim_trees::{Child, Tree};
use std::alloc::AllocError;

/// Appends what is read for a tree, where so many variants may follow each other.
#[cycle(gather)]
pub fn gather_tree(
    out: &mut Items<Key>,
    world: &World,
    depth: usize,
    steps: usize,
    tree: &Tree,
) -> Result<(), AllocError>
    ensures { OnOk result (out.new ≡ out.old ++ tree_keys (look_ups world.now) depth steps (meant tree.now)) }
{
    push_node(out, world, &tree.node, &tree.here)?;
    gather_children(out, world, depth, steps, &tree.node, tree.own.as_slice())?;
    gather_children(out, world, depth, steps, &tree.node, tree.lifted.as_slice())?;
    Ok(())
}

/// Appends what is read for children of a node.
#[cycle(gather)]
#[tactic(auto, unfolding(crate::specs::Gathered::children_keys))]
fn gather_children(
    out: &mut Items<Key>,
    world: &World,
    depth: usize,
    steps: usize,
    node: &Node,
    children: &[Child],
) -> Result<(), AllocError>
    ensures { OnOk result (out.new ≡ out.old ++ children_keys (look_ups world.now) depth steps node.now (map led children.now)) }
{
    for child in children {
        gather_child(out, world, depth, steps, node, child)?;
    }
    Ok(())
}

/// Appends what is read for a child: for the prims above the target, and for the tree. A variant asks no prims above its target.
#[cycle(gather)]
fn gather_child(
    out: &mut Items<Key>,
    world: &World,
    depth: usize,
    steps: usize,
    node: &Node,
    child: &Child,
) -> Result<(), AllocError>
    ensures { OnOk result (out.new ≡ out.old ++ child_keys (look_ups world.now) depth steps node.now (led child.now)) }
{
    if same_kind(ArcKind::Variant, child.branch.kind) {
        if steps == 0 {
            return Ok(());
        }
        gather_tree(out, world, depth, steps - 1, &child.tree)?;
        return Ok(());
    }
    if depth == 0 {
        return Ok(());
    }
    let target = above_target(out.allocator(), depth - 1, node, &child.branch)?;
    let count = path_length(&target);
    let frames = gather_frames(out, world, depth - 1, Payloads::All, &target, count)?;
    drop((target, frames));
    gather_tree(out, world, depth - 1, MAX_NODES, &child.tree)?;
    Ok(())
}

/// The frames of the first names of a node's path; what is read for them is appended.
#[cycle(gather)]
pub fn gather_frames(
    out: &mut Items<Key>,
    world: &World,
    depth: usize,
    payloads: Payloads,
    node: &Node,
    count: usize,
) -> Result<Items<Frame>, AllocError>
    ensures frames { IfOk result (λ frames. frames ≡ frames_below limits (said limits (look_ups world.now)) depth (loads (look_ups world.now) payloads) node.now count) }
    ensures read { IfOk result (λ frames. out.new ≡ out.old ++ names_keys (look_ups world.now) depth (loads (look_ups world.now) payloads) node.now count) }
{
    if count == 0 {
        return Ok(Items::new(out.allocator()));
    }
    let above = gather_frames(out, world, depth, payloads, node, count - 1)?;
    let path = front(&node.path, count)?;
    let on = is_loaded(world, payloads, &path)?;
    let first = first_frame(out.allocator(), on);
    let there = node_at(node, path)?;
    let frame = match gather_rounds(out, world, depth, MAX_ROUNDS, &there, &above, first) {
        Ok(frame) => {
            drop(there);
            frame
        }
        Err(error) => {
            drop((there, above));
            return Err(error);
        }
    };
    with_first(frame, &above)
}

/// The frame of a prim after so many further rounds of choices; what is read for them is appended.
#[cycle(gather)]
pub fn gather_rounds(
    out: &mut Items<Key>,
    world: &World,
    depth: usize,
    rounds: usize,
    node: &Node,
    above: &Items<Frame>,
    frame: Frame,
) -> Result<Frame, AllocError>
    ensures frame { IfOk result (λ last. last ≡ rounds_below limits (said limits (look_ups world.now)) depth rounds node.now above.now frame) }
    ensures read { IfOk result (λ last. out.new ≡ out.old ++ rounds_keys (look_ups world.now) depth rounds node.now above.now frame) }
{
    if rounds == 0 {
        return Ok(frame);
    }
    let count = choice_count(&frame);
    let next = gather_round(out, world, depth, node, above, frame)?;
    let settled = is_settled(&next, count);
    if settled {
        return Ok(next);
    }
    gather_rounds(out, world, depth, rounds - 1, node, above, next)
}

/// The frame of a prim after one more round of choices; what is read for its tree is appended.
#[cycle(gather)]
fn gather_round(
    out: &mut Items<Key>,
    world: &World,
    depth: usize,
    node: &Node,
    above: &Items<Frame>,
    frame: Frame,
) -> Result<Frame, AllocError>
    ensures frame { IfOk result (λ next. next ≡ round_below limits (said limits (look_ups world.now)) depth node.now above.now frame) }
    ensures read { IfOk result (λ next. out.new ≡ out.old ++ tree_keys (look_ups world.now) depth 4096 (full_tree limits (said limits (look_ups world.now)) depth (node_in_round node.now above.now frame))) }
{
    let there = node_in_round(node, above, &frame)?;
    let tree = tree_at(out.allocator(), world, depth, MAX_NODES, MAX_NODES, there)?;
    gather_tree(out, world, depth, MAX_NODES, &tree)?;
    let next = next_frame(out.allocator(), frame, &tree);
    drop(tree);
    next
}
