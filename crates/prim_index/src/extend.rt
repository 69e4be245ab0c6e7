//! A tree one level down: what stands below an arc that the tree knows is what stood there, one level down, and all else is grown.
ghost use Rattle.std.specs.Prelude.{◌≡◌, ◌-◌, IfOk, option_map};
ghost use Rattle.composition.specs.Paths.{limits};
ghost use Rattle.composition.specs.Trees.{size_among, own_branches, lifted_branches};
ghost use Rattle.layer_set.specs.LookUps.{look_ups};
ghost use Rattle.prim_trees.specs.Meant.{meant, trees_of};
ghost use Rattle.prim_index.specs.Extending.{extended_by, fresh, grown_from, arc_tree, known_of, found_in};

use crate::grow::{Grown, MAX_NODES, child_at, joined_tree, led_child};
use crate::lower::{here_below, is_same_arc, lowered_node};
use layer_set::World;
use node_branches::{lifted_branches, own_branches};
use plain_data::Items;
use prim_nodes::{Branch, Frame, Here, Node};
use prim_trees::{Child, Tree};
use site_order::size;
use std::alloc::{AllocError, Global};

/// The tree one level down by the frame and the name of that level, of so many nodes at most.
#[cycle(extend)]
pub fn extended_tree_by(
    alloc: Global,
    world: &World,
    frame: &Frame,
    name: &str,
    room: usize,
    tree: &Tree,
) -> Result<Tree, AllocError>
    ensures { IfOk result (λ below. meant below ≡ extended_by (look_ups world.now) frame.now name.now (meant tree.now) room) }
{
    let node = lowered_node(&tree.node, name, frame)?;
    let here = match here_below(alloc, world, &node, &tree.here) {
        Ok(here) => here,
        Err(error) => {
            drop(node);
            return Err(error);
        }
    };
    let left = room.saturating_sub(1);
    match grown_below(alloc, world, frame, name, left, tree, &node, &here) {
        Ok(grown) => Ok(joined_tree(node, here, grown.0, grown.1)),
        Err(error) => {
            drop((node, here));
            Err(error)
        }
    }
}

/// What stands below a node: under its own arcs, and under the classes that these hand up. The tree is that of the node one level up.
#[cycle(extend)]
fn grown_below(
    alloc: Global,
    world: &World,
    frame: &Frame,
    name: &str,
    room: usize,
    tree: &Tree,
    node: &Node,
    here: &Here,
) -> Result<(Grown, Grown), AllocError>
    ensures own { IfOk result (λ both. trees_of both.0.children both.0.is_cut ≡ grown_from (arc_tree (look_ups world.now) frame.now name.now (meant tree.now) node.now) room (own_branches node.now here.now)) }
    ensures lifted { IfOk result (λ both. trees_of both.1.children both.1.is_cut ≡ grown_from (arc_tree (look_ups world.now) frame.now name.now (meant tree.now) node.now) (room - size_among (trees_of both.0.children both.0.is_cut)) (lifted_branches limits node.now (trees_of both.0.children both.0.is_cut))) }
{
    let arcs = own_branches(alloc, node, here)?;
    let own = children_below(alloc, world, frame, name, room, tree, node, arcs.as_slice())?;
    let arcs = lifted_branches(alloc, node, own.children.as_slice())?;
    let lifted = children_below(
        alloc,
        world,
        frame,
        name,
        own.room,
        tree,
        node,
        arcs.as_slice(),
    )?;
    Ok((own, lifted))
}

/// The children of arcs of a node, as far as there is room. The tree is that of the node one level up.
#[cycle(extend)]
fn children_below(
    alloc: Global,
    world: &World,
    frame: &Frame,
    name: &str,
    room: usize,
    tree: &Tree,
    node: &Node,
    arcs: &[Branch],
) -> Result<Grown, AllocError>
    ensures trees { IfOk result (λ g. trees_of g.children g.is_cut ≡ grown_from (arc_tree (look_ups world.now) frame.now name.now (meant tree.now) node.now) room arcs.now) }
    ensures room { IfOk result (λ g. g.room ≡ room - size_among (trees_of g.children g.is_cut)) }
{
    let mut children = Items::new(alloc);
    let mut left = room;
    for branch in arcs {
        if left == 0 {
            return Ok(Grown {
                children,
                is_cut: true,
                room: 0,
            });
        }
        let below = child_below(alloc, world, frame, name, left, tree, node, branch)?;
        left = left.saturating_sub(size(&below));
        let child = led_child(branch, below)?;
        children.push(child)?;
    }
    Ok(Grown {
        children,
        is_cut: false,
        room: left,
    })
}

/// What stands below an arc of a node: what the tree of the node one level up has there, one level down, or else what is grown from nothing.
#[cycle(extend)]
fn child_below(
    alloc: Global,
    world: &World,
    frame: &Frame,
    name: &str,
    room: usize,
    tree: &Tree,
    node: &Node,
    branch: &Branch,
) -> Result<Tree, AllocError>
    ensures { IfOk result (λ below. meant below ≡ arc_tree (look_ups world.now) frame.now name.now (meant tree.now) node.now branch.now room) }
{
    if branch.level > 0 {
        let own = known_below(alloc, world, frame, name, room, tree.own.as_slice(), branch)?;
        if let Some(below) = own {
            return Ok(below);
        }
        let lifted = known_below(
            alloc,
            world,
            frame,
            name,
            room,
            tree.lifted.as_slice(),
            branch,
        )?;
        if let Some(below) = lifted {
            return Ok(below);
        }
    }
    fresh_child(alloc, world, room, node, branch)
}

/// What stands below an arc of a node, grown from nothing.
fn fresh_child(
    alloc: Global,
    world: &World,
    room: usize,
    node: &Node,
    branch: &Branch,
) -> Result<Tree, AllocError>
    ensures { IfOk result (λ below. meant below ≡ fresh (look_ups world.now) node.now branch.now room) }
{
    let below = child_at(alloc, world, node.depth, MAX_NODES, room, node, branch)?;
    Ok(below)
}

/// What stood below the first of these children to which an arc leads, one level down.
#[cycle(extend)]
fn known_below(
    alloc: Global,
    world: &World,
    frame: &Frame,
    name: &str,
    room: usize,
    children: &[Child],
    branch: &Branch,
) -> Result<Option<Tree>, AllocError>
    ensures { IfOk result (λ below. option_map meant below ≡ found_in (known_of (look_ups world.now) frame.now name.now children.now) branch.now room) }
{
    for child in children {
        if is_same_arc(&child.branch, branch) {
            let below = extended_tree_by(alloc, world, frame, name, room, &child.tree)?;
            return Ok(Some(below));
        }
    }
    Ok(None)
}
