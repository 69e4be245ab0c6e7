//! The tree of a node, the frames of a prim, and the rounds of choices, which rest on each other.
ghost use Rattle.std.specs.Prelude.{◌≡◌, ◌==◌, ◌-◌, [], IfOk, length};
ghost use Rattle.composition.specs.Paths.{limits};
ghost use Rattle.composition.specs.Trees.{node as node_of_tree, none, cut, size_among, own_branches, lifted_branches};
ghost use Rattle.composition.specs.Nodes.{bare, nothing_said};
ghost use Rattle.node_branches.specs.Children.{arc_child_with};
ghost use Rattle.layer_set.specs.LookUps.{look_ups};
ghost use Rattle.prim_trees.specs.Meant.{led, meant, trees_of};
ghost use Rattle.prim_index.specs.Reading.{said};
ghost use Rattle.prim_index.specs.Depths.{tree_below, child_below, grown_below, frames_below, round_below, rounds_below};
ghost use Rattle.prim_index.specs.Loading.{loads};
ghost use Rattle.prim_index.specs.Grown.{with_round};

use crate::reading::here_at;
use class_arcs::same_kind;
use layer_set::World;
use list_ops::push_all;
use node_branches::{
    above_target, arc_child, chosen_child, front, lifted_branches, node_at, node_in_round,
    own_branches, with_first,
};
use path_maps::ArcKind;
use plain_data::{Items, copy};
use prim_nodes::{Branch, Frame, Here, Node};
use prim_trees::{Child, Tree};
use sdf_paths::Path;
use site_order::{decided, is_overgrown_on_the_way, size};
use std::alloc::{AllocError, Global};

/// How many arcs stand on one chain at most.
pub const MAX_DEPTH: usize = 64;

/// How many nodes a tree has at most.
pub const MAX_NODES: usize = 4096;

/// How many rounds of choices are made at most.
pub const MAX_ROUNDS: usize = 16;

/// The payloads that are followed.
#[derive(Clone, Copy, Drop)]
pub enum Payloads {
    /// Those of prims that the world's rules load.
    Ruled,
    /// All.
    All,
}

/// The children that some arcs have.
#[derive(Drop)]
pub struct Grown {
    /// The children.
    pub children: Items<Child>,
    /// Whether there was no room for further ones.
    pub is_cut: bool,
    /// For how many nodes there is room after them.
    pub room: usize,
}

/// The tree of a node, of so many nodes at most.
#[cycle(grow)]
pub fn tree_at(
    alloc: Global,
    world: &World,
    depth: usize,
    steps: usize,
    room: usize,
    node: Node,
) -> Result<Tree, AllocError>
    ensures { IfOk result (λ tree. meant tree ≡ tree_below limits (said limits (look_ups world.now)) depth steps room node) }
{
    let here = match here_at(alloc, world, &node) {
        Ok(here) => here,
        Err(error) => {
            drop(node);
            return Err(error);
        }
    };
    if steps == 0 {
        return Ok(cut_tree(alloc, node, here));
    }
    let room = room.saturating_sub(1);
    match grown_at(alloc, world, depth, steps - 1, room, &node, &here) {
        Ok(grown) => Ok(joined_tree(node, here, grown.0, grown.1)),
        Err(error) => {
            drop((node, here));
            Err(error)
        }
    }
}

/// What stands below a node: under its own arcs, and under the classes that these hand up.
#[cycle(grow)]
fn grown_at(
    alloc: Global,
    world: &World,
    depth: usize,
    steps: usize,
    room: usize,
    node: &Node,
    here: &Here,
) -> Result<(Grown, Grown), AllocError>
    ensures own { IfOk result (λ both. trees_of both.0.children both.0.is_cut ≡ grown_below limits (said limits (look_ups world.now)) depth steps node.now room (own_branches node.now here.now)) }
    ensures lifted { IfOk result (λ both. trees_of both.1.children both.1.is_cut ≡ grown_below limits (said limits (look_ups world.now)) depth steps node.now (room - size_among (trees_of both.0.children both.0.is_cut)) (lifted_branches limits node.now (trees_of both.0.children both.0.is_cut))) }
{
    let arcs = own_branches(alloc, node, here)?;
    let own = children_at(alloc, world, depth, steps, room, node, arcs.as_slice())?;
    let arcs = lifted_branches(alloc, node, own.children.as_slice())?;
    let lifted = children_at(alloc, world, depth, steps, own.room, node, arcs.as_slice())?;
    Ok((own, lifted))
}

/// A node for whose children there was no room.
#[tactic(auto, using(prim_trees::specs::Unfolded::meant_is))]
fn cut_tree(alloc: Global, node: Node, here: Here) -> Tree
    ensures { meant result ≡ node_of_tree node here cut none }
{
    Tree {
        node,
        here,
        own: Items::new(alloc),
        own_cut: true,
        lifted: Items::new(alloc),
        lifted_cut: false,
    }
}

/// A node without children.
#[tactic(auto, using(prim_trees::specs::Unfolded::meant_is))]
fn bare_tree(alloc: Global, node: Node) -> Tree
    ensures { meant result ≡ node_of_tree node nothing_said none none }
{
    let here = Here {
        arcs: Items::new(alloc),
        variants: Items::new(alloc),
        sets: Items::new(alloc),
        selections: Items::new(alloc),
        has_spec: false,
    };
    Tree {
        node,
        here,
        own: Items::new(alloc),
        own_cut: false,
        lifted: Items::new(alloc),
        lifted_cut: false,
    }
}

/// A node with its children.
#[tactic(auto, using(prim_trees::specs::Unfolded::meant_is))]
pub fn joined_tree(node: Node, here: Here, own: Grown, lifted: Grown) -> Tree
    ensures { meant result ≡ node_of_tree node here (trees_of own.children own.is_cut) (trees_of lifted.children lifted.is_cut) }
{
    Tree {
        node,
        here,
        own: own.children,
        own_cut: own.is_cut,
        lifted: lifted.children,
        lifted_cut: lifted.is_cut,
    }
}

/// A followed arc, and the tree to which it leads.
pub fn led_child(branch: &Branch, tree: Tree) -> Result<Child, AllocError>
    ensures { IfOk result (λ child. led child ≡ (branch.now, meant tree)) }
{
    match copy(branch) {
        Ok(branch) => Ok(Child { branch, tree }),
        Err(error) => {
            drop(tree);
            Err(error)
        }
    }
}

/// The children of arcs of a node, as far as there is room.
#[cycle(grow)]
fn children_at(
    alloc: Global,
    world: &World,
    depth: usize,
    steps: usize,
    room: usize,
    node: &Node,
    arcs: &[Branch],
) -> Result<Grown, AllocError>
    ensures trees { IfOk result (λ g. trees_of g.children g.is_cut ≡ grown_below limits (said limits (look_ups world.now)) depth steps node.now room arcs.now) }
    ensures room { IfOk result (λ g. g.room ≡ room - size_among (trees_of g.children g.is_cut)) }
{
    let mut children = Items::new(alloc);
    let mut left = room;
    for branch in arcs {
        if left == 0 {
            return Ok(Grown {
                children,
                is_cut: true,
                room: 0,
            });
        }
        let tree = child_at(alloc, world, depth, steps, left, node, branch)?;
        left = left.saturating_sub(size(&tree));
        let child = led_child(branch, tree)?;
        children.push(child)?;
    }
    Ok(Grown {
        children,
        is_cut: false,
        room: left,
    })
}

/// The tree to which an arc of a node leads.
#[cycle(grow)]
pub fn child_at(
    alloc: Global,
    world: &World,
    depth: usize,
    steps: usize,
    room: usize,
    node: &Node,
    branch: &Branch,
) -> Result<Tree, AllocError>
    ensures { IfOk result (λ tree. meant tree ≡ child_below limits (said limits (look_ups world.now)) depth steps node.now branch.now room) }
{
    if same_kind(ArcKind::Variant, branch.kind) {
        return tree_at(
            alloc,
            world,
            depth,
            steps,
            room,
            chosen_child(node, branch)?,
        );
    }
    if depth == 0 {
        return last_child(alloc, node, branch);
    }
    let target = above_target(alloc, depth - 1, node, branch)?;
    let count = path_length(&target);
    let above = match frames_at(alloc, world, depth - 1, Payloads::All, &target, count) {
        Ok(above) => {
            drop(target);
            above
        }
        Err(error) => {
            drop(target);
            return Err(error);
        }
    };
    let child = arc_child(node, branch, &above)?;
    tree_at(alloc, world, depth - 1, MAX_NODES, room, child)
}

/// The child of an arc after which none may follow: nothing is asked at it.
fn last_child(alloc: Global, node: &Node, branch: &Branch) -> Result<Tree, AllocError>
    ensures { IfOk result (λ tree. meant tree ≡ node_of_tree (arc_child_with [] node.now branch.now) nothing_said none none) }
{
    let above = Items::new(alloc);
    let child = arc_child(node, branch, &above)?;
    Ok(bare_tree(alloc, child))
}

/// How many elements the path of a node has.
pub fn path_length(node: &Node) -> usize
    ensures { result ≡ length node.now.path }
{
    node.path.elements().len()
}

/// How many variants a frame chooses.
pub fn choice_count(frame: &Frame) -> usize
    ensures { result ≡ length frame.now.choices }
{
    frame.choices.len()
}

/// Whether a frame still chooses this many variants.
pub fn is_settled(frame: &Frame, count: usize) -> bool
    ensures { result ≡ (length frame.now.choices == count) }
{
    frame.choices.len() == count
}

/// Whether payloads are followed at the path of a prim.
#[tactic(auto, unfolding(crate::specs::Loading::loads))]
pub fn is_loaded(world: &World, payloads: Payloads, path: &Path) -> Result<bool, AllocError>
    ensures { IfOk result (λ on. on ≡ loads (look_ups world.now) payloads path.now) }
{
    match payloads {
        Payloads::Ruled => {
            if !path.is_plain() {
                return Err(AllocError);
            }
            Ok(world.loaded(path))
        }
        Payloads::All => Ok(true),
    }
}

/// The frame with which the rounds of a prim begin.
pub fn first_frame(alloc: Global, loaded: bool) -> Frame
    ensures { result ≡ record bare { loaded = loaded } }
{
    Frame {
        choices: Items::new(alloc),
        loaded,
        overgrown: false,
    }
}

/// The frames of the first names of a node's path, so many of them, that of the longest path first.
#[cycle(grow)]
pub fn frames_at(
    alloc: Global,
    world: &World,
    depth: usize,
    payloads: Payloads,
    node: &Node,
    count: usize,
) -> Result<Items<Frame>, AllocError>
    ensures { IfOk result (λ frames. frames ≡ frames_below limits (said limits (look_ups world.now)) depth (loads (look_ups world.now) payloads) node.now count) }
{
    if count == 0 {
        return Ok(Items::new(alloc));
    }
    let above = frames_at(alloc, world, depth, payloads, node, count - 1)?;
    let path = front(&node.path, count)?;
    let on = is_loaded(world, payloads, &path)?;
    let first = first_frame(alloc, on);
    let there = node_at(node, path)?;
    let frame = match rounds_at(alloc, world, depth, MAX_ROUNDS, &there, &above, first) {
        Ok(frame) => {
            drop(there);
            frame
        }
        Err(error) => {
            drop((there, above));
            return Err(error);
        }
    };
    with_first(frame, &above)
}

/// The frame of a prim after so many further rounds of choices. After a round that decides nothing another would be the same.
#[cycle(grow)]
fn rounds_at(
    alloc: Global,
    world: &World,
    depth: usize,
    rounds: usize,
    node: &Node,
    above: &Items<Frame>,
    frame: Frame,
) -> Result<Frame, AllocError>
    ensures { IfOk result (λ last. last ≡ rounds_below limits (said limits (look_ups world.now)) depth rounds node.now above.now frame) }
{
    if rounds == 0 {
        return Ok(frame);
    }
    let count = choice_count(&frame);
    let next = round_at(alloc, world, depth, node, above, frame)?;
    let settled = is_settled(&next, count);
    if settled {
        return Ok(next);
    }
    rounds_at(alloc, world, depth, rounds - 1, node, above, next)
}

/// The frame of a prim after one more round of choices.
#[cycle(grow)]
fn round_at(
    alloc: Global,
    world: &World,
    depth: usize,
    node: &Node,
    above: &Items<Frame>,
    frame: Frame,
) -> Result<Frame, AllocError>
    ensures { IfOk result (λ next. next ≡ round_below limits (said limits (look_ups world.now)) depth node.now above.now frame) }
{
    let there = node_in_round(node, above, &frame)?;
    let tree = tree_at(alloc, world, depth, MAX_NODES, MAX_NODES, there)?;
    let next = next_frame(alloc, frame, &tree);
    drop(tree);
    next
}

/// A frame with what a round decides in its tree.
#[tactic(auto, unfolding(crate::specs::Grown::with_round))]
pub fn next_frame(alloc: Global, frame: Frame, tree: &Tree) -> Result<Frame, AllocError>
    ensures { IfOk result (λ next. next ≡ with_round limits (meant tree.now) frame) }
{
    let decided = decided(alloc, tree, &frame.choices)?;
    let overgrown = frame.overgrown || is_overgrown_on_the_way(tree);
    let Frame {
        choices,
        loaded,
        overgrown: _,
    } = frame;
    let mut choices = choices;
    push_all(&mut choices, decided.as_slice())?;
    Ok(Frame {
        choices,
        loaded,
        overgrown,
    })
}
