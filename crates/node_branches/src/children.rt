//! The nodes to which arcs lead.
ghost use Rattle.std.specs.Prelude.{◌≡◌, ◌∷◌, ◌++◌, ◌+◌, IfOk, take, false};
ghost use Rattle.path_maps.specs.declared.kind.ArcKind.TheVariants.{Variant};
ghost use Rattle.composition.specs.Nodes.{author, child_path, child_chain};
ghost use Rattle.node_branches.specs.Children.{arc_child_with, chosen_child, above_target, node_at, node_in_round};

use crate::follow::{child_chain, child_path, if_in_range};
use class_arcs::path_above;
use list_ops::push_all;
use path_maps::{ArcKind, ArcMap};
use plain_data::{ExactClone, Items, copy, copy_two};
use prim_nodes::{Branch, Frame, Node};
use prim_view::StackName;
use sdf_paths::Path;
use std::alloc::{AllocError, Global};

/// The list with one item before it.
pub fn with_first<T: ExactClone + Drop>(first: T, rest: &Items<T>) -> Result<Items<T>, AllocError>
    ensures { IfOk result (λ all. all ≡ first ∷ rest.now) }
{
    let mut all = Items::new(rest.allocator());
    all.push(first)?;
    push_all(&mut all, rest.as_slice())?;
    Ok(all)
}

/// The items up to a level, and then others.
fn own_levels(
    own: &Items<Frame>,
    level: usize,
    above: &Items<Frame>,
) -> Result<Items<Frame>, AllocError>
    ensures { IfOk result (λ all. all ≡ take (level + 1) own.now ++ above.now) }
{
    let mut all = Items::new(own.allocator());
    let frames = own.as_slice();
    if level < frames.len() {
        push_all(&mut all, &frames[..level + 1])?;
    } else {
        push_all(&mut all, frames)?;
    }
    push_all(&mut all, above.as_slice())?;
    Ok(all)
}

/// The arc as a map of paths.
fn arc_map(kind: ArcKind, target: &Path, author: Path) -> Result<ArcMap, AllocError>
    ensures kind { IfOk result (λ map. map.kind ≡ kind) }
    ensures target { IfOk result (λ map. map.target ≡ target.now) }
    ensures author { IfOk result (λ map. map.author ≡ author) }
{
    if target.is_root() || target.is_property() || author.is_root() || author.is_property() {
        return Err(AllocError);
    }
    Ok(ArcMap {
        kind,
        target: copy(target)?,
        author,
    })
}

/// The path of the child to which an arc leads.
fn path_of_child(node: &Node, branch: &Branch) -> Result<Path, AllocError>
    ensures { IfOk result (λ path. path ≡ child_path node.now branch.now.level branch.now.lead.target) }
{
    let Some(path) = child_path(node, branch.level, &branch.lead.target)? else {
        return Err(AllocError);
    };
    Ok(path)
}

/// A stack, and the path of the child to which an arc leads.
fn child_place(
    stack: &StackName,
    node: &Node,
    branch: &Branch,
) -> Result<(StackName, Path), AllocError>
    ensures { IfOk result (λ place. place ≡ (stack.now, child_path node.now branch.now.level branch.now.lead.target)) }
{
    let stack = copy(stack)?;
    match path_of_child(node, branch) {
        Ok(path) => Ok((stack, path)),
        Err(error) => {
            drop(stack);
            Err(error)
        }
    }
}

/// The arcs of a child towards the stage: its own before those of the node.
fn child_maps(kind: ArcKind, node: &Node, branch: &Branch) -> Result<Items<ArcMap>, AllocError>
    ensures { IfOk result (λ maps. maps ≡ (record { kind = kind; target = branch.now.lead.target; author = author node.now branch.now.level }) ∷ node.now.maps) }
{
    let map = arc_map(
        kind,
        &branch.lead.target,
        path_above(&node.path, branch.level)?,
    )?;
    with_first(map, &node.maps)
}

/// The frames of the child to which an arc leads, and the authors on the way to it.
fn arc_levels(
    node: &Node,
    level: usize,
    above: &Items<Frame>,
) -> Result<(Items<Frame>, Items<(StackName, Path)>), AllocError>
    ensures { IfOk result (λ both. both ≡ (take (level + 1) node.now.frames ++ above.now, child_chain node.now level)) }
{
    let frames = own_levels(&node.frames, level, above)?;
    match child_chain(node, level) {
        Ok(chain) => Ok((frames, chain)),
        Err(error) => {
            drop(frames);
            Err(error)
        }
    }
}

/// The node to which an arc leads, with the frames of the levels above the arc's target.
#[tactic(auto, unfolding(crate::specs::Children::arc_child_with))]
pub fn arc_child(node: &Node, branch: &Branch, above: &Items<Frame>) -> Result<Node, AllocError>
    ensures { IfOk result (λ child. child ≡ arc_child_with above.now node.now branch.now) }
{
    let Some(offset) = if_in_range(branch.lead.offset, node.offset) else {
        return Err(AllocError);
    };
    let place = child_place(&branch.lead.stack, node, branch)?;
    match arc_levels(node, branch.level, above) {
        Ok((frames, chain)) => match child_maps(branch.kind, node, branch) {
            Ok(maps) => {
                let (stack, path) = place;
                Ok(Node {
                    stack,
                    path,
                    frames,
                    chain,
                    depth: node.depth.saturating_sub(1),
                    offset,
                    maps,
                })
            }
            Err(error) => {
                drop((place, frames, chain));
                Err(error)
            }
        },
        Err(error) => {
            drop(place);
            Err(error)
        }
    }
}

/// The frames of the child of a variant.
fn chosen_levels(node: &Node, level: usize) -> Result<Items<Frame>, AllocError>
    ensures { IfOk result (λ frames. frames ≡ take (level + 1) node.now.frames) }
{
    let none = Items::new(node.frames.allocator());
    own_levels(&node.frames, level, &none)
}

/// Copies of the authors on the way to a node, and the arcs of its child towards the stage.
fn chosen_way(
    node: &Node,
    branch: &Branch,
) -> Result<(Items<(StackName, Path)>, Items<ArcMap>), AllocError>
    ensures { IfOk result (λ both. both ≡ (node.now.chain, (record { kind = Variant; target = branch.now.lead.target; author = author node.now branch.now.level }) ∷ node.now.maps)) }
{
    let chain = copy(&node.chain)?;
    match child_maps(ArcKind::Variant, node, branch) {
        Ok(maps) => Ok((chain, maps)),
        Err(error) => {
            drop(chain);
            Err(error)
        }
    }
}

/// The node with another place, other frames, and another way towards the stage.
fn with_parts(
    node: &Node,
    place: (StackName, Path),
    frames: Items<Frame>,
    way: (Items<(StackName, Path)>, Items<ArcMap>),
) -> Node
    ensures { result ≡ record node.now { stack = place.0; path = place.1; frames = frames; chain = way.0; maps = way.1 } }
{
    let (stack, path) = place;
    let (chain, maps) = way;
    Node {
        stack,
        path,
        frames,
        chain,
        depth: node.depth,
        offset: node.offset,
        maps,
    }
}

/// The node of a variant: stack, chain, depth and offset stay.
#[tactic(auto, unfolding(crate::specs::Children::chosen_child))]
pub fn chosen_child(node: &Node, branch: &Branch) -> Result<Node, AllocError>
    ensures { IfOk result (λ child. child ≡ chosen_child node.now branch.now) }
{
    let place = child_place(&node.stack, node, branch)?;
    match chosen_levels(node, branch.level) {
        Ok(frames) => match chosen_way(node, branch) {
            Ok(way) => Ok(with_parts(node, place, frames, way)),
            Err(error) => {
                drop((place, frames));
                Err(error)
            }
        },
        Err(error) => {
            drop(place);
            Err(error)
        }
    }
}

/// The prim above an arc's target as a node of the target's stack, without frames and arcs towards the stage.
#[tactic(auto, unfolding(crate::specs::Children::above_target))]
pub fn above_target(
    alloc: Global,
    depth: usize,
    node: &Node,
    branch: &Branch,
) -> Result<Node, AllocError>
    ensures { IfOk result (λ above. above ≡ above_target depth node.now branch.now) }
{
    let Some(offset) = if_in_range(branch.lead.offset, node.offset) else {
        return Err(AllocError);
    };
    Ok(Node {
        stack: copy(&branch.lead.stack)?,
        path: path_above(&branch.lead.target, 1)?,
        frames: Items::new(alloc),
        chain: child_chain(node, branch.level)?,
        depth,
        offset,
        maps: Items::new(alloc),
    })
}

/// The same node at another path.
#[tactic(auto, unfolding(crate::specs::Children::node_at))]
pub fn node_at(node: &Node, path: Path) -> Result<Node, AllocError>
    ensures { IfOk result (λ there. there ≡ node_at path node.now) }
{
    match copy_two(&node.stack, &node.frames) {
        Ok((stack, frames)) => match copy_two(&node.chain, &node.maps) {
            Ok(way) => Ok(with_parts(node, (stack, path), frames, way)),
            Err(error) => {
                drop((path, stack, frames));
                Err(error)
            }
        },
        Err(error) => {
            drop(path);
            Err(error)
        }
    }
}

/// The frames of a round of choices: the frame so far, as not overgrown, and those above it.
fn frames_in_round(above: &Items<Frame>, frame: &Frame) -> Result<Items<Frame>, AllocError>
    ensures { IfOk result (λ frames. frames ≡ (record frame.now { overgrown = false }) ∷ above.now) }
{
    let frame = Frame {
        choices: copy(&frame.choices)?,
        loaded: frame.loaded,
        overgrown: false,
    };
    with_first(frame, above)
}

/// The node of a round of choices: with its frame so far and those above it. That the frame rests on an overgrown listing does not
/// show in the round.
#[tactic(auto, unfolding(crate::specs::Children::node_in_round))]
pub fn node_in_round(node: &Node, above: &Items<Frame>, frame: &Frame) -> Result<Node, AllocError>
    ensures { IfOk result (λ there. there ≡ node_in_round node.now above.now frame.now) }
{
    let place = copy_two(&node.stack, &node.path)?;
    match frames_in_round(above, frame) {
        Ok(frames) => match copy_two(&node.chain, &node.maps) {
            Ok(way) => Ok(with_parts(node, place, frames, way)),
            Err(error) => {
                drop((place, frames));
                Err(error)
            }
        },
        Err(error) => {
            drop(place);
            Err(error)
        }
    }
}
