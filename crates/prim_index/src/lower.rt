//! A node one level down, and what the layers say there: what they said at the node, and what they say at the new level.
ghost use Rattle.std.specs.Prelude.{◌≡◌, ◌==◌, ◌∷◌, ◌++◌, [], suc, IfOk, OnOk, filter_map};
ghost use Rattle.sdf_paths.specs.declared.element.Element.TheVariants.{Prim};
ghost use Rattle.composition.specs.Paths.{limits, fits};
ghost use Rattle.composition.specs.Nodes.{child_path};
ghost use Rattle.composition.specs.World.{same_number, same_offset};
ghost use Rattle.arc_expand.specs.Authoring.{IsStackOf, opinions as opinions_there};
ghost use Rattle.layer_set.specs.LookUps.{look_ups};
ghost use Rattle.laws_extending.specs.Extending.{lowered, lowered_branch, same_arc, refused_below, tried_below, chosen_below, here_below};
ghost use Rattle.prim_index.specs.Extending.{said_at_0, kind_below, known_items, arcs_below, variants_below, parts_below};

use crate::reading::{is_said, push_chosen, push_level, said_at, said_choices, stack_of};
use arc_expand::LayerOpinion;
use class_arcs::{same_kind, same_path, same_stack};
use layer_set::World;
use layer_stack::LayerStack;
use node_branches::{child_path, with_first};
use path_maps::ArcKind;
use plain_data::{Items, copy, copy_three, copy_two};
use prim_nodes::{Branch, Chosen, Frame, Here, Node, Outcome, Tried};
use prim_view::ArcReason;
use sdf_paths::Path;
use sdf_values::LayerOffset;
use std::alloc::{AllocError, Global};

/// The path with one more name.
fn path_below(path: &Path, name: &str) -> Result<Path, AllocError>
    ensures { IfOk result (λ below. below ≡ path.now ++ Prim name.now ∷ []) }
{
    if path.is_property() {
        return Err(AllocError);
    }
    match path.append(name) {
        Ok(below) => Ok(below),
        Err(_) => Err(AllocError),
    }
}

/// The frames with that of a new level before them.
fn frames_below(frames: &Items<Frame>, frame: &Frame) -> Result<Items<Frame>, AllocError>
    ensures { IfOk result (λ below. below ≡ frame.now ∷ frames.now) }
{
    let first = copy(frame)?;
    with_first(first, frames)
}

/// A node one level down: one more name on its path, and the frame of the new level before its frames.
///
/// # Errors
///
/// Memory ran out.
pub fn lowered_node(node: &Node, name: &str, frame: &Frame) -> Result<Node, AllocError>
    ensures { IfOk result (λ below. below ≡ lowered frame.now name.now node.now) }
{
    let path = path_below(&node.path, name)?;
    match frames_below(&node.frames, frame) {
        Ok(frames) => match copy_three(&node.stack, &node.chain, &node.maps) {
            Ok((stack, chain, maps)) => Ok(Node {
                stack,
                path,
                frames,
                chain,
                depth: node.depth,
                offset: node.offset,
                maps,
            }),
            Err(error) => {
                drop((path, frames));
                Err(error)
            }
        },
        Err(error) => {
            drop(path);
            Err(error)
        }
    }
}

/// Whether one level stands right below the other.
#[tactic(auto, using(crate::proofs::Lowering::level_none, crate::proofs::Lowering::level_next))]
fn is_level_below(level: usize, below: usize) -> bool
    ensures { result ≡ (suc level == below) }
{
    if below == 0 {
        return false;
    }
    below - 1 == level
}

/// Whether the two numbers are one.
fn same_number(a: i64, b: i64) -> bool
    ensures { result ≡ same_number a b }
{
    a <= b && b <= a
}

/// Whether the two offsets are one.
fn same_offset(a: LayerOffset, b: LayerOffset) -> bool
    ensures { result ≡ same_offset a b }
{
    same_number(a.offset, b.offset) && same_number(a.scale, b.scale)
}

/// Whether an arc is that of the level above, seen from one level down.
pub fn is_same_arc(known: &Branch, branch: &Branch) -> bool
    ensures { result ≡ same_arc (lowered_branch known.now) branch.now }
{
    same_kind(known.kind, branch.kind)
        && is_level_below(known.level, branch.level)
        && same_stack(&known.lead.stack, &branch.lead.stack)
        && same_path(&known.lead.target, &branch.lead.target)
        && same_offset(known.lead.offset, branch.lead.offset)
}

/// Whether the path to which an arc of a level leads is within the limits.
fn is_fitting(node: &Node, level: usize, target: &Path) -> Result<bool, AllocError>
    ensures { IfOk result (λ fitting. fitting ≡ fits limits (child_path node.now level target.now)) }
{
    let there = child_path(node, level, target)?;
    Ok(there.is_some())
}

/// The level one down.
fn next_level(level: usize) -> Result<usize, AllocError>
    ensures { IfOk result (λ next. next ≡ suc level) }
{
    match level.checked_add(1) {
        Some(next) => Ok(next),
        None => Err(AllocError),
    }
}

/// Why an item has no child one level down: why it had none, or that the path of its child is too long now.
fn refused_below(
    node: &Node,
    level: usize,
    outcome: &Outcome,
    fault: Option<ArcReason>,
) -> Result<Option<ArcReason>, AllocError>
    ensures { IfOk result (λ reason. reason ≡ refused_below limits node.now level outcome.now fault) }
{
    match outcome {
        Outcome::Leads(lead) => match fault {
            Some(reason) => Ok(Some(reason)),
            None => {
                let fitting = is_fitting(node, next_level(level)?, &lead.target)?;
                if fitting {
                    return Ok(None);
                }
                Ok(Some(ArcReason::PathTooLong))
            }
        },
        Outcome::GivesNoArc(_) => Ok(fault),
    }
}

/// An item one level down.
fn tried_below(node: &Node, tried: &Tried) -> Result<Tried, AllocError>
    ensures { IfOk result (λ below. below ≡ tried_below limits node.now tried.now) }
{
    let fault = refused_below(node, tried.level, &tried.authored.outcome, tried.fault)?;
    let level = next_level(tried.level)?;
    let (authored, sublayers) = copy_two(&tried.authored, &tried.sublayers)?;
    Ok(Tried {
        kind: tried.kind,
        level,
        authored,
        fault,
        sublayers,
    })
}

/// Appends the items of a kind one level down.
fn push_known(
    out: &mut Items<Tried>,
    node: &Node,
    old: &[Tried],
    kind: ArcKind,
) -> Result<(), AllocError>
    ensures { OnOk result (out.new ≡ out.old ++ known_items node.now old.now kind) }
{
    for tried in old {
        if same_kind(kind, tried.kind) {
            out.push(tried_below(node, tried)?)?;
        }
    }
    Ok(())
}

/// Appends the items of a kind: those of the new level, and then those that were there, one level down.
fn push_kind_below(
    out: &mut Items<Tried>,
    world: &World,
    stack: &LayerStack,
    node: &Node,
    old: &[Tried],
    said: &[LayerOpinion<'_>],
    kind: ArcKind,
) -> Result<(), AllocError>
    requires stack { IsStackOf (look_ups world.now) stack.now }
    requires name { stack.now.name ≡ node.now.stack }
    ensures { OnOk result (out.new ≡ out.old ++ kind_below (look_ups world.now) node.now said.now old.now kind) }
{
    push_level(out, world, stack, node, kind, 0, said)?;
    push_known(out, node, old, kind)
}

/// The items of all kinds.
fn arcs_below(
    alloc: Global,
    world: &World,
    stack: &LayerStack,
    node: &Node,
    old: &[Tried],
    said: &[LayerOpinion<'_>],
) -> Result<Items<Tried>, AllocError>
    requires stack { IsStackOf (look_ups world.now) stack.now }
    requires name { stack.now.name ≡ node.now.stack }
    ensures { IfOk result (λ all. all ≡ arcs_below (look_ups world.now) node.now said.now old.now) }
{
    let mut all = Items::new(alloc);
    push_kind_below(&mut all, world, stack, node, old, said, ArcKind::Inherits)?;
    push_kind_below(&mut all, world, stack, node, old, said, ArcKind::Reference)?;
    push_kind_below(&mut all, world, stack, node, old, said, ArcKind::Payload)?;
    push_kind_below(
        &mut all,
        world,
        stack,
        node,
        old,
        said,
        ArcKind::Specializes,
    )?;
    Ok(all)
}

/// A variant one level down, where the path to which it leads is not too long there.
fn chosen_below(node: &Node, chosen: &Chosen) -> Result<Option<Chosen>, AllocError>
    ensures { IfOk result (λ below. below ≡ chosen_below limits node.now chosen.now) }
{
    let level = next_level(chosen.level)?;
    let fitting = is_fitting(node, level, &chosen.target)?;
    if fitting {
        return Ok(Some(Chosen {
            level,
            target: copy(&chosen.target)?,
        }));
    }
    Ok(None)
}

/// Appends the variants that were chosen, one level down.
fn push_known_variants(
    out: &mut Items<Chosen>,
    node: &Node,
    old: &[Chosen],
) -> Result<(), AllocError>
    ensures { OnOk result (out.new ≡ out.old ++ filter_map (chosen_below limits node.now) old.now) }
{
    for chosen in old {
        if let Some(below) = chosen_below(node, chosen)? {
            out.push(below)?;
        }
    }
    Ok(())
}

/// The variants: those of the new level, and then those that were chosen, one level down.
fn variants_below(
    alloc: Global,
    node: &Node,
    old: &[Chosen],
    said: &[LayerOpinion<'_>],
) -> Result<Items<Chosen>, AllocError>
    ensures { IfOk result (λ all. all ≡ variants_below node.now said.now old.now) }
{
    let mut all = Items::new(alloc);
    push_chosen(&mut all, node, 0, said)?;
    push_known_variants(&mut all, node, old)?;
    Ok(all)
}

/// The items and the variants.
fn said_arcs_below(
    alloc: Global,
    world: &World,
    stack: &LayerStack,
    node: &Node,
    old: &Here,
    said: &[LayerOpinion<'_>],
) -> Result<(Items<Tried>, Items<Chosen>), AllocError>
    requires stack { IsStackOf (look_ups world.now) stack.now }
    requires name { stack.now.name ≡ node.now.stack }
    ensures { IfOk result (λ both. both ≡ (arcs_below (look_ups world.now) node.now said.now old.now.arcs, variants_below node.now said.now old.now.variants)) }
{
    let arcs = arcs_below(alloc, world, stack, node, old.arcs.as_slice(), said)?;
    match variants_below(alloc, node, old.variants.as_slice(), said) {
        Ok(variants) => Ok((arcs, variants)),
        Err(error) => {
            drop(arcs);
            Err(error)
        }
    }
}

/// What is said one level down, where these opinions stand at the new level.
fn here_with(
    alloc: Global,
    world: &World,
    stack: &LayerStack,
    node: &Node,
    old: &Here,
    own: &Items<LayerOpinion<'_>>,
) -> Result<Here, AllocError>
    requires stack { IsStackOf (look_ups world.now) stack.now }
    requires name { stack.now.name ≡ node.now.stack }
    ensures { IfOk result (λ here. here ≡ parts_below (look_ups world.now) node.now own.now old.now) }
{
    let choices = said_choices(alloc, own.as_slice())?;
    match said_arcs_below(alloc, world, stack, node, old, own.as_slice()) {
        Ok((arcs, variants)) => {
            let (sets, selections) = choices;
            Ok(Here {
                arcs,
                variants,
                sets,
                selections,
                has_spec: is_said(own),
            })
        }
        Err(error) => {
            drop(choices);
            Err(error)
        }
    }
}

/// What is said one level down by the layers of a stack.
#[tactic(auto, using(crate::proofs::Lowering::said_with))]
fn here_in_stack(
    alloc: Global,
    world: &World,
    stack: &LayerStack,
    node: &Node,
    old: &Here,
) -> Result<Here, AllocError>
    requires stack { IsStackOf (look_ups world.now) stack.now }
    requires name { stack.now.name ≡ node.now.stack }
    ensures { IfOk result (λ here. here ≡ here_below limits node.now old.now (said_at_0 (look_ups world.now) node.now)) }
{
    let own = said_at(alloc, world, stack, &node.path)?;
    let here = here_with(alloc, world, stack, node, old, &own);
    drop(own);
    here
}

/// What is said at a node one level down, by what was said at the node above it and what the layers of its stack say at its own path.
///
/// # Errors
///
/// Memory ran out.
pub fn here_below(alloc: Global, world: &World, node: &Node, old: &Here) -> Result<Here, AllocError>
    ensures { IfOk result (λ here. here ≡ here_below limits node.now old.now (said_at_0 (look_ups world.now) node.now)) }
{
    let stack = stack_of(alloc, world, node)?;
    let here = here_in_stack(alloc, world, &stack, node, old);
    drop(stack);
    here
}
