//! The faults of the arcs of a tree.
ghost use Rattle.std.specs.Prelude.{◌≡◌, ◌++◌, Bool, IfOk, OnOk, map, filter, flat_map, zip};
ghost use Rattle.composition.specs.Arcs.{same_kind};
ghost use Rattle.composition.specs.Paths.{limits};
ghost use Rattle.composition.specs.Strength.{listing};
ghost use Rattle.composition.specs.Faults.{sublayer, arc_fault, fault_if, faults_of, is_level_0, gives_arc, is_followed, own_children, wants_prim, unresolved, unresolved_of, kind_faults, node_faults};
ghost use Rattle.prim_trees.specs.Meant.{meant, trees_of};
ghost use Rattle.prim_trees.specs.declared.tree.Tree.{out-Tree};
ghost use Rattle.site_order.specs.Places.{trees_shown};
ghost use Rattle.site_order.specs.Groups.{items, is_among, is_told};

use crate::order::listing;
use crate::sizes::has_spec_in;
use class_arcs::{path_above, same_kind};
use path_maps::ArcKind;
use plain_data::{Items, copy};
use prim_nodes::{Node, Outcome, Tried};
use prim_trees::{Child, Tree};
use prim_view::{ArcFault, ArcReason, PrimFault, SublayerFault};
use std::alloc::{AllocError, Global};

/// Which of the faults of a kind of arcs.
#[derive(Clone, Copy)]
pub enum Group {
    /// Items of the prim itself that give no arc.
    NoArc,
    /// Arcs of the prim itself that are not followed.
    NotFollowed,
    /// Arcs of higher levels whose paths would be too long.
    TooLong,
}

/// The faults that come of the arcs of a prim, node by node from strong to weak.
///
/// Within a node they go by inherits, references, payloads and specializes; within a kind: items of the prim itself that give no
/// arc, arcs of it that are not followed, arcs of higher levels whose paths would be too long, faults of the sublayers of the stacks
/// to which the prim's own arcs lead, and references and payloads of it to prims that no layer has a spec of.
pub fn arc_faults(alloc: Global, tree: &Tree) -> Result<Items<PrimFault>, AllocError>
    ensures { IfOk result (λ faults. faults ≡ flat_map node_faults (listing limits (meant tree.now))) }
{
    let nodes = listing(alloc, tree)?;
    faults_of_all(alloc, nodes.as_slice())
}

fn faults_of_all(alloc: Global, nodes: &[&Tree]) -> Result<Items<PrimFault>, AllocError>
    ensures { IfOk result (λ faults. faults ≡ flat_map node_faults (trees_shown nodes.now)) }
{
    let mut faults = Items::new(alloc);
    for node in nodes {
        push_node_faults(&mut faults, node)?;
    }
    Ok(faults)
}

fn push_node_faults(out: &mut Items<PrimFault>, tree: &Tree) -> Result<(), AllocError>
    ensures { OnOk result (out.new ≡ out.old ++ node_faults (meant tree.now)) }
{
    push_kind_faults(out, tree, ArcKind::Inherits)?;
    push_kind_faults(out, tree, ArcKind::Reference)?;
    push_kind_faults(out, tree, ArcKind::Payload)?;
    push_kind_faults(out, tree, ArcKind::Specializes)?;
    Ok(())
}

fn push_kind_faults(
    out: &mut Items<PrimFault>,
    tree: &Tree,
    kind: ArcKind,
) -> Result<(), AllocError>
    ensures { OnOk result (out.new ≡ out.old ++ kind_faults (out-Tree tree.now).node (trees_of (out-Tree tree.now).own (out-Tree tree.now).own_cut) kind (filter (λ a. same_kind kind a.kind) (out-Tree tree.now).here.arcs)) }
{
    let arcs = arcs_of_kind(out.allocator(), tree.here.arcs.as_slice(), kind)?;
    push_faults(out, tree, kind, arcs.as_slice())?;
    Ok(())
}

/// Appends the faults of the arcs of a kind.
fn push_faults(
    out: &mut Items<PrimFault>,
    tree: &Tree,
    kind: ArcKind,
    arcs: &[&Tried],
) -> Result<(), AllocError>
    ensures { OnOk result (out.new ≡ out.old ++ kind_faults (out-Tree tree.now).node (trees_of (out-Tree tree.now).own (out-Tree tree.now).own_cut) kind (items arcs.now)) }
{
    push_group(out, Group::NoArc, &tree.node, arcs)?;
    push_group(out, Group::NotFollowed, &tree.node, arcs)?;
    push_group(out, Group::TooLong, &tree.node, arcs)?;
    push_sublayers(out, arcs)?;
    push_unresolved_of(out, kind, &tree.node, arcs, tree)?;
    Ok(())
}

fn arcs_of_kind(alloc: Global, all: &[Tried], kind: ArcKind) -> Result<Vec<&Tried>, AllocError>
    ensures { IfOk result (λ arcs. items arcs.items ≡ filter (λ a. same_kind kind a.kind) all.now) }
{
    let mut arcs = Vec::new(alloc);
    for arc in all {
        if same_kind(kind, arc.kind) {
            arcs.push(arc)?;
        }
    }
    Ok(arcs)
}

/// Appends the faults of a group.
fn push_group(
    out: &mut Items<PrimFault>,
    group: Group,
    node: &Node,
    arcs: &[&Tried],
) -> Result<(), AllocError>
    ensures { OnOk result (out.new ≡ out.old ++ faults_of (is_among group) (is_told group) node.now (items arcs.now)) }
{
    for arc in arcs {
        if is_among(group, arc) {
            push_fault_if(out, group, node, arc)?;
        }
    }
    Ok(())
}

/// Whether the item is one of those of which the group tells.
fn is_among(group: Group, arc: &Tried) -> bool
    ensures { result ≡ is_among group arc.now }
{
    match group {
        Group::NoArc => is_level_0(arc) && !gives_arc(&arc.authored.outcome),
        Group::NotFollowed => is_level_0(arc) && gives_arc(&arc.authored.outcome),
        Group::TooLong => !is_level_0(arc),
    }
}

fn is_level_0(arc: &Tried) -> bool
    ensures { result ≡ is_level_0 arc.now }
{
    arc.level == 0
}

fn gives_arc(outcome: &Outcome) -> bool
    ensures { result ≡ gives_arc outcome.now }
{
    match outcome {
        Outcome::Leads(_) => true,
        Outcome::GivesNoArc(_) => false,
    }
}

/// Whether the group tells of this reason.
fn is_told(group: Group, reason: ArcReason) -> bool
    ensures { result ≡ is_told group reason }
{
    match group {
        Group::NoArc | Group::NotFollowed => true,
        Group::TooLong => matches!(reason, ArcReason::PathTooLong),
    }
}

fn push_fault_if(
    out: &mut Items<PrimFault>,
    group: Group,
    node: &Node,
    arc: &Tried,
) -> Result<(), AllocError>
    ensures { OnOk result (out.new ≡ out.old ++ fault_if (is_told group) node.now arc.now arc.now.fault) }
{
    let Some(reason) = &arc.fault else {
        return Ok(());
    };
    if is_told(group, *reason) {
        out.push(arc_fault(node, arc, *reason)?)?;
    }
    Ok(())
}

fn arc_fault(node: &Node, arc: &Tried, reason: ArcReason) -> Result<PrimFault, AllocError>
    ensures { IfOk result (λ fault. fault ≡ arc_fault node.now arc.now reason) }
{
    Ok(PrimFault::Arc(ArcFault {
        reason,
        layer: copy(&arc.authored.author)?,
        site: path_above(&node.path, arc.level)?,
        kind: arc.kind,
        item: copy(&arc.authored.item)?,
    }))
}

/// Appends the faults of the sublayers of the stacks to which items of the prim itself lead.
fn push_sublayers(out: &mut Items<PrimFault>, arcs: &[&Tried]) -> Result<(), AllocError>
    ensures { OnOk result (out.new ≡ out.old ++ flat_map (λ a. map sublayer a.sublayers) (filter is_level_0 (items arcs.now))) }
{
    for arc in arcs {
        if is_level_0(arc) {
            push_sublayer_faults(out, arc.sublayers.as_slice())?;
        }
    }
    Ok(())
}

fn push_sublayer_faults(
    out: &mut Items<PrimFault>,
    faults: &[SublayerFault],
) -> Result<(), AllocError>
    ensures { OnOk result (out.new ≡ out.old ++ map sublayer faults.now) }
{
    for fault in faults {
        out.push(PrimFault::Sublayer(copy(fault)?))?;
    }
    Ok(())
}

/// Appends the arcs to prims that have no spec.
fn push_unresolved_of(
    out: &mut Items<PrimFault>,
    kind: ArcKind,
    node: &Node,
    arcs: &[&Tried],
    tree: &Tree,
) -> Result<(), AllocError>
    ensures { OnOk result (out.new ≡ out.old ++ unresolved_of kind node.now (items arcs.now) (trees_of (out-Tree tree.now).own (out-Tree tree.now).own_cut)) }
{
    if !wants_prim(kind) {
        return Ok(());
    }
    push_unresolved_among(out, kind, node, arcs, tree)?;
    Ok(())
}

fn push_unresolved_among(
    out: &mut Items<PrimFault>,
    kind: ArcKind,
    node: &Node,
    arcs: &[&Tried],
    tree: &Tree,
) -> Result<(), AllocError>
    ensures { OnOk result (out.new ≡ out.old ++ flat_map (unresolved node.now) (zip (filter (λ a. is_followed a.fault) (items arcs.now)) (own_children kind (trees_of (out-Tree tree.now).own (out-Tree tree.now).own_cut)))) }
{
    let alloc = out.allocator();
    let kept = followed(alloc, arcs)?;
    let children = children_of(alloc, kind, tree.own.as_slice())?;
    push_all_unresolved(out, node, kept.as_slice(), children.as_slice())?;
    Ok(())
}

fn wants_prim(kind: ArcKind) -> bool
    ensures { result ≡ wants_prim kind }
{
    matches!(kind, ArcKind::Reference | ArcKind::Payload)
}

fn followed<'t>(alloc: Global, arcs: &[&'t Tried]) -> Result<Vec<&'t Tried>, AllocError>
    ensures { IfOk result (λ kept. items kept.items ≡ filter (λ a. is_followed a.fault) (items arcs.now)) }
{
    let mut kept = Vec::new(alloc);
    for arc in arcs {
        if arc.fault.is_none() {
            kept.push(*arc)?;
        }
    }
    Ok(kept)
}

fn children_of(alloc: Global, kind: ArcKind, own: &[Child]) -> Result<Vec<&Tree>, AllocError>
    ensures { IfOk result (λ trees. (is_cut : Bool) → trees_shown trees.items ≡ own_children kind (trees_of own.now is_cut)) }
{
    let mut trees = Vec::new(alloc);
    for child in own {
        if same_kind(kind, child.branch.kind) {
            trees.push(&child.tree)?;
        }
    }
    Ok(trees)
}

fn push_all_unresolved(
    out: &mut Items<PrimFault>,
    node: &Node,
    arcs: &[&Tried],
    children: &[&Tree],
) -> Result<(), AllocError>
    ensures { OnOk result (out.new ≡ out.old ++ flat_map (unresolved node.now) (zip (items arcs.now) (trees_shown children.now))) }
{
    for (i, arc) in arcs.iter().enumerate() {
        let Some(child) = children.get(i) else {
            return Ok(());
        };
        push_unresolved(out, node, arc, child)?;
    }
    Ok(())
}

fn push_unresolved(
    out: &mut Items<PrimFault>,
    node: &Node,
    arc: &Tried,
    child: &Tree,
) -> Result<(), AllocError>
    ensures { OnOk result (out.new ≡ out.old ++ unresolved node.now (arc.now, meant child.now)) }
{
    if is_level_0(arc) && !has_spec_in(child) {
        out.push(arc_fault(node, arc, ArcReason::UnresolvedPrim)?)?;
    }
    Ok(())
}
