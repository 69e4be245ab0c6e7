//! The arcs that a node follows: its own, and the classes that its arcs hand up.
ghost use Rattle.std.specs.Prelude.{◌≡◌, ◌++◌, IfOk, OnOk, flat_map, map, Bool, false};
ghost use Rattle.composition.specs.Paths.{limits, has_selections};
ghost use Rattle.composition.specs.Nodes.{refusal};
ghost use Rattle.composition.specs.Trees.{if_followed, followed, in_own_stack, variant_branch, own_branches, any_child, is_class_of, lifted_branches};
ghost use Rattle.prim_trees.specs.Meant.{trees_of};
ghost use Rattle.node_branches.specs.Branches.{class_branch, lifted_of, lifted_kind};

use crate::follow::refusal;
use crate::level::has_selections;
use class_arcs::{Class, class_list_from, is_class_of, same_kind};
use path_maps::ArcKind;
use plain_data::{Items, copy};
use prim_nodes::{Branch, Chosen, Here, Lead, Node, Outcome, Tried};
use prim_trees::Child;
use prim_view::ArcReason;
use sdf_paths::Path;
use sdf_values::LayerOffset;
use std::alloc::{AllocError, Global};

/// Appends the arc of an item, where it is followed.
fn push_if_followed(out: &mut Items<Branch>, tried: &Tried) -> Result<(), AllocError>
    ensures { OnOk result (out.new ≡ out.old ++ if_followed tried.now tried.now.authored.outcome tried.now.fault) }
{
    if let Outcome::Leads(lead) = &tried.authored.outcome {
        if tried.fault.is_none() {
            out.push(Branch {
                kind: tried.kind,
                level: tried.level,
                lead: copy(lead)?,
                lifted: false,
            })?;
        }
    }
    Ok(())
}

/// Appends the arcs of a kind that are followed.
fn push_followed(out: &mut Items<Branch>, arcs: &[Tried], kind: ArcKind) -> Result<(), AllocError>
    ensures { OnOk result (out.new ≡ out.old ++ followed arcs.now kind) }
{
    for tried in arcs {
        if same_kind(kind, tried.kind) {
            push_if_followed(out, tried)?;
        }
    }
    Ok(())
}

/// A target in the node's own stack.
fn in_own_stack(node: &Node, target: &Path) -> Result<Lead, AllocError>
    ensures { IfOk result (λ lead. lead ≡ in_own_stack node.now target.now) }
{
    Ok(Lead {
        stack: copy(&node.stack)?,
        target: copy(target)?,
        offset: LayerOffset::identity(),
    })
}

/// Appends the arcs to chosen variants.
fn push_variants(
    out: &mut Items<Branch>,
    node: &Node,
    variants: &[Chosen],
) -> Result<(), AllocError>
    ensures { OnOk result (out.new ≡ out.old ++ map (variant_branch node.now) variants.now) }
{
    for chosen in variants {
        out.push(Branch {
            kind: ArcKind::Variant,
            level: chosen.level,
            lead: in_own_stack(node, &chosen.target)?,
            lifted: false,
        })?;
    }
    Ok(())
}

/// The arcs of a node's own that are followed, in the order of its children.
pub fn own_branches(alloc: Global, node: &Node, here: &Here) -> Result<Items<Branch>, AllocError>
    ensures { IfOk result (λ all. all ≡ own_branches node.now here.now) }
{
    let mut all = Items::new(alloc);
    push_followed(&mut all, here.arcs.as_slice(), ArcKind::Inherits)?;
    push_variants(&mut all, node, here.variants.as_slice())?;
    push_followed(&mut all, here.arcs.as_slice(), ArcKind::Reference)?;
    push_followed(&mut all, here.arcs.as_slice(), ArcKind::Payload)?;
    push_followed(&mut all, here.arcs.as_slice(), ArcKind::Specializes)?;
    Ok(all)
}

/// Whether an own arc of the kind leads to the class.
fn is_own(own: &[Child], kind: ArcKind, class: &Class) -> bool
    ensures { result ≡ any_child (λ b t. is_class_of kind class.now b) (trees_of own.now false) }
{
    for child in own {
        if is_class_of(kind, class, &child.branch) {
            return true;
        }
    }
    false
}

/// Whether the path of the class has selections.
fn is_selected(class: &Class) -> bool
    ensures { result ≡ has_selections class.now.1 }
{
    has_selections(class.target.elements())
}

/// Where an arc to the class leads.
fn class_lead(node: &Node, class: &Class) -> Result<Lead, AllocError>
    ensures { IfOk result (λ lead. lead ≡ in_own_stack node.now class.now.1) }
{
    in_own_stack(node, &class.target)
}

/// Why an arc to the class is not followed.
fn class_refusal(node: &Node, class: &Class) -> Result<Option<ArcReason>, AllocError>
    ensures { IfOk result (λ reason. reason ≡ refusal limits node.now class.now.0 (in_own_stack node.now class.now.1)) }
{
    let lead = class_lead(node, class)?;
    refusal(node, class.level, &lead)
}

/// The arc to the class.
fn class_branch(node: &Node, kind: ArcKind, class: &Class) -> Result<Branch, AllocError>
    ensures { IfOk result (λ branch. branch ≡ class_branch kind node.now class.now) }
{
    let lead = class_lead(node, class)?;
    Ok(Branch {
        kind,
        level: class.level,
        lead,
        lifted: true,
    })
}

/// Appends the arc to a class of the node, where it is no own arc, has no selections and is followed.
fn push_lifted(
    out: &mut Items<Branch>,
    node: &Node,
    own: &[Child],
    kind: ArcKind,
    class: &Class,
) -> Result<(), AllocError>
    ensures { OnOk result (out.new ≡ out.old ++ lifted_of kind node.now own.now class.now) }
{
    let known = is_own(own, kind, class);
    if known {
        return Ok(());
    }
    let selected = is_selected(class);
    if selected {
        return Ok(());
    }
    let reason = class_refusal(node, class)?;
    if reason.is_some() {
        return Ok(());
    }
    let branch = class_branch(node, kind, class)?;
    out.push(branch)?;
    Ok(())
}

/// Appends the arcs to classes of the node.
fn push_all_lifted(
    out: &mut Items<Branch>,
    node: &Node,
    own: &[Child],
    kind: ArcKind,
    classes: &[Class],
) -> Result<(), AllocError>
    ensures { OnOk result (out.new ≡ out.old ++ flat_map (lifted_of kind node.now own.now) classes.now) }
{
    for class in classes {
        push_lifted(out, node, own, kind, class)?;
    }
    Ok(())
}

/// Appends the arcs of a kind to classes that the node's arcs hand up.
fn push_kind(
    out: &mut Items<Branch>,
    node: &Node,
    own: &[Child],
    kind: ArcKind,
) -> Result<(), AllocError>
    ensures { OnOk result (out.new ≡ out.old ++ lifted_kind node.now own.now kind) }
{
    let classes = class_list_from(out.allocator(), node, own, kind)?;
    push_all_lifted(out, node, own, kind, classes.as_slice())
}

/// The classes that the node's arcs hand up and that are followed, in the order of its children. Whether there was no room for
/// further own children makes no difference.
pub fn lifted_branches(
    alloc: Global,
    node: &Node,
    own: &[Child],
) -> Result<Items<Branch>, AllocError>
    ensures { IfOk result (λ all. (is_cut : Bool) → all ≡ lifted_branches limits node.now (trees_of own.now is_cut)) }
{
    let mut all = Items::new(alloc);
    push_kind(&mut all, node, own, ArcKind::Inherits)?;
    push_kind(&mut all, node, own, ArcKind::Specializes)?;
    Ok(all)
}
