//! The class list of a node.
ghost use Rattle.std.specs.Prelude.{◌≡◌, ◌++◌, IfOk, OnOk, Bool, false};
ghost use Rattle.composition.specs.Paths.{limits};
ghost use Rattle.composition.specs.Trees.{classes, own_classes, handed_up, classes_from, hands_up, same_class};
ghost use Rattle.list_ops.specs.ListEdits.{firsts};
ghost use Rattle.prim_trees.specs.Meant.{meant, trees_of};

use crate::class::{Class, same_kind};
use crate::lift::push_lifted;
use list_ops::once_ordered;
use path_maps::ArcKind;
use plain_data::{Items, copy};
use prim_nodes::Node;
use prim_trees::{Child, Tree};
use std::alloc::{AllocError, Global};

/// The classes of a node, of one kind: those of its own arcs, each followed by the classes of what it leads to, and then those that
/// its other arcs hand up. Each class stands once.
///
/// Only the node's own arcs count. Classes that are handed up through an arc are those of levels up to the arc's, with the arc's
/// author in place of its target; one whose path would pass a limit is dropped.
#[cycle(classes)]
#[tactic(auto, using(crate::proofs::Listing::classes_is))]
pub fn class_list(alloc: Global, tree: &Tree, kind: ArcKind) -> Result<Items<Class>, AllocError>
    ensures { IfOk result (λ list. list ≡ classes limits kind (meant tree.now)) }
{
    class_list_from(alloc, &tree.node, tree.own.as_slice(), kind)
}

/// The same of a node of which only the own arcs are known.
#[cycle(classes)]
#[tactic(auto, using(crate::proofs::Listing::cut_or_not))]
pub fn class_list_from(
    alloc: Global,
    node: &Node,
    own: &[Child],
    kind: ArcKind,
) -> Result<Items<Class>, AllocError>
    ensures { IfOk result (λ list. (is_cut : Bool) → list ≡ classes_from limits kind node.now (trees_of own.now is_cut)) }
{
    let mut all = Items::new(alloc);
    push_own(&mut all, node, own, kind)?;
    push_handed_up(&mut all, node, own, kind)?;
    first_of_each(all)
}

/// Appends the classes of the own arcs of the kind, each with those of its child.
#[cycle(classes)]
fn push_own(
    out: &mut Items<Class>,
    node: &Node,
    own: &[Child],
    kind: ArcKind,
) -> Result<(), AllocError>
    ensures { OnOk result (out.new ≡ out.old ++ own_classes limits kind node.now (trees_of own.now false)) }
{
    for child in own {
        if same_kind(kind, child.branch.kind) {
            out.push(Class {
                level: child.branch.level,
                target: copy(&child.branch.lead.target)?,
            })?;
            let classes = class_list(out.allocator(), &child.tree, kind)?;
            push_lifted(out, node, &child.branch, classes.as_slice())?;
        }
    }
    Ok(())
}

/// Appends the classes that arcs of other kinds hand up.
#[cycle(classes)]
fn push_handed_up(
    out: &mut Items<Class>,
    node: &Node,
    own: &[Child],
    kind: ArcKind,
) -> Result<(), AllocError>
    ensures { OnOk result (out.new ≡ out.old ++ handed_up limits kind node.now (trees_of own.now false)) }
{
    for child in own {
        if hands_up(kind, child.branch.kind) {
            let classes = class_list(out.allocator(), &child.tree, kind)?;
            push_lifted(out, node, &child.branch, classes.as_slice())?;
        }
    }
    Ok(())
}

/// Whether an arc of the second kind hands up the classes of the first.
fn hands_up(classes: ArcKind, arc: ArcKind) -> bool
    ensures { result ≡ hands_up classes arc }
{
    match classes {
        ArcKind::Inherits => {
            matches!(
                arc,
                ArcKind::Variant | ArcKind::Reference | ArcKind::Payload
            )
        }
        ArcKind::Specializes => !matches!(arc, ArcKind::Specializes),
        ArcKind::Variant | ArcKind::Reference | ArcKind::Payload => false,
    }
}

/// The first of each class.
#[tactic(auto, using(crate::proofs::Sameness::firsts_is))]
fn first_of_each(all: Items<Class>) -> Result<Items<Class>, AllocError>
    ensures { IfOk result (λ kept. kept ≡ firsts same_class all) }
{
    once_ordered(all.allocator(), all)
}
