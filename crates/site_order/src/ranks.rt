//! The rank of a node: of several places of one site, one of least rank is kept.
ghost use Rattle.std.specs.Prelude.{◌≡◌, ◌+◌, IfOk};
ghost use Rattle.std.specs.List.{list_any};
ghost use Rattle.composition.specs.Strength.{same_site, is_lifted_inherits, leads_on, has_class_child, above_child};
ghost use Rattle.prim_trees.specs.Meant.{meant};
ghost use Rattle.site_order.specs.Ranks.{is_class_there, shares, child_rank};

use class_arcs::{same_kind, same_path, same_stack};
use path_maps::ArcKind;
use prim_nodes::{Branch, Node};
use prim_trees::{Child, Tree};
use std::alloc::AllocError;

/// A node with what stands below it, and its rank.
#[derive(Clone, Copy)]
pub struct Ranked<'t> {
    /// The node with what stands below it.
    pub tree: &'t Tree,
    /// How many lifted inherits nodes stand above the node, and one more where it is itself one whose class is also a class of a
    /// variant, a reference or a payload beside it.
    pub rank: usize,
}

/// Whether the two nodes are one path of one layer stack.
pub fn same_site(m: &Node, n: &Node) -> bool
    ensures { result ≡ same_site m.now n.now }
{
    same_stack(&m.stack, &n.stack) && same_path(&m.path, &n.path)
}

fn is_lifted_inherits(branch: &Branch) -> bool
    ensures { result ≡ is_lifted_inherits branch.now }
{
    branch.lifted && same_kind(ArcKind::Inherits, branch.kind)
}

fn leads_on(branch: &Branch) -> bool
    ensures { result ≡ leads_on branch.now }
{
    match branch.kind {
        ArcKind::Variant | ArcKind::Reference | ArcKind::Payload => true,
        ArcKind::Inherits | ArcKind::Specializes => false,
    }
}

/// Whether the child is an inherits child that is a node of the same site as this one.
#[tactic(auto, using(crate::proofs::Ranking::class_there_is))]
fn is_class_there(node: &Node, child: &Child) -> bool
    ensures { result ≡ is_class_there node.now child.now }
{
    same_kind(ArcKind::Inherits, child.branch.kind) && same_site(&child.tree.node, node)
}

fn any_class_there(node: &Node, children: &[Child]) -> bool
    ensures { result ≡ list_any (is_class_there node.now) children.now }
{
    for child in children {
        if is_class_there(node, child) {
            return true;
        }
    }
    false
}

/// Whether an inherits child of the tree's node, own or lifted, is a node of the same site as this one.
#[tactic(auto, using(crate::proofs::Ranking::class_child_is))]
fn has_class_child(node: &Node, tree: &Tree) -> bool
    ensures { result ≡ has_class_child node.now (meant tree.now) }
{
    any_class_there(node, tree.own.as_slice()) || any_class_there(node, tree.lifted.as_slice())
}

/// Whether the child is a variant, a reference or a payload of which this node is a class.
fn shares(node: &Node, child: &Child) -> bool
    ensures { result ≡ shares node.now child.now }
{
    leads_on(&child.branch) && has_class_child(node, &child.tree)
}

fn is_shared(node: &Node, siblings: &[Child]) -> bool
    ensures { result ≡ list_any (shares node.now) siblings.now }
{
    for child in siblings {
        if shares(node, child) {
            return true;
        }
    }
    false
}

/// One more. Numbers end where memory has ended long before.
fn one_more(above: usize) -> Result<usize, AllocError>
    ensures { IfOk result (λ more. more ≡ above + 1) }
{
    match above.checked_add(1) {
        Some(more) => Ok(more),
        None => Err(AllocError),
    }
}

/// How many lifted inherits nodes stand at a child or above it.
pub fn above_child(above: usize, branch: &Branch) -> Result<usize, AllocError>
    ensures { IfOk result (λ below. below ≡ above_child above branch.now) }
{
    if is_lifted_inherits(branch) {
        one_more(above)
    } else {
        Ok(above)
    }
}

/// The rank of a child, beside the own children of its parent.
#[tactic(auto, using(crate::proofs::Ranking::rank_is))]
pub fn rank_of(above: usize, parent: &Tree, child: &Child) -> Result<usize, AllocError>
    ensures { IfOk result (λ rank. rank ≡ child_rank above parent.now child.now) }
{
    if is_lifted_inherits(&child.branch) && is_shared(&child.tree.node, parent.own.as_slice()) {
        one_more(above)
    } else {
        Ok(above)
    }
}
