//! The nodes of a tree from strong to weak.
ghost use Rattle.std.specs.Prelude.{◌≡◌, ◌++◌, ◌∷◌, [], IfOk, OnOk, IsTrue, map};
ghost use Rattle.std.specs.List.{list_any};
ghost use Rattle.composition.specs.Paths.{limits};
ghost use Rattle.composition.specs.Trees.{classes};
ghost use Rattle.composition.specs.Strength.{strong_of, weak_of, listing, sites, by_strength, by_classes, by_kind, part_of};
ghost use Rattle.prim_trees.specs.Meant.{meant};
ghost use Rattle.site_order.specs.Entries.{entries, tree_part, child_part, parts_of, all_parts, leads_to, is_promoted};

use crate::ranks::{Ranked, above_child, rank_of};
use class_arcs::{Class, class_list, is_class_of, same_kind};
use path_maps::ArcKind;
use prim_trees::{Child, Tree};
use std::alloc::{AllocError, Global};

/// One of the two parts of a listing.
#[derive(Clone, Copy)]
pub enum Part {
    /// The node, what it inherits, its variants, references and payloads.
    Strong,
    /// What it specializes, and the weak parts of what stands in its strong part.
    Weak,
}

/// Whether nothing stands below the node, which is then the whole of its listing and the one site.
pub fn is_bare(tree: &Tree) -> bool
    ensures listing { IsTrue result → listing limits (meant tree.now) ≡ meant tree.now ∷ [] }
    ensures sites { IsTrue result → sites limits (meant tree.now) ≡ meant tree.now ∷ [] }
{
    tree.own.is_empty() && tree.lifted.is_empty()
}

/// The node of a tree alone.
pub fn the_node<'t>(alloc: Global, tree: &'t Tree) -> Result<Vec<&'t Tree>, AllocError>
    ensures { IfOk result (λ nodes. map (λ t. meant t.now) nodes.items ≡ meant tree.now ∷ []) }
{
    let mut nodes = Vec::with_capacity(alloc, 1)?;
    nodes.push(tree)?;
    Ok(nodes)
}

/// The nodes of the tree from strong to weak.
#[tactic(auto, unfolding(crate::specs::Entries::tree_part))]
pub fn listing<'t>(alloc: Global, tree: &'t Tree) -> Result<Vec<&'t Tree>, AllocError>
    ensures { IfOk result (λ nodes. map (λ t. meant t.now) nodes.items ≡ listing limits (meant tree.now)) }
{
    if is_bare(tree) {
        return the_node(alloc, tree);
    }
    let mut all = strong_of(alloc, tree)?;
    push_part(&mut all, Part::Weak, 0, 0, tree)?;
    trees_of(alloc, all.as_slice())
}

/// The trees of entries.
pub fn trees_of<'t>(alloc: Global, ranked: &[Ranked<'t>]) -> Result<Vec<&'t Tree>, AllocError>
    ensures { IfOk result (λ nodes. map (λ t. meant t.now) nodes.items ≡ map (λ e. e.0) (entries ranked.now)) }
{
    let mut trees = Vec::new(alloc);
    for entry in ranked {
        trees.push(entry.tree)?;
    }
    Ok(trees)
}

/// The nodes of the strong part of the tree, each with its rank.
#[tactic(auto, unfolding(crate::specs::Entries::tree_part))]
pub fn strong_of<'t>(alloc: Global, tree: &'t Tree) -> Result<Vec<Ranked<'t>>, AllocError>
    ensures { IfOk result (λ part. entries part.items ≡ strong_of limits (meant tree.now)) }
{
    let mut part = Vec::new(alloc);
    push_part(&mut part, Part::Strong, 0, 0, tree)?;
    Ok(part)
}

/// The nodes of the weak part of the tree, each with its rank.
#[tactic(auto, unfolding(crate::specs::Entries::tree_part))]
pub fn weak_of<'t>(alloc: Global, tree: &'t Tree) -> Result<Vec<Ranked<'t>>, AllocError>
    ensures { IfOk result (λ part. entries part.items ≡ weak_of limits (meant tree.now)) }
{
    let mut part = Vec::new(alloc);
    push_part(&mut part, Part::Weak, 0, 0, tree)?;
    Ok(part)
}

/// Appends a part of a tree, of whose node the rank is told; `above` lifted inherits nodes stand at the node or above it.
#[cycle(order)]
#[tactic(auto, unfolding(crate::specs::Entries::tree_part))]
fn push_part<'t>(
    out: &mut Vec<Ranked<'t>>,
    part: Part,
    above: usize,
    rank: usize,
    tree: &'t Tree,
) -> Result<(), AllocError>
    ensures { OnOk result (entries out.new.items ≡ entries out.old.items ++ tree_part part above rank tree.now) }
{
    match part {
        Part::Strong => push_strong(out, above, rank, tree),
        Part::Weak => push_weak(out, above, rank, tree),
    }
}

/// Appends the node, what it inherits, its variants, references and payloads.
#[cycle(order)]
fn push_strong<'t>(
    out: &mut Vec<Ranked<'t>>,
    above: usize,
    rank: usize,
    tree: &'t Tree,
) -> Result<(), AllocError>
    ensures { OnOk result (entries out.new.items ≡ entries out.old.items ++ tree_part Part.Strong above rank tree.now) }
{
    push_node(out, rank, tree)?;
    push_by_strength(out, Part::Strong, above, tree)?;
    Ok(())
}

/// Appends what the node specializes, and then the weak parts of what stands in its strong part.
#[cycle(order)]
fn push_weak<'t>(
    out: &mut Vec<Ranked<'t>>,
    above: usize,
    rank: usize,
    tree: &'t Tree,
) -> Result<(), AllocError>
    ensures { OnOk result (entries out.new.items ≡ entries out.old.items ++ tree_part Part.Weak above rank tree.now) }
{
    push_by_classes(out, Part::Weak, above, tree, ArcKind::Specializes)?;
    push_by_strength(out, Part::Weak, above, tree)?;
    Ok(())
}

fn push_node<'t>(out: &mut Vec<Ranked<'t>>, rank: usize, tree: &'t Tree) -> Result<(), AllocError>
    ensures { OnOk result (entries out.new.items ≡ entries out.old.items ++ (meant tree.now, rank) ∷ []) }
{
    out.push(Ranked { tree, rank })?;
    Ok(())
}

/// Appends what stands under inherits, variants, references and payloads.
#[cycle(order)]
fn push_by_strength<'t>(
    out: &mut Vec<Ranked<'t>>,
    part: Part,
    above: usize,
    tree: &'t Tree,
) -> Result<(), AllocError>
    ensures { OnOk result (entries out.new.items ≡ entries out.old.items ++ by_strength (classes limits ArcKind.Inherits (meant tree.now)) (all_parts part above tree.now)) }
{
    push_by_classes(out, part, above, tree, ArcKind::Inherits)?;
    push_by_kind(out, part, above, tree, ArcKind::Variant)?;
    push_by_kind(out, part, above, tree, ArcKind::Reference)?;
    push_by_kind(out, part, above, tree, ArcKind::Payload)?;
    Ok(())
}

/// Appends what stands under the children of a class list, in its order.
#[cycle(order)]
fn push_by_classes<'t>(
    out: &mut Vec<Ranked<'t>>,
    part: Part,
    above: usize,
    tree: &'t Tree,
    kind: ArcKind,
) -> Result<(), AllocError>
    ensures { OnOk result (entries out.new.items ≡ entries out.old.items ++ by_classes kind (classes limits kind (meant tree.now)) (all_parts part above tree.now)) }
{
    let classes = class_list(*out.allocator(), tree, kind)?;
    for class in classes.as_slice() {
        push_class(out, part, above, tree, kind, class)?;
    }
    Ok(())
}

/// Appends what stands under the first child that is of the class: own ones come first.
#[cycle(order)]
fn push_class<'t>(
    out: &mut Vec<Ranked<'t>>,
    part: Part,
    above: usize,
    tree: &'t Tree,
    kind: ArcKind,
    class: &Class,
) -> Result<(), AllocError>
    ensures { OnOk result (entries out.new.items ≡ entries out.old.items ++ part_of kind class.now (all_parts part above tree.now)) }
{
    let found = push_first(out, part, above, tree.own.as_slice(), tree, kind, class)?;
    if found {
        return Ok(());
    }
    let _found = push_first(out, part, above, tree.lifted.as_slice(), tree, kind, class)?;
    Ok(())
}

/// The same among these children; says whether there is one.
#[cycle(order)]
fn push_first<'t>(
    out: &mut Vec<Ranked<'t>>,
    part: Part,
    above: usize,
    children: &'t [Child],
    parent: &Tree,
    kind: ArcKind,
    class: &Class,
) -> Result<bool, AllocError>
    ensures found { IfOk result (λ found. found ≡ list_any (leads_to kind class.now) children.now) }
    ensures out { OnOk result (entries out.new.items ≡ entries out.old.items ++ part_of kind class.now (parts_of part above parent.now children.now)) }
{
    for child in children {
        if is_class_of(kind, class, &child.branch) {
            push_child(out, part, above, child, parent)?;
            return Ok(true);
        }
    }
    Ok(false)
}

/// Appends what stands under the children of a kind.
#[cycle(order)]
fn push_by_kind<'t>(
    out: &mut Vec<Ranked<'t>>,
    part: Part,
    above: usize,
    tree: &'t Tree,
    kind: ArcKind,
) -> Result<(), AllocError>
    ensures { OnOk result (entries out.new.items ≡ entries out.old.items ++ by_kind kind (all_parts part above tree.now)) }
{
    push_kind(out, part, above, tree.own.as_slice(), tree, kind)?;
    push_kind(out, part, above, tree.lifted.as_slice(), tree, kind)?;
    Ok(())
}

#[cycle(order)]
fn push_kind<'t>(
    out: &mut Vec<Ranked<'t>>,
    part: Part,
    above: usize,
    children: &'t [Child],
    parent: &Tree,
    kind: ArcKind,
) -> Result<(), AllocError>
    ensures { OnOk result (entries out.new.items ≡ entries out.old.items ++ by_kind kind (parts_of part above parent.now children.now)) }
{
    for child in children {
        if same_kind(kind, child.branch.kind) {
            push_child(out, part, above, child, parent)?;
        }
    }
    Ok(())
}

/// Appends a child's part: in a weak part also the strong one of a child that is specialized.
#[cycle(order)]
#[tactic(auto, unfolding(crate::specs::Entries::child_part))]
fn push_child<'t>(
    out: &mut Vec<Ranked<'t>>,
    part: Part,
    above: usize,
    child: &'t Child,
    parent: &Tree,
) -> Result<(), AllocError>
    ensures { OnOk result (entries out.new.items ≡ entries out.old.items ++ child_part part above parent.now child.now) }
{
    let rank = rank_of(above, parent, child)?;
    let below = above_child(above, &child.branch)?;
    if is_promoted(part, child.branch.kind) {
        push_part(out, Part::Strong, below, rank, &child.tree)?;
    }
    push_part(out, part, below, rank, &child.tree)?;
    Ok(())
}

/// Whether the strong part of a child stands in a part beside its own: in a weak part that of a child that is specialized.
fn is_promoted(part: Part, kind: ArcKind) -> bool
    ensures { result ≡ is_promoted part kind }
{
    match part {
        Part::Strong => false,
        Part::Weak => same_kind(ArcKind::Specializes, kind),
    }
}
