//! How many nodes a tree has, and whether it was cut.
ghost use Rattle.std.specs.Prelude.{◌≡◌, min, sum_by};
ghost use Rattle.std.specs.List.{list_any};
ghost use Rattle.composition.specs.Trees.{size, is_overgrown, is_overgrown_among, has_spec_in};
ghost use Rattle.composition.specs.Compose.{rests_on_overgrown, is_overgrown_on_the_way};
ghost use Rattle.prim_trees.specs.Meant.{meant, trees_of};
ghost use Rattle.site_order.specs.Sizes.{child_size, child_has_spec, is_frame_overgrown, child_rests};

use prim_nodes::Frame;
use prim_trees::{Child, Tree};

/// How many nodes the tree has; `usize::MAX` where there are more.
#[cycle(size)]
#[tactic(auto, using(crate::proofs::Counting::size_is))]
pub fn size(tree: &Tree) -> usize
    ensures { result ≡ min (size (meant tree.now)) usize.MAX }
{
    let own = size_among(tree.own.as_slice());
    let lifted = size_among(tree.lifted.as_slice());
    own.saturating_add(lifted).saturating_add(1)
}

#[cycle(size)]
fn size_among(children: &[Child]) -> usize
    ensures { result ≡ min (sum_by child_size children.now) usize.MAX }
{
    let mut count = 0usize;
    for child in children {
        count = count.saturating_add(size(&child.tree));
    }
    count
}

/// Whether there was no room for some node.
#[cycle(overgrown)]
#[tactic(auto, using(crate::proofs::Counting::overgrown_is))]
pub fn is_overgrown(tree: &Tree) -> bool
    ensures { result ≡ is_overgrown (meant tree.now) }
{
    is_overgrown_among(tree.own.as_slice(), tree.own_cut)
        || is_overgrown_among(tree.lifted.as_slice(), tree.lifted_cut)
}

#[cycle(overgrown)]
fn is_overgrown_among(children: &[Child], is_cut: bool) -> bool
    ensures { result ≡ is_overgrown_among (trees_of children.now is_cut) }
{
    for child in children {
        if is_overgrown(&child.tree) {
            return true;
        }
    }
    is_cut
}

/// Whether some layer has a spec at a node of the tree.
#[cycle(specs)]
#[tactic(auto, using(crate::proofs::Counting::has_spec_is))]
pub fn has_spec_in(tree: &Tree) -> bool
    ensures { result ≡ has_spec_in (meant tree.now) }
{
    tree.here.has_spec
        || has_spec_among(tree.own.as_slice())
        || has_spec_among(tree.lifted.as_slice())
}

#[cycle(specs)]
fn has_spec_among(children: &[Child]) -> bool
    ensures { result ≡ list_any child_has_spec children.now }
{
    for child in children {
        if has_spec_in(&child.tree) {
            return true;
        }
    }
    false
}

/// Whether there was no room for some node, or the choices at a level of a node rest on a tree in which there was none.
pub fn is_overgrown_on_the_way(tree: &Tree) -> bool
    ensures { result ≡ is_overgrown_on_the_way (meant tree.now) }
{
    is_overgrown(tree) || rests_on_overgrown(tree)
}

#[cycle(rests)]
#[tactic(auto, using(crate::proofs::Counting::rests_is))]
fn rests_on_overgrown(tree: &Tree) -> bool
    ensures { result ≡ rests_on_overgrown (meant tree.now) }
{
    any_overgrown(tree.node.frames.as_slice())
        || any_rests(tree.own.as_slice())
        || any_rests(tree.lifted.as_slice())
}

#[cycle(rests)]
fn any_rests(children: &[Child]) -> bool
    ensures { result ≡ list_any child_rests children.now }
{
    for child in children {
        if rests_on_overgrown(&child.tree) {
            return true;
        }
    }
    false
}

fn any_overgrown(frames: &[Frame]) -> bool
    ensures { result ≡ list_any is_frame_overgrown frames.now }
{
    for frame in frames {
        if frame.overgrown {
            return true;
        }
    }
    false
}
