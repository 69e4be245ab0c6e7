//! Whether an arc is followed, and where it leads.
ghost use Rattle.std.specs.Prelude.{◌≡◌, ◌==◌, ◌++◌, ◌∷◌, [], IfOk, not};
ghost use Rattle.sdf_paths.specs.Paths.{plain};
ghost use Rattle.sdf_values.specs.Scales.{composed};
ghost use Rattle.composition.specs.Paths.{limits, fits, up, tail};
ghost use Rattle.composition.specs.Texts.{both};
ghost use Rattle.composition.specs.World.{in_range, same_stack};
ghost use Rattle.composition.specs.Nodes.{author, child_path, child_chain, is_related, refusal};
ghost use Rattle.node_branches.specs.Following.{if_fits, if_in_range, on_chain, first_of_four};

use class_arcs::{path_above, same_stack};
use plain_data::{Items, copy};
use prim_nodes::{Lead, Node};
use prim_view::{ArcReason, StackName};
use sdf_paths::{Path, PathFault};
use sdf_values::LayerOffset;
use std::alloc::AllocError;

/// The path to which an arc of a level leads: its target, and then what stands below that level. None where it passes a limit.
pub fn child_path(node: &Node, level: usize, target: &Path) -> Result<Option<Path>, AllocError>
    ensures { IfOk result (λ path. path ≡ if_fits (child_path node.now level target.now)) }
{
    let author = path_above(&node.path, level)?;
    if_fits(&node.path, &author, target, level)
}

/// The path with the target in place of the author, where that is within the limits.
fn if_fits(
    path: &Path,
    author: &Path,
    target: &Path,
    level: usize,
) -> Result<Option<Path>, AllocError>
    requires { author.now ≡ up path.now level }
    ensures { IfOk result (λ there. there ≡ if_fits (target.now ++ tail path.now level)) }
{
    if target.is_root() || target.is_property() {
        return Err(AllocError);
    }
    // By the contract of `elements` both are paths by the rules, within the limits.
    let _target = target.elements();
    let _path = path.elements();
    match path.replace_prefix(author, target) {
        Ok(Some(there)) => {
            // So is what comes out.
            let _there = there.elements();
            Ok(Some(there))
        }
        Ok(None) => Err(AllocError),
        Err(PathFault::Bad { at: _ }) => Ok(None),
        Err(PathFault::NoMemory) => Err(AllocError),
    }
}

/// The author of the arcs of a level, without selections.
fn plain_author(node: &Node, level: usize) -> Result<Path, AllocError>
    ensures { IfOk result (λ path. path ≡ plain (author node.now level)) }
{
    let author = path_above(&node.path, level)?;
    let path = author.plain()?;
    Ok(path)
}

/// The authors on the way to the children of a level.
pub fn child_chain(node: &Node, level: usize) -> Result<Items<(StackName, Path)>, AllocError>
    ensures { IfOk result (λ chain. chain ≡ child_chain node.now level) }
{
    let author = plain_author(node, level)?;
    let mut chain = copy(&node.chain)?;
    chain.push((copy(&node.stack)?, author))?;
    Ok(chain)
}

/// Whether one of the paths begins with the other.
fn is_related(p: &Path, q: &Path) -> bool
    ensures { result ≡ is_related p.now q.now }
{
    q.has_prefix(p) || p.has_prefix(q)
}

/// Whether an arc leads back to an author.
fn is_back(stack: &StackName, author: &Path, lead: &Lead) -> bool
    ensures { result ≡ both (same_stack stack.now lead.now.stack) (is_related lead.now.target author.now) }
{
    same_stack(stack, &lead.stack) && is_related(&lead.target, author)
}

/// Whether an arc leads back to an author on its way.
fn is_on_chain(chain: &[(StackName, Path)], lead: &Lead) -> bool
    ensures { result ≡ on_chain chain.now lead.now }
{
    for (stack, path) in chain {
        if is_back(stack, path, lead) {
            return true;
        }
    }
    false
}

/// Whether an arc of this author leads back to an author on its way, itself included.
#[tactic(auto, using(crate::proofs::Following::back_before, crate::proofs::Following::back_here))]
fn is_cyclic(node: &Node, author: &Path, lead: &Lead) -> bool
    ensures { result ≡ on_chain (node.now.chain ++ (node.now.stack, author.now) ∷ []) lead.now }
{
    let before = is_on_chain(node.chain.as_slice(), lead);
    if before {
        return true;
    }
    let here = is_back(&node.stack, author, lead);
    here
}

/// The two offsets as one, where that is in range.
pub fn if_in_range(inner: LayerOffset, outer: LayerOffset) -> Option<LayerOffset>
    ensures { result ≡ if_in_range inner outer }
{
    match inner.then(outer) {
        Ok(offset) => Some(offset),
        Err(_) => None,
    }
}

/// The first reason whose test holds.
fn first_reason(
    is_cyclic: bool,
    is_last: bool,
    is_outside: bool,
    is_long: bool,
) -> Option<ArcReason>
    ensures { result ≡ first_of_four is_cyclic is_last is_outside is_long }
{
    if is_cyclic {
        return Some(ArcReason::ArcCycle);
    }
    if is_last {
        return Some(ArcReason::TooDeep);
    }
    if is_outside {
        return Some(ArcReason::OffsetRange);
    }
    if is_long {
        return Some(ArcReason::PathTooLong);
    }
    None
}

fn is_outside(inner: LayerOffset, outer: LayerOffset) -> bool
    ensures { result ≡ not (in_range (composed inner outer)) }
{
    if_in_range(inner, outer).is_none()
}

/// Whether the path to which an arc leads passes a limit.
fn is_long(node: &Node, level: usize, target: &Path) -> Result<bool, AllocError>
    ensures { IfOk result (λ long. long ≡ not (fits limits (child_path node.now level target.now))) }
{
    let there = child_path(node, level, target)?;
    Ok(there.is_none())
}

/// Whether no arc may follow.
fn is_last(node: &Node) -> bool
    ensures { result ≡ (node.now.depth == 0) }
{
    node.depth == 0
}

/// Why an arc of a level is not followed: it leads back to an author on its way, too many arcs stand before it, its offset leaves the
/// range, or its path passes a limit.
pub fn refusal(node: &Node, level: usize, lead: &Lead) -> Result<Option<ArcReason>, AllocError>
    ensures { IfOk result (λ reason. reason ≡ refusal limits node.now level lead.now) }
{
    let author = plain_author(node, level)?;
    let cyclic = is_cyclic(node, &author, lead);
    let last = is_last(node);
    let outside = is_outside(lead.offset, node.offset);
    let long = is_long(node, level, &lead.target)?;
    Ok(first_reason(cyclic, last, outside, long))
}
