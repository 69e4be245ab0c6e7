//! Classes taken through an arc, from the node that it leads to up to the one that has it.
ghost use Rattle.std.specs.Prelude.{◌≡◌, ◌-◌, ◌++◌, IfOk, OnOk, filter_map};
ghost use Rattle.composition.specs.Paths.{limits, up};
ghost use Rattle.composition.specs.Nodes.{author};
ghost use Rattle.composition.specs.Trees.{lifted_class, lifted_through, lifted_target};
ghost use Rattle.class_arcs.specs.Lifting.{within_limits};

use crate::class::Class;
use plain_data::{Items, copy};
use prim_nodes::{Branch, Node};
use sdf_paths::{Path, PathFault};
use std::alloc::AllocError;

/// Appends the classes of a child, taken through its arc to the node.
pub fn push_lifted(
    out: &mut Items<Class>,
    node: &Node,
    branch: &Branch,
    classes: &[Class],
) -> Result<(), AllocError>
    ensures { OnOk result (out.new ≡ out.old ++ lifted_through limits node.now branch.now classes.now) }
{
    if classes.is_empty() {
        return Ok(());
    }
    let author = path_above(&node.path, branch.level)?;
    push_all_lifted(out, branch, &author, classes)
}

fn push_all_lifted(
    out: &mut Items<Class>,
    branch: &Branch,
    author: &Path,
    classes: &[Class],
) -> Result<(), AllocError>
    ensures { OnOk result (out.new ≡ out.old ++ filter_map (lifted_class limits branch.now author.now) classes.now) }
{
    for class in classes {
        if let Some(lifted) = lifted_class(branch, author, class)? {
            out.push(lifted)?;
        }
    }
    Ok(())
}

/// The class in the author's terms; none where its level is above the arc's, or its path would pass a limit.
fn lifted_class(branch: &Branch, author: &Path, class: &Class) -> Result<Option<Class>, AllocError>
    ensures { IfOk result (λ lifted. lifted ≡ lifted_class limits branch.now author.now class.now) }
{
    if class.level > branch.level {
        return Ok(None);
    }
    match lifted_target(&branch.lead.target, author, &class.target)? {
        Some(target) => Ok(Some(Class {
            level: class.level,
            target,
        })),
        None => Ok(None),
    }
}

/// The path with the author in place of the arc's target, where it begins with that; none where that passes a limit.
fn lifted_target(target: &Path, author: &Path, path: &Path) -> Result<Option<Path>, AllocError>
    ensures { IfOk result (λ lifted. lifted ≡ within_limits (lifted_target limits target.now author.now path.now)) }
{
    if author.is_root() || author.is_property() {
        return Err(AllocError);
    }
    // By the contract of `elements` both are paths by the rules, within the limits.
    let _author = author.elements();
    let _path = path.elements();
    match path.replace_prefix(target, author) {
        Ok(Some(moved)) => {
            // So is what comes out.
            let _moved = moved.elements();
            Ok(Some(moved))
        }
        Ok(None) => Ok(Some(copy(path)?)),
        Err(PathFault::Bad { at: _ }) => Ok(None),
        Err(PathFault::NoMemory) => Err(AllocError),
    }
}

/// The path without its last names and selections, so many of them.
pub fn path_above(path: &Path, levels: usize) -> Result<Path, AllocError>
    ensures { IfOk result (λ above. above ≡ up path.now levels) }
{
    path.up(levels)
}
