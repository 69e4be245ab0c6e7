//! A composed prim with its tree, by the tree of the prim above it.
ghost use Rattle.std.specs.Prelude.{◌≡◌, true, IfOk, option_map};
ghost use Rattle.std.specs.List.{list_all};
ghost use Rattle.std.specs.Option.{IfSome};
ghost use Rattle.composition.specs.Paths.{limits, up};
ghost use Rattle.layer_set.specs.LookUps.{look_ups};
ghost use Rattle.prim_index.specs.Answer.{stage_tree_at};
ghost use Rattle.prim_trees.specs.Meant.{meant};
ghost use Rattle.sdf_paths.specs.Paths.{is_prim_name};
ghost use Rattle.prim_compose.specs.Listing.{entry_at};
ghost use Rattle.prim_compose.specs.Trees.{tree_at};

use crate::view::view_with;
use layer_set::World;
use prim_index::{extended_tree, has_prims_alone, stage_tree};
use prim_trees::Tree;
use prim_view::PrimView;
use sdf_paths::Path;
use std::alloc::{AllocError, Global};

/// A composed prim, and the tree by which those below it are composed.
#[derive(Debug, Drop)]
pub struct ComposedPrim {
    /// The view of the path.
    pub view: PrimView,
    /// The tree of the path, where it is a plain prim path or `/`.
    pub tree: Option<Tree>,
}

/// The tree at a plain prim path or at `/`.
fn prim_tree(
    alloc: Global,
    world: &World,
    parent: Option<&Tree>,
    path: &Path,
) -> Result<Tree, AllocError>
    requires prims { list_all is_prim_name path.now ≡ true }
    requires parent { IfSome parent (λ t. meant t.now ≡ stage_tree_at limits (look_ups world.now) (up path.now 1)) }
    ensures { IfOk result (λ tree. meant tree ≡ stage_tree_at limits (look_ups world.now) path.now) }
{
    match parent {
        Some(parent) => extended_tree(alloc, world, parent, path),
        None => stage_tree(alloc, world, path),
    }
}

/// The tree of a path, by that of the path above it, or from the root where that is not told. What is neither a plain prim path nor `/`
/// has none.
///
/// # Errors
///
/// Memory ran out.
pub fn tree_below(
    alloc: Global,
    world: &World,
    parent: Option<&Tree>,
    path: &Path,
) -> Result<Option<Tree>, AllocError>
    requires { IfSome parent (λ t. meant t.now ≡ stage_tree_at limits (look_ups world.now) (up path.now 1)) }
    ensures { IfOk result (λ tree. option_map meant tree ≡ tree_at (look_ups world.now) path.now) }
{
    if has_prims_alone(path) {
        let tree = prim_tree(alloc, world, parent, path)?;
        return Ok(Some(tree));
    }
    Ok(None)
}

/// The composed view of a path with its tree, by the tree of the path above it, or from the root where that is not told. The view is that
/// of `compose_prim`. Where the tree above is at hand, what the layers say of the last name of the path alone is asked, and what stands
/// below the arcs that they say there.
///
/// # Errors
///
/// Memory ran out.
pub fn compose_prim_below(
    alloc: Global,
    world: &World,
    parent: Option<&Tree>,
    path: &Path,
) -> Result<ComposedPrim, AllocError>
    requires { IfSome parent (λ t. meant t.now ≡ stage_tree_at limits (look_ups world.now) (up path.now 1)) }
    ensures view { IfOk result (λ c. c.view ≡ entry_at world.now path.now) }
    ensures tree { IfOk result (λ c. option_map meant c.tree ≡ tree_at (look_ups world.now) path.now) }
{
    let tree = tree_below(alloc, world, parent, path)?;
    match view_with(alloc, world, path, &tree) {
        Ok(view) => Ok(ComposedPrim { view, tree }),
        Err(error) => {
            drop(tree);
            Err(error)
        }
    }
}

/// The composed view of a path, whether or not the stage has a prim there: the fields, properties and children of the prim, the sites
/// and choices that it is composed of, and the faults that were found, each once. `/` has the metadata of the session and the root
/// layer, the root prims, and the faults of the root's sublayers. What is neither a plain prim path nor `/`, as the path of a property
/// or one with variant selections, has nothing.
///
/// # Errors
///
/// Memory ran out.
pub fn compose_prim(alloc: Global, world: &World, path: &Path) -> Result<PrimView, AllocError>
    ensures { IfOk result (λ view. view ≡ entry_at world.now path.now) }
{
    let composed = compose_prim_below(alloc, world, None, path)?;
    Ok(composed.view)
}
