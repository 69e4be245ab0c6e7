//! The tree at a plain prim path by the tree of the path above. Each round of its choices extends that tree.
ghost use Rattle.std.specs.Prelude.{◌≡◌, true, IfOk};
ghost use Rattle.std.specs.Option.{IfSome};
ghost use Rattle.std.specs.List.{list_all};
ghost use Rattle.composition.specs.Paths.{limits, up};
ghost use Rattle.layer_set.specs.LookUps.{look_ups};
ghost use Rattle.prim_trees.specs.Meant.{meant};
ghost use Rattle.sdf_paths.specs.Paths.{is_prim_name};
ghost use Rattle.prim_index.specs.Answer.{stage_tree_at};
ghost use Rattle.prim_index.specs.Extending.{extended_by, unmarked, rounds_by, child_by};
ghost use Rattle.prim_index.specs.Loading.{loads};

use crate::extend::extended_tree_by;
use crate::grow::{
    MAX_NODES, MAX_ROUNDS, Payloads, choice_count, first_frame, is_loaded, is_settled, next_frame,
};
use crate::settling::{Settled, stage_tree};
use layer_set::World;
use plain_data::copy;
use prim_nodes::Frame;
use prim_trees::Tree;
use sdf_paths::Path;
use std::alloc::{AllocError, Global};

/// The frame as it counts in its own round: that it rests on an overgrown listing does not show there.
fn unmarked(frame: &Frame) -> Result<Frame, AllocError>
    ensures { IfOk result (λ f. f ≡ unmarked frame.now) }
{
    Ok(Frame {
        choices: copy(&frame.choices)?,
        loaded: frame.loaded,
        overgrown: false,
    })
}

/// The tree of a round of choices.
fn round_tree(
    alloc: Global,
    world: &World,
    name: &str,
    parent: &Tree,
    frame: &Frame,
) -> Result<Tree, AllocError>
    ensures { IfOk result (λ tree. meant tree ≡ extended_by (look_ups world.now) (unmarked frame.now) name.now (meant parent.now) 4096) }
{
    let frame = unmarked(frame)?;
    let tree = extended_tree_by(alloc, world, &frame, name, MAX_NODES, parent);
    drop(frame);
    tree
}

/// The frame of a child after so many further rounds of choices, with the tree that it gives where the last round made it: after a
/// round that decides nothing another would be the same, and so would be the tree.
fn settled_below(
    alloc: Global,
    world: &World,
    rounds: usize,
    name: &str,
    parent: &Tree,
    frame: Frame,
) -> Result<Settled, AllocError>
    ensures frame { IfOk result (λ s. s.frame ≡ rounds_by (look_ups world.now) name.now (meant parent.now) rounds frame) }
    ensures tree { IfOk result (λ s. IfSome s.tree (λ t. meant t ≡ extended_by (look_ups world.now) s.frame name.now (meant parent.now) 4096)) }
{
    if rounds == 0 {
        return Ok(Settled { frame, tree: None });
    }
    let count = choice_count(&frame);
    let tree = round_tree(alloc, world, name, parent, &frame)?;
    let next = match next_frame(alloc, frame, &tree) {
        Ok(next) => next,
        Err(error) => {
            drop(tree);
            return Err(error);
        }
    };
    let settled = is_settled(&next, count);
    if !settled {
        drop(tree);
        return settled_below(alloc, world, rounds - 1, name, parent, next);
    }
    if next.overgrown {
        drop(tree);
        return Ok(Settled {
            frame: next,
            tree: None,
        });
    }
    Ok(Settled {
        frame: next,
        tree: Some(tree),
    })
}

/// The tree of a child with a frame, where it is not known yet.
fn tree_below_with(
    alloc: Global,
    world: &World,
    name: &str,
    parent: &Tree,
    settled: Settled,
) -> Result<Tree, AllocError>
    requires { IfSome settled.tree (λ t. meant t ≡ extended_by (look_ups world.now) settled.frame name.now (meant parent.now) 4096) }
    ensures { IfOk result (λ tree. meant tree ≡ extended_by (look_ups world.now) settled.frame name.now (meant parent.now) 4096) }
{
    let Settled { frame, tree } = settled;
    match tree {
        Some(tree) => {
            drop(frame);
            Ok(tree)
        }
        None => {
            let tree = extended_tree_by(alloc, world, &frame, name, MAX_NODES, parent);
            drop(frame);
            tree
        }
    }
}

/// The tree of a child, loaded or not, by its parent's tree.
fn child_tree(
    alloc: Global,
    world: &World,
    name: &str,
    parent: &Tree,
    loaded: bool,
) -> Result<Tree, AllocError>
    ensures { IfOk result (λ tree. meant tree ≡ child_by (look_ups world.now) name.now (meant parent.now) loaded) }
{
    let first = first_frame(alloc, loaded);
    let settled = settled_below(alloc, world, MAX_ROUNDS, name, parent, first)?;
    tree_below_with(alloc, world, name, parent, settled)
}

/// The tree at a plain prim path, or at `/`, by that of the path above it: what the layers say of the new level alone is asked, and
/// what is grown below the arcs of that level. It is the tree that `stage_tree` makes from the root.
///
/// # Errors
///
/// Memory ran out.
pub fn extended_tree(
    alloc: Global,
    world: &World,
    parent: &Tree,
    place: &Path,
) -> Result<Tree, AllocError>
    requires prims { list_all is_prim_name place.now ≡ true }
    requires parent { meant parent.now ≡ stage_tree_at limits (look_ups world.now) (up place.now 1) }
    ensures { IfOk result (λ tree. meant tree ≡ stage_tree_at limits (look_ups world.now) place.now) }
{
    let Some(name) = place.last() else {
        return stage_tree(alloc, world, place);
    };
    let loaded = is_loaded(world, Payloads::Ruled, place)?;
    child_tree(alloc, world, name, parent, loaded)
}
