//! What composing a path leaves for the paths right below it.
ghost use Rattle.std.specs.Prelude.{◌≡◌, IfSome};
ghost use Rattle.composition.specs.Paths.{limits};
ghost use Rattle.layer_set.specs.LookUps.{look_ups};
ghost use Rattle.prim_index.specs.Answer.{stage_tree_at};
ghost use Rattle.prim_trees.specs.Meant.{meant};
ghost use Rattle.stage_composer.specs.Indexes.{HasTree, at};

use layer_set::World;
use prim_trees::Tree;
use sdf_paths::Path;
use std::marker::Model;
use std::snapshot::Snapshot;

/// The tree of a path in a world, by which the trees of the paths right below it are made. What is no path of prims has none.
///
/// Contracts see it as the world and the path alone, since these settle the tree.
#[derive(Drop)]
pub struct StageIndex {
    tree: Option<Tree>,
    world: Snapshot<World>,
    place: Snapshot<Path>,
}

impl Model for StageIndex {
    ghost use Rattle.layer_set.specs.Worlds.{WorldData};
    ghost use Rattle.layer_set.specs.contracts.world.World as of_world;
    ghost use Rattle.sdf_paths.specs.declared.element.Element.{Element};
    ghost use Rattle.sdf_values.specs.contracts.value.Value as of_value;
    ghost use Rattle.std.specs.Coded.{codes};
    ghost use Rattle.std.specs.Prelude.{List};
    ghost use Rattle.stage_composer.specs.Indexes.{HasTree, at};

    ghost Value = { WorldData × List Element };

    ghost coded = { Prim.hlevel (codes, of_world.the_row.coded, of_value.the_row.coded) };

    ghost view = { λ i. at i.world.value i.place.value };

    ghost invariant = { λ i. HasTree i.world.value i.place.value i.tree };
}

impl StageIndex {
    /// The index of a path in a world, of its tree.
    pub fn of(world: &World, place: &Path, tree: Option<Tree>) -> StageIndex
        requires { HasTree world.now place.now tree }
        ensures { result ≡ at world.now place.now }
    {
        StageIndex {
            tree,
            world: Snapshot::of(world),
            place: Snapshot::of(place),
        }
    }

    /// The tree, where the path is one of prims.
    #[tactic(auto, using(crate::proofs::Above::tree_told))]
    pub fn tree(&self) -> Option<&Tree>
        ensures { IfSome result (λ t. meant t.now ≡ stage_tree_at limits (look_ups self.now.0) self.now.1) }
    {
        self.tree.as_ref()
    }
}
