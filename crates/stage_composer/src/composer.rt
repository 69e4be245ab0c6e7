ghost use Rattle.std.specs.Prelude.{◌≡◌, ◌↔◌, IsTrue, ◌++◌, ◌∷◌, [], Ok, Err, Some, IfOk, IfErr, IfSome};
ghost use Rattle.std.specs.Option.{option_copied, option_map};
ghost use Rattle.composition.specs.Paths.{limits, up};
ghost use Rattle.compose_api.specs.Agreement.{IsChanged};
ghost use Rattle.compose_api.specs.Refusals.{IfOp};
ghost use Rattle.layer_apply.specs.Edits.{edit};
ghost use Rattle.layer_set.specs.LookUps.{look_ups, stands_at};
ghost use Rattle.prim_compose.specs.Listing.{entry_at};
ghost use Rattle.prim_reads.specs.Reads.{listed_reads};
ghost use Rattle.prim_index.specs.Answer.{stage_tree_at};
ghost use Rattle.prim_trees.specs.Meant.{meant};
ghost use Rattle.sdf_paths.specs.Paths.{parent};
ghost use Rattle.sdf_paths.specs.declared.element.Element.TheVariants as element;
ghost use Rattle.stage_composer.specs.Indexes.{at};

use crate::index::StageIndex;
use compose_api::{Applied, ApplyRefused, Composed, Composer};
use edit_batches::{Batch, EditFault, EditRefused};
use layer_changes::apply;
use layer_set::{Key, World};
use plain_data::Items;
use prim_compose::{compose_prim_below, tree_below};
use prim_reads::reads_at;
use prim_trees::Tree;
use sdf_paths::{Element, Path};
use stage_entries::StageEntry;
use std::alloc::{AllocError, Global};

/// Composes each prim from the layers of its world. What is below a prim is made by its tree.
#[derive(Debug, Drop)]
pub struct UsdComposer {
    alloc: Global,
}

impl UsdComposer {
    /// A composer whose results grow on this allocator. Takes no memory.
    pub fn new(alloc: Global) -> UsdComposer {
        UsdComposer { alloc }
    }
}

/// The path of a prim right below a path. There is none where the name is no identifier, or below a property; no composed prim
/// lists such a child, and it is told as want of memory.
fn child_path(place: &Path, name: &str) -> Result<Path, AllocError>
    ensures { IfOk result (λ child. child ≡ place.now ++ element.Prim name.now ∷ []) }
{
    if place.is_property() {
        return Err(AllocError);
    }
    match place.append(name) {
        Ok(child) => Ok(child),
        Err(_) => Err(AllocError),
    }
}

/// Whether a path is that of a prim right below another path. Takes no memory.
fn is_child_path(place: &Path, name: &str, child: &Path) -> bool
    ensures { IsTrue result ↔ (child.now ≡ place.now ++ element.Prim name.now ∷ []) }
{
    match child.elements().split_last() {
        Some((Element::Prim(last), above)) => last.as_str() == name && above == place.elements(),
        _ => false,
    }
}

/// The tree of the path above, where its index is told and has one.
#[tactic(auto, using(crate::proofs::Above::index_above))]
fn tree_above<'a>(world: &World, above: Option<&'a StageIndex>, place: &Path) -> Option<&'a Tree>
    requires { IfSome (option_copied above) (λ index. Some index ≡ option_map (at world.now) (parent place.now)) }
    ensures { IfSome result (λ t. meant t.now ≡ stage_tree_at limits (look_ups world.now) (up place.now 1)) }
{
    match above {
        None => None,
        Some(index) => index.tree(),
    }
}

/// The index of a path, by that of the path above where it is told.
fn index_below(
    alloc: Global,
    world: &World,
    above: Option<&StageIndex>,
    place: &Path,
) -> Result<StageIndex, AllocError>
    requires { IfSome (option_copied above) (λ index. Some index ≡ option_map (at world.now) (parent place.now)) }
    ensures { IfOk result (λ index. index ≡ at world.now place.now) }
{
    let known = tree_above(world, above, place);
    let tree = tree_below(alloc, world, known, place)?;
    Ok(StageIndex::of(world, place, tree))
}

/// The entry of a path with its index, by the index of the path above where it is told.
fn composed_below(
    alloc: Global,
    world: &World,
    above: Option<&StageIndex>,
    place: &Path,
) -> Result<Composed<StageEntry, StageIndex>, AllocError>
    requires { IfSome (option_copied above) (λ index. Some index ≡ option_map (at world.now) (parent place.now)) }
    ensures entry { IfOk result (λ composed. composed.entry ≡ entry_at world.now place.now) }
    ensures index { IfOk result (λ composed. composed.index ≡ at world.now place.now) }
{
    let known = tree_above(world, above, place);
    let composed = compose_prim_below(alloc, world, known, place)?;
    let index = StageIndex::of(world, place, composed.tree);
    match StageEntry::of(alloc, composed.view) {
        Ok(entry) => Ok(Composed { entry, index }),
        Err(_) => {
            drop(index);
            Err(AllocError)
        }
    }
}

/// The keys that a path reads, by those of the path above where they are told.
#[tactic(auto, using(crate::proofs::Above::keys_above))]
fn keys_below(
    alloc: Global,
    world: &World,
    above: Option<&Items<Key>>,
    place: &Path,
    index: &StageIndex,
) -> Result<Items<Key>, AllocError>
    requires above { IfSome (option_copied above) (λ keys. Some keys ≡ option_map (listed_reads world.now) (parent place.now)) }
    requires index { index.now ≡ at world.now place.now }
    ensures { IfOk result (λ keys. keys ≡ listed_reads world.now place.now) }
{
    reads_at(alloc, world, place, index.tree(), above)
}

/// The world after a batch with the keys that it changed, or the first operation that is refused.
#[tactic(auto, using(crate::proofs::Above::changes_told))]
fn apply_batch(
    alloc: Global,
    world: &World,
    batch: &Batch,
) -> Result<Applied<World, Key>, ApplyRefused<EditFault>>
    ensures ok { IfOk result (λ after. edit world.now batch.now ≡ Ok after.world) }
    ensures changed { IfOk result (λ after. IsChanged (stands_at world.now) (stands_at after.world) after.changed) }
    ensures refused { IfErr result (λ e. IfOp e (λ op fault. edit world.now batch.now ≡ Err (op, fault))) }
{
    match apply(alloc, world, batch) {
        Ok(applied) => Ok(Applied {
            world: applied.world,
            changed: applied.changed,
        }),
        Err(EditRefused::Op { op, fault }) => Err(ApplyRefused::Op { op, fault }),
        Err(EditRefused::NoMemory) => Err(ApplyRefused::NoMemory),
    }
}

impl Composer for UsdComposer {
    ghost use Rattle.std.specs.Prelude.{[], refl};
    ghost use Rattle.composition.specs.Keys.{KeyValue};
    ghost use Rattle.layer_apply.specs.Edits.{edit};
    ghost use Rattle.layer_set.specs.LookUps.{stands_at};
    ghost use Rattle.prim_compose.specs.Laws.{are_below, are_different};
    ghost use Rattle.prim_compose.specs.Listing.{entry_at, listed_below};
    ghost use Rattle.prim_reads.specs.Reads.{listed_reads};
    ghost use Rattle.sdf_paths.specs.Paths.{parent, depth};
    ghost use Rattle.stage_composer.specs.Covering.{what_is_read_covers, reads_are_in_order};
    ghost use Rattle.stage_composer.specs.Indexes.{at};

    type World = World;

    type Place = Path;

    type Entry = StageEntry;

    type Key = Key;

    type Index = StageIndex;

    type Batch = Batch;

    type Fault = EditFault;

    ghost Held = { KeyValue };

    ghost value_of = { stands_at };

    ghost entry_of = { entry_at };

    ghost index_of = { at };

    ghost reads_of = { listed_reads };

    ghost applied = { edit };

    ghost parent_of = { parent };

    ghost depth_of = { depth };

    ghost root_place = { [] };

    ghost listed = { listed_below };

    fn top(&self) -> Result<Path, AllocError> {
        Ok(Path::root(self.alloc))
    }

    fn child_count(&self, entry: &StageEntry) -> usize {
        entry.view().children.len()
    }

    fn child_at(&self, place: &Path, entry: &StageEntry, i: usize) -> Result<Path, AllocError> {
        match entry.view().children.get(i) {
            Some(name) => child_path(place, name.as_str()),
            None => unreachable!(),
        }
    }

    fn is_child(&self, place: &Path, entry: &StageEntry, i: usize, child: &Path) -> bool {
        match entry.view().children.get(i) {
            Some(name) => is_child_path(place, name.as_str(), child),
            None => false,
        }
    }

    fn index(
        &self,
        world: &World,
        above: Option<&StageIndex>,
        place: &Path,
    ) -> Result<StageIndex, AllocError> {
        index_below(self.alloc, world, above, place)
    }

    fn compose(
        &self,
        world: &World,
        above: Option<&StageIndex>,
        place: &Path,
    ) -> Result<Composed<StageEntry, StageIndex>, AllocError> {
        composed_below(self.alloc, world, above, place)
    }

    fn reads(
        &self,
        world: &World,
        above: Option<&Items<Key>>,
        place: &Path,
        index: &StageIndex,
    ) -> Result<Items<Key>, AllocError> {
        keys_below(self.alloc, world, above, place, index)
    }

    fn apply(
        &self,
        world: &World,
        batch: &Batch,
    ) -> Result<Applied<World, Key>, ApplyRefused<EditFault>> {
        apply_batch(self.alloc, world, batch)
    }

    ghost reads_cover = { what_is_read_covers };

    ghost reads_are_in_order = { reads_are_in_order };

    ghost root_has_no_parent = { refl };

    ghost root_is_at_the_top = { refl };

    ghost listed_are_different = { are_different };

    ghost listed_are_below = { are_below };
}
