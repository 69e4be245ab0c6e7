//! Children by their parents, as closed equations.
ghost use Rattle.std.specs.Prelude.{◌≡◌, codes, [], ◌∷◌};
ghost use Rattle.sdf_paths.specs.declared.element.Element.TheVariants.{Prim, Selection};
ghost use Rattle.composition.specs.Paths.{limits};
ghost use Rattle.composition.specs.World.{Root, Asset};
ghost use Rattle.composition.specs.Faults.{index};
ghost use Rattle.composition_worlds.specs.Short.{with_room_for};
ghost use Rattle.composition_worlds.specs.WorldClassesAcrossAReference.{world as classes};
ghost use Rattle.examples_extending.specs.Pairs.{by_parent, by_index, places};

/// A parent without arcs, a child with a reference whose target has a class: the whole index is that from the root, also where there is no room for
/// its four nodes.
#[tactic(auto, unfolding(composition::specs::Compose::meaning))]
pub fn an_arc_of_the_new_level()
    ensures by_tree { by_parent limits classes (Prim (codes "World") ∷ []) (codes "char") ≡ index limits classes (Prim (codes "World") ∷ Prim (codes "char") ∷ []) }
    ensures by_index { by_index limits classes (Prim (codes "World") ∷ []) (codes "char") ≡ index limits classes (Prim (codes "World") ∷ Prim (codes "char") ∷ []) }
    ensures cut { by_parent (with_room_for 3) classes (Prim (codes "World") ∷ []) (codes "char") ≡ index (with_room_for 3) classes (Prim (codes "World") ∷ Prim (codes "char") ∷ []) }
{}

/// A child below that reference: each node of the parent, the lifted class too, one level down.
#[tactic(auto, unfolding(composition::specs::Compose::meaning))]
pub fn arcs_of_the_level_above()
    ensures { places (by_index limits classes (Prim (codes "World") ∷ Prim (codes "char") ∷ []) (codes "k")) ≡
        (Root, Prim (codes "World") ∷ Prim (codes "char") ∷ Prim (codes "k") ∷ [])
        ∷ (Root, Prim (codes "_class") ∷ Prim (codes "k") ∷ [])
        ∷ (Asset (codes "m.usda"), Prim (codes "Model") ∷ Prim (codes "k") ∷ [])
        ∷ (Asset (codes "m.usda"), Prim (codes "_class") ∷ Prim (codes "k") ∷ []) ∷ [] }
{}
