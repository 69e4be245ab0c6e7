//! The keys that a prim reads, as closed equations.
ghost use Rattle.std.specs.Prelude.{◌≡◌, codes, true, [], ◌∷◌};
ghost use Rattle.sdf_paths.specs.declared.element.Element.TheVariants.{Prim, Property, Selection};
ghost use Rattle.composition.specs.Paths.{limits};
ghost use Rattle.composition.specs.Faults.{overgrown};
ghost use Rattle.composition.specs.Keys.{reads, same_keys, load, head, arcs, body};
ghost use Rattle.composition.specs.Views.{view, empty_view};
ghost use Rattle.composition_worlds.specs.Short.{with_room_for};
ghost use Rattle.composition_worlds.specs.WorldClassesAcrossAReference.{world as across_a_reference};

/// A prim that refers to a prim with a class: the rules and arcs at its levels, the class looked up in both stacks, the heads of
/// both layers, and the bodies at its sites.
#[tactic(auto, unfolding(composition::specs::Compose::meaning, composition::specs::Visits::visits))]
pub fn a_prim_reads_its_classes_in_both_stacks()
    ensures { same_keys (reads limits across_a_reference (Prim (codes "World") ∷ Prim (codes "char") ∷ []))
        (load (Prim (codes "World") ∷ Prim (codes "char") ∷ []) ∷ load (Prim (codes "World") ∷ [])
        ∷ arcs (codes "root.usda") (Prim (codes "World") ∷ Prim (codes "char") ∷ []) ∷ arcs (codes "root.usda") (Prim (codes "World") ∷ [])
        ∷ arcs (codes "root.usda") (Prim (codes "_class") ∷ []) ∷ arcs (codes "m.usda") (Prim (codes "Model") ∷ []) ∷ arcs (codes "m.usda") (Prim (codes "_class") ∷ [])
        ∷ head (codes "root.usda") ∷ head (codes "m.usda")
        ∷ body (codes "root.usda") (Prim (codes "World") ∷ Prim (codes "char") ∷ []) ∷ body (codes "root.usda") (Prim (codes "_class") ∷ [])
        ∷ body (codes "m.usda") (Prim (codes "Model") ∷ []) ∷ body (codes "m.usda") (Prim (codes "_class") ∷ []) ∷ []) ≡ true }
{}

/// Where a listing has room for three nodes, that prim is overgrown, an `over` with this one fault: it reads what was visited up to
/// then, and the bodies at these three nodes. With room for its four nodes it reads all.
#[tactic(auto, unfolding(composition::specs::Compose::meaning, composition::specs::Visits::visits))]
pub fn an_overgrown_prim_reads_the_bodies_at_its_first_nodes()
    ensures is_over { view (with_room_for 3) across_a_reference (Prim (codes "World") ∷ Prim (codes "char") ∷ []) ≡ record empty_view { faults = overgrown ∷ [] } }
    ensures first_bodies { same_keys (reads (with_room_for 3) across_a_reference (Prim (codes "World") ∷ Prim (codes "char") ∷ []))
        (load (Prim (codes "World") ∷ Prim (codes "char") ∷ []) ∷ load (Prim (codes "World") ∷ [])
        ∷ arcs (codes "root.usda") (Prim (codes "World") ∷ Prim (codes "char") ∷ []) ∷ arcs (codes "root.usda") (Prim (codes "World") ∷ [])
        ∷ arcs (codes "m.usda") (Prim (codes "Model") ∷ []) ∷ arcs (codes "m.usda") (Prim (codes "_class") ∷ [])
        ∷ head (codes "root.usda") ∷ head (codes "m.usda")
        ∷ body (codes "root.usda") (Prim (codes "World") ∷ Prim (codes "char") ∷ [])
        ∷ body (codes "m.usda") (Prim (codes "Model") ∷ []) ∷ body (codes "m.usda") (Prim (codes "_class") ∷ []) ∷ []) ≡ true }
    ensures with_room { reads (with_room_for 4) across_a_reference (Prim (codes "World") ∷ Prim (codes "char") ∷ [])
        ≡ reads limits across_a_reference (Prim (codes "World") ∷ Prim (codes "char") ∷ []) }
{}

/// A prim without arcs reads its own specs alone.
#[tactic(auto, unfolding(composition::specs::Compose::meaning, composition::specs::Visits::visits))]
pub fn a_prim_without_arcs_reads_its_own_specs()
    ensures { same_keys (reads limits across_a_reference (Prim (codes "World") ∷ []))
        (load (Prim (codes "World") ∷ []) ∷ arcs (codes "root.usda") (Prim (codes "World") ∷ []) ∷ head (codes "root.usda") ∷ body (codes "root.usda") (Prim (codes "World") ∷ []) ∷ []) ≡ true }
{}

/// `/` reads the heads that the root stack asks, and the names of its root prims.
#[tactic(auto, unfolding(composition::specs::Compose::meaning, composition::specs::Visits::visits))]
pub fn the_root_reads_heads_and_names()
    ensures { same_keys (reads limits across_a_reference []) (head (codes "root.usda") ∷ body (codes "root.usda") [] ∷ []) ≡ true }
{}

/// The path of a property is no prim's: it reads nothing.
pub fn a_property_reads_nothing()
    ensures { reads limits across_a_reference (Prim (codes "World") ∷ Property (codes "x") ∷ []) ≡ [] }
{}

/// Nor does a path with a variant selection.
pub fn a_selection_reads_nothing()
    ensures { reads limits across_a_reference (Prim (codes "World") ∷ Selection (codes "s") (codes "v") ∷ Prim (codes "char") ∷ []) ≡ [] }
{}
