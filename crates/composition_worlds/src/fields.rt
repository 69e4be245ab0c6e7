//! Specifiers, types, metadata, lists of schemas and properties of prims, as closed equations.
ghost use Rattle.std.specs.Prelude.{◌≡◌, codes, pos, true, false, [], ◌∷◌, Some, None};
ghost use Rattle.spec_parts.specs.declared.items.Specifier.TheVariants.{Def, Over, Class};
ghost use Rattle.sdf_values.specs.declared.value.Value.TheVariants as value;
ghost use Rattle.composition.specs.Paths.{limits};
ghost use Rattle.composition.specs.Views.{view};
ghost use Rattle.composition_worlds.specs.Looks.{kind_at, lists_at, marks_at};
ghost use Rattle.composition_worlds.specs.Short.{prims};
ghost use Rattle.composition_worlds.specs.WorldMetadata.{world as of_metadata, number_entry, inner_entry};
ghost use Rattle.composition_worlds.specs.WorldProperties.{world as of_properties};
ghost use Rattle.composition_worlds.specs.WorldSession.{world as with_session};
ghost use Rattle.composition_worlds.specs.WorldSpecifiers.{world as of_specifiers};

/// The strongest `def` or `class` says what a prim is, its own layers first: an `over` of a class is a `class` and has its type.
#[tactic(auto, unfolding(composition::specs::Compose::meaning))]
pub fn overs_are_what_they_stand_over()
    ensures of_a_class { kind_at of_specifiers (prims (codes "A" ∷ [])) ≡ (Class, Some (codes "Cube")) }
    ensures of_nothing { kind_at of_specifiers (prims (codes "B" ∷ [])) ≡ (Over, None) }
    ensures of_a_weaker_layer { kind_at of_specifiers (prims (codes "F" ∷ [])) ≡ (Def, Some (codes "Xform")) }
    ensures of_what_is_referred_to { kind_at of_specifiers (prims (codes "H" ∷ [])) ≡ (Class, Some (codes "Cube")) }
{}

/// A stronger layer and a stronger site win; but a `def` behind a reference goes before a `class` behind a class arc, whose type
/// is the stronger one.
#[tactic(auto, unfolding(composition::specs::Compose::meaning))]
pub fn the_strongest_specifier_and_type_are_kept()
    ensures own { kind_at of_specifiers (prims (codes "C" ∷ [])) ≡ (Def, Some (codes "Sphere")) }
    ensures class_arcs_come_last { kind_at of_specifiers (prims (codes "D" ∷ [])) ≡ (Def, Some (codes "Cube")) }
    ensures own_before_a_reference { kind_at of_specifiers (prims (codes "E" ∷ [])) ≡ (Class, Some (codes "Sphere")) }
    ensures own_before_a_weaker_layer { kind_at of_specifiers (prims (codes "G" ∷ [])) ≡ (Def, Some (codes "Mesh")) }
{}

/// Dictionaries merge key by key, nested ones too, and the stronger entry keeps its type; of all else the strongest is kept.
pub fn dictionaries_merge_and_all_else_is_the_strongest()
    ensures { (view limits of_metadata (prims (codes "A" ∷ []))).meta
        ≡ (codes "comment", value.Text (codes "the weaker"))
        ∷ (
          codes "customData",
          value.Dict (number_entry (codes "a") (pos 1) ∷ number_entry (codes "b") (pos 3)
              ∷ inner_entry (codes "d") (number_entry (codes "x") (pos 1) ∷ number_entry (codes "y") (pos 2) ∷ []) ∷ []),
        )
        ∷ (codes "kind", value.Text (codes "component"))
        ∷ (codes "note", value.Dict (number_entry (codes "a") (pos 1) ∷ [])) ∷ [] }
{}

/// The root has the metadata of the session and the root layer alone, the session's stronger, with the default prim and without sublayers.
pub fn the_root_has_the_metadata_of_two_layers()
    ensures { (view limits with_session []).meta
        ≡ (codes "comment", value.Text (codes "of the session")) ∷ (codes "defaultPrim", value.Text (codes "S")) ∷ (codes "upAxis", value.Text (codes "Y")) ∷ [] }
{}

/// Lists of schemas and of clips fold; an explicit empty list is an opinion, and without one there is no list.
#[tactic(auto, unfolding(composition::specs::Compose::meaning, composition::specs::Merging::merged_within))]
pub fn lists_of_schemas_fold()
    ensures over_a_list { lists_at of_metadata (prims (codes "A" ∷ [])) ≡ (Some (codes "C" ∷ codes "B" ∷ []), Some []) }
    ensures edits_alone { lists_at of_metadata (prims (codes "B" ∷ [])) ≡ (Some (codes "E" ∷ []), None) }
    ensures no_opinion { lists_at of_metadata (prims (codes "C" ∷ [])) ≡ (None, None) }
{}

/// Properties stand in the order of the weakest layer until a stronger one reorders them. One opinion makes a property custom, the
/// strongest says whether it is uniform, and a spec of another type or kind counts for nothing of it.
#[tactic(auto, unfolding(composition::specs::Compose::meaning))]
pub fn properties_are_ordered_and_marked()
    ensures { marks_at of_properties (prims (codes "A" ∷ []))
        ≡ (codes "c", false, Some false) ∷ (codes "r", true, None) ∷ (codes "s", false, None) ∷ (codes "a", true, Some false) ∷ (codes "b", false, Some true) ∷ [] }
{}
