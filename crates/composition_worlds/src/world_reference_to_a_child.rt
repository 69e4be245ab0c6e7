//! What composition makes of a small world, as closed equations.
ghost use Rattle.std.specs.Prelude.{◌≡◌, codes, pos, negsuc, [], ◌∷◌};
ghost use Rattle.sdf_paths.specs.declared.element.Element.TheVariants.{Prim, Property};
ghost use Rattle.std.specs.Prelude.{true, false, Some, None};
ghost use Rattle.sdf_values.specs.declared.decimal.Num.TheVariants as num;
ghost use Rattle.sdf_values.specs.declared.value.Value.TheVariants as value;
ghost use Rattle.composition_worlds.specs.Replies.{replies, children, sites, faults, value_at_time, default, samples, targets, no_property, no_value, is_value, are_samples, are_targets};
ghost use Rattle.composition_worlds.specs.WorldReferenceToAChild.{world as world_reference_to_a_child};

/// Prim by prim.
pub fn world_reference_to_a_child()
    ensures { (replies world_reference_to_a_child (Prim (codes "A") ∷ []) (faults ∷ []) ([]) ≡ record { text = (codes "faults /A: 1\n  ArcCycle @root.usda@</A> references </A/B>\n"); answers = ([]) })
        × (replies world_reference_to_a_child (Prim (codes "A") ∷ Prim (codes "C") ∷ []) (faults ∷ []) ((default (codes "x")) ∷ []) ≡ record { text = (codes "faults /A/C: 0\n"); answers = ((is_value (value.Whole (pos 1))) ∷ []) }) }
{}
