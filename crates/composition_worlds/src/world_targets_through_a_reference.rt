//! What composition makes of a small world, as closed equations.
ghost use Rattle.std.specs.Prelude.{◌≡◌, codes, pos, negsuc, [], ◌∷◌};
ghost use Rattle.sdf_paths.specs.declared.element.Element.TheVariants.{Prim, Property};
ghost use Rattle.std.specs.Prelude.{true, false, Some, None};
ghost use Rattle.sdf_values.specs.declared.decimal.Num.TheVariants as num;
ghost use Rattle.sdf_values.specs.declared.value.Value.TheVariants as value;
ghost use Rattle.composition_worlds.specs.Replies.{replies, children, sites, faults, value_at_time, default, samples, targets, no_property, no_value, is_value, are_samples, are_targets};
ghost use Rattle.composition_worlds.specs.WorldTargetsThroughAReference.{world as world_targets_through_a_reference};

/// Prim by prim.
pub fn world_targets_through_a_reference()
    ensures { (replies world_targets_through_a_reference (Prim (codes "A") ∷ []) (faults ∷ []) ((targets (codes "r")) ∷ []) ≡ record { text = (codes "faults /A: 1\n  TargetOutside @m.usda@</Model.r> </Other>\n"); answers = ((are_targets ((Prim (codes "A") ∷ Prim (codes "k") ∷ []) ∷ [])) ∷ []) }) }
{}
