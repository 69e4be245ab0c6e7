//! What composition makes of a small world, as closed equations.
ghost use Rattle.std.specs.Prelude.{◌≡◌, codes, pos, negsuc, [], ◌∷◌};
ghost use Rattle.sdf_paths.specs.declared.element.Element.TheVariants.{Prim, Property};
ghost use Rattle.std.specs.Prelude.{true, false, Some, None};
ghost use Rattle.sdf_values.specs.declared.decimal.Num.TheVariants as num;
ghost use Rattle.sdf_values.specs.declared.value.Value.TheVariants as value;
ghost use Rattle.composition_worlds.specs.Replies.{replies, children, sites, faults, value_at_time, default, samples, targets, no_property, no_value, is_value, are_samples, are_targets};
ghost use Rattle.composition_worlds.specs.WorldSamplesThroughAnOffset.{world as world_samples_through_an_offset};

/// Prim by prim.
pub fn world_samples_through_an_offset()
    ensures { (replies world_samples_through_an_offset (Prim (codes "A") ∷ []) ([]) ((value_at_time (codes "x") (pos 11000000000000000000)) ∷ (value_at_time (codes "x") (pos 19000000000000000000)) ∷ (value_at_time (codes "x") (pos 20000000000000000000)) ∷ (samples (codes "x")) ∷ (default (codes "x")) ∷ []) ≡ record { text = []; answers = ((is_value (value.Whole (pos 7))) ∷ (is_value (value.Whole (pos 7))) ∷ (is_value (value.Whole (pos 8))) ∷ (are_samples (((pos 12000000000000000000), (value.Whole (pos 7))) ∷ ((pos 20000000000000000000), (value.Whole (pos 8))) ∷ [])) ∷ no_value ∷ []) }) }
{}
