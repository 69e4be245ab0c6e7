//! What composition makes of a small world, as closed equations.
ghost use Rattle.std.specs.Prelude.{◌≡◌, codes, pos, negsuc, [], ◌∷◌};
ghost use Rattle.sdf_paths.specs.declared.element.Element.TheVariants.{Prim, Property};
ghost use Rattle.std.specs.Prelude.{true, false, Some, None};
ghost use Rattle.sdf_values.specs.declared.decimal.Num.TheVariants as num;
ghost use Rattle.sdf_values.specs.declared.value.Value.TheVariants as value;
ghost use Rattle.composition_worlds.specs.Replies.{replies, children, sites, faults, value_at_time, default, samples, targets, no_property, no_value, is_value, are_samples, are_targets};
ghost use Rattle.composition_worlds.specs.WorldABlockOverSamples.{world as world_a_block_over_samples};

/// Prim by prim.
pub fn world_a_block_over_samples()
    ensures { (replies world_a_block_over_samples (Prim (codes "A") ∷ []) ([]) ((value_at_time (codes "x") (pos 1000000000000000000)) ∷ (value_at_time (codes "x") (pos 0)) ∷ (value_at_time (codes "y") (pos 1000000000000000000)) ∷ []) ≡ record { text = []; answers = ((is_value value.Block) ∷ (is_value value.Block) ∷ no_property ∷ []) }) }
{}
