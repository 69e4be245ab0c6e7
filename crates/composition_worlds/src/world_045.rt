//! What composition makes of a small world, as closed equations.
ghost use Rattle.std.specs.Prelude.{◌≡◌, codes, pos, negsuc, [], ◌∷◌};
ghost use Rattle.sdf_paths.specs.declared.element.Element.TheVariants.{Prim, Property};
ghost use Rattle.std.specs.Prelude.{true, false, Some, None};
ghost use Rattle.sdf_values.specs.declared.decimal.Num.TheVariants as num;
ghost use Rattle.sdf_values.specs.declared.value.Value.TheVariants as value;
ghost use Rattle.composition_worlds.specs.Replies.{replies, children, sites, faults, value_at_time, default, samples, targets, no_property, no_value, is_value, are_samples, are_targets};
ghost use Rattle.composition_worlds.specs.World045.{world as world_045};

/// Prim by prim.
pub fn world_045()
    ensures { (replies world_045 ([]) (children ∷ sites ∷ faults ∷ []) ([]) ≡ record { text = (codes "children /: [\"B\"]\nsites /: 1\n  @root.usda@ /\nfaults /: 1\n  SublayerBroken @root.usda@ @sub/d.usda@\n"); answers = ([]) })
        × (replies world_045 (Prim (codes "B") ∷ []) (children ∷ sites ∷ faults ∷ []) ((value_at_time (codes "y") (pos 0)) ∷ (value_at_time (codes "x") (pos 1000000000000000000)) ∷ (value_at_time (codes "q") (pos 0)) ∷ (samples (codes "p:q")) ∷ (value_at_time (codes "w") (pos 1000000000000000000)) ∷ (default (codes "r")) ∷ []) ≡ record { text = (codes "children /B: []\nsites /B: 1\n  @root.usda@ /B\nfaults /B: 0\n"); answers = (no_property ∷ (is_value (value.Whole (pos 52))) ∷ no_property ∷ no_property ∷ no_property ∷ no_property ∷ []) }) }
{}
