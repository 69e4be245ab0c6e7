//! What composition makes of a small world, as closed equations.
ghost use Rattle.std.specs.Prelude.{◌≡◌, codes, pos, negsuc, [], ◌∷◌};
ghost use Rattle.sdf_paths.specs.declared.element.Element.TheVariants.{Prim, Property};
ghost use Rattle.std.specs.Prelude.{true, false, Some, None};
ghost use Rattle.sdf_values.specs.declared.decimal.Num.TheVariants as num;
ghost use Rattle.sdf_values.specs.declared.value.Value.TheVariants as value;
ghost use Rattle.composition_worlds.specs.Replies.{replies, children, sites, faults, value_at_time, default, samples, targets, no_property, no_value, is_value, are_samples, are_targets};
ghost use Rattle.composition_worlds.specs.World022.{world as world_022};

/// Prim by prim.
pub fn world_022()
    ensures { (replies world_022 ([]) (children ∷ sites ∷ faults ∷ []) ([]) ≡ record { text = (codes "children /: [\"E\", \"G\"]\nsites /: 1\n  @root.usda@ /\nfaults /: 0\n"); answers = ([]) })
        × (replies world_022 (Prim (codes "E") ∷ []) (children ∷ sites ∷ faults ∷ []) ((value_at_time (codes "r") (pos 24000000000000000000)) ∷ (targets (codes "y")) ∷ (samples (codes "p:q")) ∷ (samples (codes "w")) ∷ (default (codes "x")) ∷ (value_at_time (codes "q") (pos 24000000000000000000)) ∷ []) ≡ record { text = (codes "children /E: []\nsites /E: 1\n  @root.usda@ /E\nfaults /E: 0\n"); answers = (no_property ∷ no_property ∷ no_property ∷ no_property ∷ no_property ∷ no_property ∷ []) })
        × (replies world_022 (Prim (codes "G") ∷ []) (children ∷ sites ∷ faults ∷ []) ((value_at_time (codes "x") (pos 24000000000000000000)) ∷ (value_at_time (codes "r") (pos 0)) ∷ (value_at_time (codes "w") (pos 1000000000000000000)) ∷ (value_at_time (codes "p:q") (negsuc 2999999999999999999)) ∷ (default (codes "q")) ∷ (default (codes "y")) ∷ []) ≡ record { text = (codes "children /G: []\nsites /G: 1\n  @root.usda@ /G\nfaults /G: 0\n"); answers = (no_property ∷ no_property ∷ no_property ∷ no_property ∷ no_property ∷ no_property ∷ []) }) }
{}
