//! What composition makes of a small world, as closed equations.
ghost use Rattle.std.specs.Prelude.{◌≡◌, codes, pos, negsuc, [], ◌∷◌};
ghost use Rattle.sdf_paths.specs.declared.element.Element.TheVariants.{Prim, Property};
ghost use Rattle.std.specs.Prelude.{true, false, Some, None};
ghost use Rattle.sdf_values.specs.declared.decimal.Num.TheVariants as num;
ghost use Rattle.sdf_values.specs.declared.value.Value.TheVariants as value;
ghost use Rattle.composition_worlds.specs.Replies.{replies, children, sites, faults, value_at_time, default, samples, targets, no_property, no_value, is_value, are_samples, are_targets};
ghost use Rattle.composition_worlds.specs.World095.{world as world_095};

/// Prim by prim.
pub fn world_095()
    ensures { (replies world_095 ([]) (children ∷ sites ∷ faults ∷ []) ([]) ≡ record { text = (codes "children /: [\"E\", \"C\"]\nsites /: 1\n  @root.usda@ /\nfaults /: 0\n"); answers = ([]) })
        × (replies world_095 (Prim (codes "E") ∷ []) (children ∷ sites ∷ faults ∷ []) ((samples (codes "x")) ∷ (default (codes "p:q")) ∷ (samples (codes "q")) ∷ (value_at_time (codes "w") (pos 2500000000000000000)) ∷ (value_at_time (codes "y") (pos 24000000000000000000)) ∷ []) ≡ record { text = (codes "children /E: [\"G\"]\nsites /E: 1\n  @root.usda@ /E\nfaults /E: 0\n"); answers = (no_property ∷ no_property ∷ no_property ∷ no_property ∷ no_property ∷ []) })
        × (replies world_095 (Prim (codes "E") ∷ Prim (codes "G") ∷ []) (children ∷ sites ∷ faults ∷ []) ((value_at_time (codes "q") (negsuc 2999999999999999999)) ∷ (default (codes "w")) ∷ (value_at_time (codes "y") (pos 10000000000000000000)) ∷ (default (codes "p:q")) ∷ (default (codes "x")) ∷ []) ≡ record { text = (codes "children /E/G: []\nsites /E/G: 1\n  @root.usda@ /E/G\nfaults /E/G: 0\n"); answers = (no_property ∷ no_property ∷ no_property ∷ no_property ∷ no_property ∷ []) })
        × (replies world_095 (Prim (codes "C") ∷ []) (children ∷ sites ∷ faults ∷ []) ((default (codes "q")) ∷ (value_at_time (codes "x") (pos 0)) ∷ (value_at_time (codes "w") (negsuc 2999999999999999999)) ∷ (value_at_time (codes "y") (pos 1000000000000000000000000)) ∷ (targets (codes "p:q")) ∷ []) ≡ record { text = (codes "children /C: []\nsites /C: 1\n  @root.usda@ /C\nfaults /C: 0\n"); answers = (no_property ∷ (is_value (value.Whole (pos 95))) ∷ no_property ∷ no_property ∷ no_property ∷ []) }) }
{}
