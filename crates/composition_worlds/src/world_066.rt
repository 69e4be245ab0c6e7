//! What composition makes of a small world, as closed equations.
ghost use Rattle.std.specs.Prelude.{◌≡◌, codes, pos, negsuc, [], ◌∷◌};
ghost use Rattle.sdf_paths.specs.declared.element.Element.TheVariants.{Prim, Property};
ghost use Rattle.std.specs.Prelude.{true, false, Some, None};
ghost use Rattle.sdf_values.specs.declared.decimal.Num.TheVariants as num;
ghost use Rattle.sdf_values.specs.declared.value.Value.TheVariants as value;
ghost use Rattle.composition_worlds.specs.Replies.{replies, children, sites, faults, value_at_time, default, samples, targets, no_property, no_value, is_value, are_samples, are_targets};
ghost use Rattle.composition_worlds.specs.World066.{world as world_066};

/// Prim by prim.
pub fn world_066()
    ensures { (replies world_066 ([]) (children ∷ sites ∷ faults ∷ []) ([]) ≡ record { text = (codes "children /: [\"E\"]\nsites /: 1\n  @root.usda@ /\nfaults /: 0\n"); answers = ([]) })
        × (replies world_066 (Prim (codes "E") ∷ []) (children ∷ sites ∷ faults ∷ []) ((targets (codes "q")) ∷ (value_at_time (codes "y") (pos 1000000000000000000)) ∷ (samples (codes "r")) ∷ []) ≡ record { text = (codes "children /E: [\"B\", \"E\"]\nsites /E: 1\n  @root.usda@ /E\nfaults /E: 0\n"); answers = (no_property ∷ no_property ∷ no_property ∷ []) })
        × (replies world_066 (Prim (codes "E") ∷ Prim (codes "B") ∷ []) (children ∷ sites ∷ faults ∷ []) ((default (codes "r")) ∷ (value_at_time (codes "y") (pos 2500000000000000000)) ∷ (value_at_time (codes "q") (pos 1000000000000000000)) ∷ []) ≡ record { text = (codes "children /E/B: [\"D\"]\nsites /E/B: 1\n  @root.usda@ /E/B\nfaults /E/B: 0\n"); answers = (no_property ∷ no_property ∷ no_property ∷ []) })
        × (replies world_066 (Prim (codes "E") ∷ Prim (codes "B") ∷ Prim (codes "D") ∷ []) (children ∷ sites ∷ faults ∷ []) ((default (codes "q")) ∷ (default (codes "r")) ∷ (default (codes "y")) ∷ []) ≡ record { text = (codes "children /E/B/D: [\"D\"]\nsites /E/B/D: 1\n  @root.usda@ /E/B/D\nfaults /E/B/D: 1\n  UnresolvedPrim @root.usda@</E/B/D> references </E/B/_k>\n"); answers = (no_property ∷ no_property ∷ no_property ∷ []) })
        × (replies world_066 (Prim (codes "E") ∷ Prim (codes "B") ∷ Prim (codes "D") ∷ Prim (codes "D") ∷ []) (children ∷ sites ∷ faults ∷ []) ((targets (codes "y")) ∷ (value_at_time (codes "q") (pos 1000000000000000000)) ∷ (value_at_time (codes "r") (pos 1000000000000000000000000)) ∷ []) ≡ record { text = (codes "children /E/B/D/D: []\nsites /E/B/D/D: 1\n  @root.usda@ /E/B/D/D\nfaults /E/B/D/D: 0\n"); answers = (no_property ∷ no_property ∷ no_property ∷ []) })
        × (replies world_066 (Prim (codes "E") ∷ Prim (codes "E") ∷ []) (children ∷ sites ∷ faults ∷ []) ((value_at_time (codes "r") (pos 0)) ∷ (value_at_time (codes "y") (pos 1000000000000000000)) ∷ (samples (codes "q")) ∷ []) ≡ record { text = (codes "children /E/E: [\"E\"]\nsites /E/E: 1\n  @root.usda@ /E/E\nfaults /E/E: 0\n"); answers = (no_property ∷ no_property ∷ no_property ∷ []) })
        × (replies world_066 (Prim (codes "E") ∷ Prim (codes "E") ∷ Prim (codes "E") ∷ []) (children ∷ sites ∷ faults ∷ []) ((value_at_time (codes "q") (pos 1000000000000000000)) ∷ (targets (codes "y")) ∷ (value_at_time (codes "r") (pos 1000000000000000000)) ∷ []) ≡ record { text = (codes "children /E/E/E: []\nsites /E/E/E: 1\n  @root.usda@ /E/E/E\nfaults /E/E/E: 0\n"); answers = (no_property ∷ no_property ∷ no_property ∷ []) }) }
{}
