//! What composition makes of a small world, as closed equations.
ghost use Rattle.std.specs.Prelude.{◌≡◌, codes, pos, negsuc, [], ◌∷◌};
ghost use Rattle.sdf_paths.specs.declared.element.Element.TheVariants.{Prim, Property};
ghost use Rattle.std.specs.Prelude.{true, false, Some, None};
ghost use Rattle.sdf_values.specs.declared.decimal.Num.TheVariants as num;
ghost use Rattle.sdf_values.specs.declared.value.Value.TheVariants as value;
ghost use Rattle.composition_worlds.specs.Replies.{replies, children, sites, faults, value_at_time, default, samples, targets, no_property, no_value, is_value, are_samples, are_targets};
ghost use Rattle.composition_worlds.specs.World064.{world as world_064};

/// Prim by prim.
pub fn world_064()
    ensures { (replies world_064 ([]) (children ∷ sites ∷ faults ∷ []) ([]) ≡ record { text = (codes "children /: [\"_k\", \"B\", \"F\", \"E\"]\nsites /: 1\n  @root.usda@ /\nfaults /: 0\n"); answers = ([]) })
        × (replies world_064 (Prim (codes "_k") ∷ []) (children ∷ sites ∷ faults ∷ []) ((value_at_time (codes "q") (pos 1000000000000000000)) ∷ []) ≡ record { text = (codes "children /_k: [\"B\"]\nsites /_k: 1\n  @root.usda@ /_k\nfaults /_k: 0\n"); answers = (no_property ∷ []) })
        × (replies world_064 (Prim (codes "_k") ∷ Prim (codes "B") ∷ []) (children ∷ sites ∷ faults ∷ []) ((samples (codes "q")) ∷ []) ≡ record { text = (codes "children /_k/B: [\"_c\", \"_k\"]\nsites /_k/B: 1\n  @root.usda@ /_k/B\nfaults /_k/B: 0\n"); answers = (no_property ∷ []) })
        × (replies world_064 (Prim (codes "_k") ∷ Prim (codes "B") ∷ Prim (codes "_c") ∷ []) (children ∷ sites ∷ faults ∷ []) ((value_at_time (codes "q") (pos 10000000000000000000)) ∷ []) ≡ record { text = (codes "children /_k/B/_c: [\"_c\"]\nsites /_k/B/_c: 1\n  @root.usda@ /_k/B/_c\nfaults /_k/B/_c: 0\n"); answers = (no_property ∷ []) })
        × (replies world_064 (Prim (codes "_k") ∷ Prim (codes "B") ∷ Prim (codes "_c") ∷ Prim (codes "_c") ∷ []) (children ∷ sites ∷ faults ∷ []) ((samples (codes "q")) ∷ []) ≡ record { text = (codes "children /_k/B/_c/_c: []\nsites /_k/B/_c/_c: 1\n  @root.usda@ /_k/B/_c/_c\nfaults /_k/B/_c/_c: 0\n"); answers = (no_property ∷ []) })
        × (replies world_064 (Prim (codes "_k") ∷ Prim (codes "B") ∷ Prim (codes "_k") ∷ []) (children ∷ sites ∷ faults ∷ []) ((samples (codes "q")) ∷ []) ≡ record { text = (codes "children /_k/B/_k: [\"_c\", \"C\"]\nsites /_k/B/_k: 2\n  @root.usda@ /_k/B/_k\n  @root.usda@ /_k/B/_c\nfaults /_k/B/_k: 1\n  BrokenLayer @root.usda@</_k/B/_k> payload @broken.usda@</_k/B/_c> (offset = 0; scale = 3) Syntax 2:5\n"); answers = (no_property ∷ []) })
        × (replies world_064 (Prim (codes "_k") ∷ Prim (codes "B") ∷ Prim (codes "_k") ∷ Prim (codes "_c") ∷ []) (children ∷ sites ∷ faults ∷ []) ((samples (codes "q")) ∷ []) ≡ record { text = (codes "children /_k/B/_k/_c: []\nsites /_k/B/_k/_c: 1\n  @root.usda@ /_k/B/_c/_c\nfaults /_k/B/_k/_c: 0\n"); answers = (no_property ∷ []) })
        × (replies world_064 (Prim (codes "_k") ∷ Prim (codes "B") ∷ Prim (codes "_k") ∷ Prim (codes "C") ∷ []) (children ∷ sites ∷ faults ∷ []) ((value_at_time (codes "q") (pos 0)) ∷ []) ≡ record { text = (codes "children /_k/B/_k/C: []\nsites /_k/B/_k/C: 1\n  @root.usda@ /_k/B/_k/C\nfaults /_k/B/_k/C: 0\n"); answers = (no_property ∷ []) })
        × (replies world_064 (Prim (codes "B") ∷ []) (children ∷ sites ∷ faults ∷ []) ((default (codes "q")) ∷ []) ≡ record { text = (codes "children /B: []\nsites /B: 1\n  @root.usda@ /B\nfaults /B: 0\n"); answers = (no_property ∷ []) })
        × (replies world_064 (Prim (codes "F") ∷ []) (children ∷ sites ∷ faults ∷ []) ((samples (codes "q")) ∷ []) ≡ record { text = (codes "children /F: []\nsites /F: 1\n  @root.usda@ /F\nfaults /F: 0\n"); answers = (no_property ∷ []) })
        × (replies world_064 (Prim (codes "E") ∷ []) (children ∷ sites ∷ faults ∷ []) ((value_at_time (codes "q") (pos 1000000000000000000)) ∷ []) ≡ record { text = (codes "children /E: []\nsites /E: 1\n  @root.usda@ /E\nfaults /E: 0\n"); answers = (no_property ∷ []) }) }
{}
