//! What composition makes of a small world, as closed equations.
ghost use Rattle.std.specs.Prelude.{◌≡◌, codes, pos, negsuc, [], ◌∷◌};
ghost use Rattle.sdf_paths.specs.declared.element.Element.TheVariants.{Prim, Property};
ghost use Rattle.std.specs.Prelude.{true, false, Some, None};
ghost use Rattle.sdf_values.specs.declared.decimal.Num.TheVariants as num;
ghost use Rattle.sdf_values.specs.declared.value.Value.TheVariants as value;
ghost use Rattle.composition_worlds.specs.Replies.{replies, children, sites, faults, value_at_time, default, samples, targets, no_property, no_value, is_value, are_samples, are_targets};
ghost use Rattle.composition_worlds.specs.World087.{world as world_087};

/// Prim by prim.
pub fn world_087()
    ensures { (replies world_087 ([]) (children ∷ sites ∷ faults ∷ []) ([]) ≡ record { text = (codes "children /: [\"A\", \"_c\", \"K\", \"G\"]\nsites /: 1\n  @root.usda@ /\nfaults /: 0\n"); answers = ([]) })
        × (replies world_087 (Prim (codes "A") ∷ []) (children ∷ sites ∷ faults ∷ []) ((samples (codes "w")) ∷ (value_at_time (codes "q") (pos 0)) ∷ (samples (codes "x")) ∷ []) ≡ record { text = (codes "children /A: []\nsites /A: 1\n  @root.usda@ /A\nfaults /A: 0\n"); answers = (no_property ∷ no_property ∷ no_property ∷ []) })
        × (replies world_087 (Prim (codes "_c") ∷ []) (children ∷ sites ∷ faults ∷ []) ((targets (codes "w")) ∷ (default (codes "x")) ∷ (value_at_time (codes "q") (pos 1000000000000000000)) ∷ []) ≡ record { text = (codes "children /_c: [\"G\"]\nsites /_c: 1\n  @root.usda@ /_c\nfaults /_c: 0\n"); answers = (no_property ∷ no_property ∷ no_property ∷ []) })
        × (replies world_087 (Prim (codes "_c") ∷ Prim (codes "G") ∷ []) (children ∷ sites ∷ faults ∷ []) ((targets (codes "w")) ∷ (value_at_time (codes "q") (pos 1000000000000000000000000)) ∷ (value_at_time (codes "x") (pos 1000000000000000000000000)) ∷ []) ≡ record { text = (codes "children /_c/G: [\"_c\"]\nsites /_c/G: 1\n  @root.usda@ /_c/G\nfaults /_c/G: 0\n"); answers = (no_property ∷ no_property ∷ (is_value (value.Whole (pos 17))) ∷ []) })
        × (replies world_087 (Prim (codes "_c") ∷ Prim (codes "G") ∷ Prim (codes "_c") ∷ []) (children ∷ sites ∷ faults ∷ []) ((value_at_time (codes "q") (pos 1000000000000000000)) ∷ (targets (codes "x")) ∷ (value_at_time (codes "w") (negsuc 2999999999999999999)) ∷ []) ≡ record { text = (codes "children /_c/G/_c: []\nsites /_c/G/_c: 1\n  @root.usda@ /_c/G/_c\nfaults /_c/G/_c: 0\n"); answers = (no_property ∷ no_property ∷ no_property ∷ []) })
        × (replies world_087 (Prim (codes "K") ∷ []) (children ∷ sites ∷ faults ∷ []) ((samples (codes "w")) ∷ (value_at_time (codes "x") (pos 2500000000000000000)) ∷ (targets (codes "q")) ∷ []) ≡ record { text = (codes "children /K: []\nsites /K: 1\n  @root.usda@ /K\nfaults /K: 0\n"); answers = (no_property ∷ no_property ∷ no_property ∷ []) })
        × (replies world_087 (Prim (codes "G") ∷ []) (children ∷ sites ∷ faults ∷ []) ((value_at_time (codes "x") (pos 2500000000000000000)) ∷ (samples (codes "q")) ∷ (value_at_time (codes "w") (pos 1000000000000000000000000)) ∷ []) ≡ record { text = (codes "children /G: []\nsites /G: 1\n  @root.usda@ /G\nfaults /G: 0\n"); answers = (no_property ∷ no_property ∷ no_property ∷ []) }) }
{}
