//! What composition makes of a small world, as closed equations.
ghost use Rattle.std.specs.Prelude.{◌≡◌, codes, pos, negsuc, [], ◌∷◌};
ghost use Rattle.sdf_paths.specs.declared.element.Element.TheVariants.{Prim, Property};
ghost use Rattle.std.specs.Prelude.{true, false, Some, None};
ghost use Rattle.sdf_values.specs.declared.decimal.Num.TheVariants as num;
ghost use Rattle.sdf_values.specs.declared.value.Value.TheVariants as value;
ghost use Rattle.composition_worlds.specs.Replies.{replies, children, sites, faults, value_at_time, default, samples, targets, no_property, no_value, is_value, are_samples, are_targets};
ghost use Rattle.composition_worlds.specs.World057.{world as world_057};

/// Prim by prim.
pub fn world_057()
    ensures { (replies world_057 ([]) (children ∷ sites ∷ faults ∷ []) ([]) ≡ record { text = (codes "children /: [\"M\", \"_c\"]\nsites /: 1\n  @root.usda@ /\nfaults /: 0\n"); answers = ([]) })
        × (replies world_057 (Prim (codes "M") ∷ []) (children ∷ sites ∷ faults ∷ []) ((value_at_time (codes "q") (pos 10000000000000000000)) ∷ (samples (codes "r")) ∷ (samples (codes "x")) ∷ (value_at_time (codes "y") (negsuc 2999999999999999999)) ∷ []) ≡ record { text = (codes "children /M: []\nsites /M: 1\n  @root.usda@ /M\nfaults /M: 0\n"); answers = (no_property ∷ no_property ∷ no_property ∷ no_property ∷ []) })
        × (replies world_057 (Prim (codes "_c") ∷ []) (children ∷ sites ∷ faults ∷ []) ((targets (codes "q")) ∷ (value_at_time (codes "y") (pos 1000000000000000000)) ∷ (value_at_time (codes "x") (pos 10000000000000000000)) ∷ (value_at_time (codes "r") (pos 10000000000000000000)) ∷ []) ≡ record { text = (codes "children /_c: [\"_c\"]\nsites /_c: 1\n  @root.usda@ /_c\nfaults /_c: 0\n"); answers = (no_property ∷ no_property ∷ no_property ∷ no_property ∷ []) })
        × (replies world_057 (Prim (codes "_c") ∷ Prim (codes "_c") ∷ []) (children ∷ sites ∷ faults ∷ []) ((targets (codes "x")) ∷ (value_at_time (codes "y") (pos 10000000000000000000)) ∷ (value_at_time (codes "q") (pos 1000000000000000000)) ∷ (value_at_time (codes "r") (pos 1000000000000000000000000)) ∷ []) ≡ record { text = (codes "children /_c/_c: [\"A\"]\nsites /_c/_c: 2\n  @root.usda@ /_c/_c\n  @root.usda@ /_c/_c{u=y}\nfaults /_c/_c: 0\n"); answers = (no_property ∷ no_property ∷ no_property ∷ no_property ∷ []) })
        × (replies world_057 (Prim (codes "_c") ∷ Prim (codes "_c") ∷ Prim (codes "A") ∷ []) (children ∷ sites ∷ faults ∷ []) ((samples (codes "q")) ∷ (value_at_time (codes "x") (pos 2500000000000000000)) ∷ (value_at_time (codes "r") (negsuc 2999999999999999999)) ∷ (value_at_time (codes "y") (pos 1000000000000000000)) ∷ []) ≡ record { text = (codes "children /_c/_c/A: []\nsites /_c/_c/A: 1\n  @root.usda@ /_c/_c{u=y}A\nfaults /_c/_c/A: 0\n"); answers = (no_property ∷ no_property ∷ no_property ∷ no_property ∷ []) }) }
{}
