//! What composition makes of a small world, as closed equations.
ghost use Rattle.std.specs.Prelude.{◌≡◌, codes, pos, negsuc, [], ◌∷◌};
ghost use Rattle.sdf_paths.specs.declared.element.Element.TheVariants.{Prim, Property};
ghost use Rattle.std.specs.Prelude.{true, false, Some, None};
ghost use Rattle.sdf_values.specs.declared.decimal.Num.TheVariants as num;
ghost use Rattle.sdf_values.specs.declared.value.Value.TheVariants as value;
ghost use Rattle.composition_worlds.specs.Replies.{replies, children, sites, faults, value_at_time, default, samples, targets, no_property, no_value, is_value, are_samples, are_targets};
ghost use Rattle.composition_worlds.specs.World102.{world as world_102};

/// Prim by prim.
pub fn world_102()
    ensures { (replies world_102 ([]) (children ∷ sites ∷ faults ∷ []) ([]) ≡ record { text = (codes "children /: [\"F\"]\nsites /: 1\n  @root.usda@ /\nfaults /: 0\n"); answers = ([]) })
        × (replies world_102 (Prim (codes "F") ∷ []) (children ∷ sites ∷ faults ∷ []) ((default (codes "r")) ∷ (value_at_time (codes "w") (pos 2500000000000000000)) ∷ (value_at_time (codes "p:q") (pos 0)) ∷ (samples (codes "x")) ∷ []) ≡ record { text = (codes "children /F: [\"F\", \"A\"]\nsites /F: 1\n  @root.usda@ /F\nfaults /F: 0\n"); answers = (no_property ∷ no_property ∷ no_property ∷ no_property ∷ []) })
        × (replies world_102 (Prim (codes "F") ∷ Prim (codes "F") ∷ []) (children ∷ sites ∷ faults ∷ []) ((targets (codes "x")) ∷ (value_at_time (codes "w") (pos 10000000000000000000)) ∷ (value_at_time (codes "p:q") (pos 24000000000000000000)) ∷ (value_at_time (codes "r") (negsuc 2999999999999999999)) ∷ []) ≡ record { text = (codes "children /F/F: []\nsites /F/F: 1\n  @root.usda@ /F/F\nfaults /F/F: 0\n"); answers = (no_property ∷ no_property ∷ no_property ∷ no_property ∷ []) })
        × (replies world_102 (Prim (codes "F") ∷ Prim (codes "A") ∷ []) (children ∷ sites ∷ faults ∷ []) ((targets (codes "p:q")) ∷ (value_at_time (codes "w") (pos 10000000000000000000)) ∷ (samples (codes "r")) ∷ (samples (codes "x")) ∷ []) ≡ record { text = (codes "children /F/A: []\nsites /F/A: 1\n  @root.usda@ /F/A\nfaults /F/A: 0\n"); answers = (no_property ∷ no_property ∷ no_property ∷ no_property ∷ []) }) }
{}
