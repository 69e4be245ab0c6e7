//! What composition makes of a small world, as closed equations.
ghost use Rattle.std.specs.Prelude.{◌≡◌, codes, pos, negsuc, [], ◌∷◌};
ghost use Rattle.sdf_paths.specs.declared.element.Element.TheVariants.{Prim, Property};
ghost use Rattle.std.specs.Prelude.{true, false, Some, None};
ghost use Rattle.sdf_values.specs.declared.decimal.Num.TheVariants as num;
ghost use Rattle.sdf_values.specs.declared.value.Value.TheVariants as value;
ghost use Rattle.composition_worlds.specs.Replies.{replies, children, sites, faults, value_at_time, default, samples, targets, no_property, no_value, is_value, are_samples, are_targets};
ghost use Rattle.composition_worlds.specs.World096.{world as world_096};

/// Prim by prim.
pub fn world_096()
    ensures { (replies world_096 ([]) (children ∷ sites ∷ faults ∷ []) ([]) ≡ record { text = (codes "children /: [\"H\", \"C\"]\nsites /: 1\n  @root.usda@ /\nfaults /: 2\n  SublayerBroken @root.usda@ @broken.usda@\n  SublayerMissing @root.usda@ @bro\tken@\n"); answers = ([]) })
        × (replies world_096 (Prim (codes "H") ∷ []) (children ∷ sites ∷ faults ∷ []) ((value_at_time (codes "q") (negsuc 2999999999999999999)) ∷ (value_at_time (codes "p:q") (pos 0)) ∷ (default (codes "x")) ∷ []) ≡ record { text = (codes "children /H: [\"C\", \"_k\"]\nsites /H: 1\n  @root.usda@ /H\nfaults /H: 0\n"); answers = (no_property ∷ no_property ∷ no_property ∷ []) })
        × (replies world_096 (Prim (codes "H") ∷ Prim (codes "C") ∷ []) (children ∷ sites ∷ faults ∷ []) ((default (codes "p:q")) ∷ (samples (codes "q")) ∷ (targets (codes "x")) ∷ []) ≡ record { text = (codes "children /H/C: [\"F\"]\nsites /H/C: 1\n  @root.usda@ /H/C\nfaults /H/C: 0\n"); answers = (no_property ∷ no_property ∷ no_property ∷ []) })
        × (replies world_096 (Prim (codes "H") ∷ Prim (codes "C") ∷ Prim (codes "F") ∷ []) (children ∷ sites ∷ faults ∷ []) ((samples (codes "p:q")) ∷ (value_at_time (codes "x") (pos 0)) ∷ (default (codes "q")) ∷ []) ≡ record { text = (codes "children /H/C/F: [\"C\"]\nsites /H/C/F: 1\n  @root.usda@ /H/C/F\nfaults /H/C/F: 0\n"); answers = (no_property ∷ no_property ∷ no_property ∷ []) })
        × (replies world_096 (Prim (codes "H") ∷ Prim (codes "C") ∷ Prim (codes "F") ∷ Prim (codes "C") ∷ []) (children ∷ sites ∷ faults ∷ []) ((samples (codes "x")) ∷ (default (codes "p:q")) ∷ (targets (codes "q")) ∷ []) ≡ record { text = (codes "children /H/C/F/C: []\nsites /H/C/F/C: 1\n  @root.usda@ /H/C/F/C\nfaults /H/C/F/C: 0\n"); answers = (no_property ∷ no_property ∷ no_property ∷ []) })
        × (replies world_096 (Prim (codes "H") ∷ Prim (codes "_k") ∷ []) (children ∷ sites ∷ faults ∷ []) ((targets (codes "q")) ∷ (samples (codes "x")) ∷ (targets (codes "p:q")) ∷ []) ≡ record { text = (codes "children /H/_k: []\nsites /H/_k: 1\n  @root.usda@ /H/_k\nfaults /H/_k: 0\n"); answers = (no_property ∷ no_property ∷ no_property ∷ []) })
        × (replies world_096 (Prim (codes "C") ∷ []) (children ∷ sites ∷ faults ∷ []) ((value_at_time (codes "p:q") (pos 0)) ∷ (targets (codes "q")) ∷ (value_at_time (codes "x") (pos 2500000000000000000)) ∷ []) ≡ record { text = (codes "children /C: []\nsites /C: 1\n  @root.usda@ /C\nfaults /C: 0\n"); answers = (no_property ∷ (are_targets ((Prim (codes "H") ∷ []) ∷ [])) ∷ no_property ∷ []) }) }
{}
