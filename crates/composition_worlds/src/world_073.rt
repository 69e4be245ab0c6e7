//! What composition makes of a small world, as closed equations.
ghost use Rattle.std.specs.Prelude.{◌≡◌, codes, pos, negsuc, [], ◌∷◌};
ghost use Rattle.sdf_paths.specs.declared.element.Element.TheVariants.{Prim, Property};
ghost use Rattle.std.specs.Prelude.{true, false, Some, None};
ghost use Rattle.sdf_values.specs.declared.decimal.Num.TheVariants as num;
ghost use Rattle.sdf_values.specs.declared.value.Value.TheVariants as value;
ghost use Rattle.composition_worlds.specs.Replies.{replies, children, sites, faults, value_at_time, default, samples, targets, no_property, no_value, is_value, are_samples, are_targets};
ghost use Rattle.composition_worlds.specs.World073.{world as world_073};

/// Prim by prim.
pub fn world_073()
    ensures { (replies world_073 ([]) (children ∷ sites ∷ faults ∷ []) ([]) ≡ record { text = (codes "children /: [\"_k\", \"D\", \"H\"]\nsites /: 1\n  @root.usda@ /\nfaults /: 0\n"); answers = ([]) })
        × (replies world_073 (Prim (codes "_k") ∷ []) (children ∷ sites ∷ faults ∷ []) ([]) ≡ record { text = (codes "children /_k: [\"F\", \"K\"]\nsites /_k: 4\n  @root.usda@ /_k\n  @a.usda@ /_k/F\n  @b.usda@ /_k\n  @sub/d.usda@ /_k/K\nfaults /_k: 2\n  ArcCycle @b.usda@</_k> inherits </_k>\n  ArcCycle @b.usda@</_k> references @b.usda@</_k>\n"); answers = ([]) })
        × (replies world_073 (Prim (codes "_k") ∷ Prim (codes "F") ∷ []) (children ∷ sites ∷ faults ∷ []) ([]) ≡ record { text = (codes "children /_k/F: []\nsites /_k/F: 2\n  @root.usda@ /_k/F\n  @b.usda@ /_k/F\nfaults /_k/F: 0\n"); answers = ([]) })
        × (replies world_073 (Prim (codes "_k") ∷ Prim (codes "K") ∷ []) (children ∷ sites ∷ faults ∷ []) ([]) ≡ record { text = (codes "children /_k/K: []\nsites /_k/K: 2\n  @root.usda@ /_k/K\n  @b.usda@ /_k/K\nfaults /_k/K: 1\n  ArcCycle @b.usda@</_k/K> inherits </_k/K>\n"); answers = ([]) })
        × (replies world_073 (Prim (codes "D") ∷ []) (children ∷ sites ∷ faults ∷ []) ([]) ≡ record { text = (codes "children /D: []\nsites /D: 1\n  @root.usda@ /D\nfaults /D: 0\n"); answers = ([]) })
        × (replies world_073 (Prim (codes "H") ∷ []) (children ∷ sites ∷ faults ∷ []) ([]) ≡ record { text = (codes "children /H: []\nsites /H: 1\n  @root.usda@ /H\nfaults /H: 2\n  ArcCycle @root.usda@</H> references </H>\n  ArcCycle @root.usda@</H> references @root.usda@</H> (offset = 0; scale = 2)\n"); answers = ([]) }) }
{}
