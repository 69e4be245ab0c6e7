//! What composition makes of a small world, as closed equations.
ghost use Rattle.std.specs.Prelude.{◌≡◌, codes, pos, negsuc, [], ◌∷◌};
ghost use Rattle.sdf_paths.specs.declared.element.Element.TheVariants.{Prim, Property};
ghost use Rattle.std.specs.Prelude.{true, false, Some, None};
ghost use Rattle.sdf_values.specs.declared.decimal.Num.TheVariants as num;
ghost use Rattle.sdf_values.specs.declared.value.Value.TheVariants as value;
ghost use Rattle.composition_worlds.specs.Replies.{replies, children, sites, faults, value_at_time, default, samples, targets, no_property, no_value, is_value, are_samples, are_targets};
ghost use Rattle.composition_worlds.specs.World038.{world as world_038};

/// Prim by prim.
pub fn world_038()
    ensures { (replies world_038 ([]) (children ∷ sites ∷ faults ∷ []) ([]) ≡ record { text = (codes "children /: [\"M\", \"H\", \"G\", \"C\", \"E\"]\nsites /: 1\n  @root.usda@ /\nfaults /: 0\n"); answers = ([]) })
        × (replies world_038 (Prim (codes "M") ∷ []) (children ∷ sites ∷ faults ∷ []) ([]) ≡ record { text = (codes "children /M: []\nsites /M: 1\n  @root.usda@ /M\nfaults /M: 1\n  BadTarget @sub/d.usda@</M> payload @a.usda@</>\n"); answers = ([]) })
        × (replies world_038 (Prim (codes "H") ∷ []) (children ∷ sites ∷ faults ∷ []) ([]) ≡ record { text = (codes "children /H: [\"A\", \"C\"]\nsites /H: 1\n  @root.usda@ /H\nfaults /H: 0\n"); answers = ([]) })
        × (replies world_038 (Prim (codes "H") ∷ Prim (codes "A") ∷ []) (children ∷ sites ∷ faults ∷ []) ([]) ≡ record { text = (codes "children /H/A: [\"B\", \"D\"]\nsites /H/A: 2\n  @root.usda@ /H/A\n  @sub/d.usda@ /M\nfaults /H/A: 2\n  ArcCycle @root.usda@</H/A> references @root.usda@</H> (offset = 1; scale = 2)\n  BadTarget @sub/d.usda@</M> payload @a.usda@</>\n"); answers = ([]) })
        × (replies world_038 (Prim (codes "H") ∷ Prim (codes "A") ∷ Prim (codes "B") ∷ []) (children ∷ sites ∷ faults ∷ []) ([]) ≡ record { text = (codes "children /H/A/B: [\"C\", \"G\"]\nsites /H/A/B: 1\n  @root.usda@ /H/A/B\nfaults /H/A/B: 0\n"); answers = ([]) })
        × (replies world_038 (Prim (codes "H") ∷ Prim (codes "A") ∷ Prim (codes "B") ∷ Prim (codes "C") ∷ []) (children ∷ sites ∷ faults ∷ []) ([]) ≡ record { text = (codes "children /H/A/B/C: []\nsites /H/A/B/C: 1\n  @root.usda@ /H/A/B/C\nfaults /H/A/B/C: 0\n"); answers = ([]) })
        × (replies world_038 (Prim (codes "H") ∷ Prim (codes "A") ∷ Prim (codes "B") ∷ Prim (codes "G") ∷ []) (children ∷ sites ∷ faults ∷ []) ([]) ≡ record { text = (codes "children /H/A/B/G: []\nsites /H/A/B/G: 1\n  @root.usda@ /H/A/B/G\nfaults /H/A/B/G: 0\n"); answers = ([]) })
        × (replies world_038 (Prim (codes "H") ∷ Prim (codes "A") ∷ Prim (codes "D") ∷ []) (children ∷ sites ∷ faults ∷ []) ([]) ≡ record { text = (codes "children /H/A/D: [\"K\"]\nsites /H/A/D: 1\n  @root.usda@ /H/A/D\nfaults /H/A/D: 0\n"); answers = ([]) })
        × (replies world_038 (Prim (codes "H") ∷ Prim (codes "A") ∷ Prim (codes "D") ∷ Prim (codes "K") ∷ []) (children ∷ sites ∷ faults ∷ []) ([]) ≡ record { text = (codes "children /H/A/D/K: []\nsites /H/A/D/K: 1\n  @root.usda@ /H/A/D/K\nfaults /H/A/D/K: 0\n"); answers = ([]) })
        × (replies world_038 (Prim (codes "H") ∷ Prim (codes "C") ∷ []) (children ∷ sites ∷ faults ∷ []) ([]) ≡ record { text = (codes "children /H/C: []\nsites /H/C: 1\n  @root.usda@ /H/C\nfaults /H/C: 0\n"); answers = ([]) })
        × (replies world_038 (Prim (codes "G") ∷ []) (children ∷ sites ∷ faults ∷ []) ([]) ≡ record { text = (codes "children /G: [\"B\"]\nsites /G: 1\n  @root.usda@ /G\nfaults /G: 0\n"); answers = ([]) })
        × (replies world_038 (Prim (codes "G") ∷ Prim (codes "B") ∷ []) (children ∷ sites ∷ faults ∷ []) ([]) ≡ record { text = (codes "children /G/B: [\"H\"]\nsites /G/B: 1\n  @root.usda@ /G/B\nfaults /G/B: 0\n"); answers = ([]) })
        × (replies world_038 (Prim (codes "G") ∷ Prim (codes "B") ∷ Prim (codes "H") ∷ []) (children ∷ sites ∷ faults ∷ []) ([]) ≡ record { text = (codes "children /G/B/H: []\nsites /G/B/H: 1\n  @root.usda@ /G/B/H\nfaults /G/B/H: 0\n"); answers = ([]) })
        × (replies world_038 (Prim (codes "C") ∷ []) (children ∷ sites ∷ faults ∷ []) ([]) ≡ record { text = (codes "children /C: [\"E\"]\nsites /C: 1\n  @root.usda@ /C\nfaults /C: 0\n"); answers = ([]) })
        × (replies world_038 (Prim (codes "C") ∷ Prim (codes "E") ∷ []) (children ∷ sites ∷ faults ∷ []) ([]) ≡ record { text = (codes "children /C/E: []\nsites /C/E: 1\n  @root.usda@ /C/E\nfaults /C/E: 0\n"); answers = ([]) })
        × (replies world_038 (Prim (codes "E") ∷ []) (children ∷ sites ∷ faults ∷ []) ([]) ≡ record { text = (codes "children /E: [\"G\"]\nsites /E: 1\n  @root.usda@ /E\nfaults /E: 0\n"); answers = ([]) })
        × (replies world_038 (Prim (codes "E") ∷ Prim (codes "G") ∷ []) (children ∷ sites ∷ faults ∷ []) ([]) ≡ record { text = (codes "children /E/G: [\"E\"]\nsites /E/G: 1\n  @root.usda@ /E/G\nfaults /E/G: 0\n"); answers = ([]) })
        × (replies world_038 (Prim (codes "E") ∷ Prim (codes "G") ∷ Prim (codes "E") ∷ []) (children ∷ sites ∷ faults ∷ []) ([]) ≡ record { text = (codes "children /E/G/E: [\"B\"]\nsites /E/G/E: 1\n  @root.usda@ /E/G/E\nfaults /E/G/E: 0\n"); answers = ([]) })
        × (replies world_038 (Prim (codes "E") ∷ Prim (codes "G") ∷ Prim (codes "E") ∷ Prim (codes "B") ∷ []) (children ∷ sites ∷ faults ∷ []) ([]) ≡ record { text = (codes "children /E/G/E/B: []\nsites /E/G/E/B: 1\n  @root.usda@ /E/G/E/B\nfaults /E/G/E/B: 0\n"); answers = ([]) }) }
{}
