//! What composition makes of a small world, as closed equations.
ghost use Rattle.std.specs.Prelude.{◌≡◌, codes, pos, negsuc, [], ◌∷◌};
ghost use Rattle.sdf_paths.specs.declared.element.Element.TheVariants.{Prim, Property};
ghost use Rattle.std.specs.Prelude.{true, false, Some, None};
ghost use Rattle.sdf_values.specs.declared.decimal.Num.TheVariants as num;
ghost use Rattle.sdf_values.specs.declared.value.Value.TheVariants as value;
ghost use Rattle.composition_worlds.specs.Replies.{replies, children, sites, faults, value_at_time, default, samples, targets, no_property, no_value, is_value, are_samples, are_targets};
ghost use Rattle.composition_worlds.specs.World005.{world as world_005};

/// Prim by prim.
pub fn world_005()
    ensures { (replies world_005 ([]) (children ∷ sites ∷ faults ∷ []) ([]) ≡ record { text = (codes "children /: [\"M\", \"A\"]\nsites /: 1\n  @root.usda@ /\nfaults /: 0\n"); answers = ([]) })
        × (replies world_005 (Prim (codes "M") ∷ []) (children ∷ sites ∷ faults ∷ []) ([]) ≡ record { text = (codes "children /M: [\"b\"]\nsites /M: 1\n  @root.usda@ /M\nfaults /M: 0\n"); answers = ([]) })
        × (replies world_005 (Prim (codes "M") ∷ Prim (codes "b") ∷ []) (children ∷ sites ∷ faults ∷ []) ([]) ≡ record { text = (codes "children /M/b: []\nsites /M/b: 1\n  @root.usda@ /M/b\nfaults /M/b: 0\n"); answers = ([]) })
        × (replies world_005 (Prim (codes "A") ∷ []) (children ∷ sites ∷ faults ∷ []) ([]) ≡ record { text = (codes "children /A: [\"b\"]\nsites /A: 3\n  @root.usda@ /A\n  @root.usda@ /A{s=x}\n  @root.usda@ /M\nfaults /A: 0\n"); answers = ([]) })
        × (replies world_005 (Prim (codes "A") ∷ Prim (codes "b") ∷ []) (children ∷ sites ∷ faults ∷ []) ([]) ≡ record { text = (codes "children /A/b: []\nsites /A/b: 1\n  @root.usda@ /M/b\nfaults /A/b: 0\n"); answers = ([]) }) }
{}
