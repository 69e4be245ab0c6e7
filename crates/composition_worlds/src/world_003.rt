//! What composition makes of a small world, as closed equations.
ghost use Rattle.std.specs.Prelude.{◌≡◌, codes, pos, negsuc, [], ◌∷◌};
ghost use Rattle.sdf_paths.specs.declared.element.Element.TheVariants.{Prim, Property};
ghost use Rattle.std.specs.Prelude.{true, false, Some, None};
ghost use Rattle.sdf_values.specs.declared.decimal.Num.TheVariants as num;
ghost use Rattle.sdf_values.specs.declared.value.Value.TheVariants as value;
ghost use Rattle.composition_worlds.specs.Replies.{replies, children, sites, faults, value_at_time, default, samples, targets, no_property, no_value, is_value, are_samples, are_targets};
ghost use Rattle.composition_worlds.specs.World003.{world as world_003};

/// Prim by prim.
pub fn world_003()
    ensures { (replies world_003 ([]) (children ∷ sites ∷ faults ∷ []) ([]) ≡ record { text = (codes "children /: [\"A\", \"B\", \"R\"]\nsites /: 1\n  @root.usda@ /\nfaults /: 0\n"); answers = ([]) })
        × (replies world_003 (Prim (codes "A") ∷ []) (children ∷ sites ∷ faults ∷ []) ([]) ≡ record { text = (codes "children /A: []\nsites /A: 1\n  @root.usda@ /A\nfaults /A: 1\n  UnresolvedPrim @root.usda@</A> references </R/T>\n"); answers = ([]) })
        × (replies world_003 (Prim (codes "B") ∷ []) (children ∷ sites ∷ faults ∷ []) ([]) ≡ record { text = (codes "children /B: []\nsites /B: 2\n  @root.usda@ /B\n  @root.usda@ /R{s=x}T\nfaults /B: 0\n"); answers = ([]) })
        × (replies world_003 (Prim (codes "R") ∷ []) (children ∷ sites ∷ faults ∷ []) ([]) ≡ record { text = (codes "children /R: [\"T\"]\nsites /R: 3\n  @root.usda@ /R\n  @root.usda@ /R{s=x}\n  @root.usda@ /A\nfaults /R: 1\n  ArcCycle @root.usda@</A> references </R/T>\n"); answers = ([]) })
        × (replies world_003 (Prim (codes "R") ∷ Prim (codes "T") ∷ []) (children ∷ sites ∷ faults ∷ []) ([]) ≡ record { text = (codes "children /R/T: []\nsites /R/T: 1\n  @root.usda@ /R{s=x}T\nfaults /R/T: 0\n"); answers = ([]) }) }
{}
