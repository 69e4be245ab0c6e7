//! What composition makes of a small world, as closed equations.
ghost use Rattle.std.specs.Prelude.{◌≡◌, codes, pos, negsuc, [], ◌∷◌};
ghost use Rattle.sdf_paths.specs.declared.element.Element.TheVariants.{Prim, Property};
ghost use Rattle.std.specs.Prelude.{true, false, Some, None};
ghost use Rattle.sdf_values.specs.declared.decimal.Num.TheVariants as num;
ghost use Rattle.sdf_values.specs.declared.value.Value.TheVariants as value;
ghost use Rattle.composition_worlds.specs.Replies.{replies, children, sites, faults, value_at_time, default, samples, targets, no_property, no_value, is_value, are_samples, are_targets};
ghost use Rattle.composition_worlds.specs.World008.{world as world_008};

/// Prim by prim.
pub fn world_008()
    ensures { (replies world_008 ([]) (children ∷ sites ∷ faults ∷ []) ([]) ≡ record { text = (codes "children /: [\"A\"]\nsites /: 1\n  @root.usda@ /\nfaults /: 1\n  SublayerOffset @t.usda@ @s.usda@\n"); answers = ([]) })
        × (replies world_008 (Prim (codes "A") ∷ []) (children ∷ sites ∷ faults ∷ []) ([]) ≡ record { text = (codes "children /A: []\nsites /A: 1\n  @root.usda@ /A\nfaults /A: 0\n"); answers = ([]) }) }
{}
