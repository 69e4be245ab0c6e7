//! What composition makes of a small world, as closed equations.
ghost use Rattle.std.specs.Prelude.{◌≡◌, codes, pos, negsuc, [], ◌∷◌};
ghost use Rattle.sdf_paths.specs.declared.element.Element.TheVariants.{Prim, Property};
ghost use Rattle.std.specs.Prelude.{true, false, Some, None};
ghost use Rattle.sdf_values.specs.declared.decimal.Num.TheVariants as num;
ghost use Rattle.sdf_values.specs.declared.value.Value.TheVariants as value;
ghost use Rattle.composition_worlds.specs.Replies.{replies, children, sites, faults, value_at_time, default, samples, targets, no_property, no_value, is_value, are_samples, are_targets};
ghost use Rattle.composition_worlds.specs.World055.{world as world_055};

/// Prim by prim.
pub fn world_055()
    ensures { (replies world_055 ([]) (children ∷ sites ∷ faults ∷ []) ([]) ≡ record { text = (codes "children /: [\"_c\"]\nsites /: 1\n  @root.usda@ /\nfaults /: 0\n"); answers = ([]) })
        × (replies world_055 (Prim (codes "_c") ∷ []) (children ∷ sites ∷ faults ∷ []) ([]) ≡ record { text = (codes "children /_c: []\nsites /_c: 1\n  @root.usda@ /_c\nfaults /_c: 1\n  ArcCycle @root.usda@</_c> inherits </_c>\n"); answers = ([]) }) }
{}
