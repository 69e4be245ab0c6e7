//! What composition makes of a small world, as closed equations.
ghost use Rattle.std.specs.Prelude.{◌≡◌, codes, pos, negsuc, [], ◌∷◌};
ghost use Rattle.sdf_paths.specs.declared.element.Element.TheVariants.{Prim, Property};
ghost use Rattle.std.specs.Prelude.{true, false, Some, None};
ghost use Rattle.sdf_values.specs.declared.decimal.Num.TheVariants as num;
ghost use Rattle.sdf_values.specs.declared.value.Value.TheVariants as value;
ghost use Rattle.composition_worlds.specs.Replies.{replies, children, sites, faults, value_at_time, default, samples, targets, no_property, no_value, is_value, are_samples, are_targets};
ghost use Rattle.composition_worlds.specs.WorldReferencesThatMeet.{world as world_references_that_meet};

/// Prim by prim.
pub fn world_references_that_meet()
    ensures { (replies world_references_that_meet (Prim (codes "X") ∷ Prim (codes "a") ∷ []) (faults ∷ []) ([]) ≡ record { text = (codes "faults /X/a: 0\n"); answers = ([]) })
        × (replies world_references_that_meet (Prim (codes "X") ∷ Prim (codes "a") ∷ Prim (codes "b") ∷ []) (faults ∷ children ∷ []) ([]) ≡ record { text = (codes "faults /X/a/b: 1\n  ArcCycle @root.usda@</Y/b> references </X>\nchildren /X/a/b: []\n"); answers = ([]) }) }
{}
