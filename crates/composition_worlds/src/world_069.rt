//! What composition makes of a small world, as closed equations.
ghost use Rattle.std.specs.Prelude.{◌≡◌, codes, pos, negsuc, [], ◌∷◌};
ghost use Rattle.sdf_paths.specs.declared.element.Element.TheVariants.{Prim, Property};
ghost use Rattle.std.specs.Prelude.{true, false, Some, None};
ghost use Rattle.sdf_values.specs.declared.decimal.Num.TheVariants as num;
ghost use Rattle.sdf_values.specs.declared.value.Value.TheVariants as value;
ghost use Rattle.composition_worlds.specs.Replies.{replies, children, sites, faults, value_at_time, default, samples, targets, no_property, no_value, is_value, are_samples, are_targets};
ghost use Rattle.composition_worlds.specs.World069.{world as world_069};

/// Prim by prim.
pub fn world_069()
    ensures { (replies world_069 ([]) (children ∷ sites ∷ faults ∷ []) ([]) ≡ record { text = (codes "children /: [\"B\"]\nsites /: 1\n  @root.usda@ /\nfaults /: 0\n"); answers = ([]) })
        × (replies world_069 (Prim (codes "B") ∷ []) (children ∷ sites ∷ faults ∷ []) ((value_at_time (codes "p:q") (pos 0)) ∷ (default (codes "y")) ∷ (samples (codes "x")) ∷ (targets (codes "q")) ∷ []) ≡ record { text = (codes "children /B: []\nsites /B: 1\n  @root.usda@ /B\nfaults /B: 1\n  ArcCycle @root.usda@</B> specializes </B>\n"); answers = (no_property ∷ no_property ∷ no_property ∷ no_property ∷ []) }) }
{}
