//! What composition makes of a small world, as closed equations.
ghost use Rattle.std.specs.Prelude.{◌≡◌, codes, pos, negsuc, [], ◌∷◌};
ghost use Rattle.sdf_paths.specs.declared.element.Element.TheVariants.{Prim, Property};
ghost use Rattle.std.specs.Prelude.{true, false, Some, None};
ghost use Rattle.sdf_values.specs.declared.decimal.Num.TheVariants as num;
ghost use Rattle.sdf_values.specs.declared.value.Value.TheVariants as value;
ghost use Rattle.composition_worlds.specs.Replies.{replies, children, sites, faults, value_at_time, default, samples, targets, no_property, no_value, is_value, are_samples, are_targets};
ghost use Rattle.composition_worlds.specs.World120.{world as world_120};

/// Prim by prim.
pub fn world_120()
    ensures { (replies world_120 ([]) (children ∷ sites ∷ faults ∷ []) ([]) ≡ record { text = (codes "children /: [\"B\", \"K\", \"M\", \"_c\"]\nsites /: 1\n  @root.usda@ /\nfaults /: 0\n"); answers = ([]) })
        × (replies world_120 (Prim (codes "B") ∷ []) (children ∷ sites ∷ faults ∷ []) ((value_at_time (codes "x") (pos 1000000000000000000000000)) ∷ (samples (codes "p:q")) ∷ []) ≡ record { text = (codes "children /B: []\nsites /B: 2\n  @root.usda@ /B\n  @root.usda@ /_c\nfaults /B: 3\n  UnresolvedPrim @root.usda@</B> references @b.usda@</M/A>\n  TimeOutside @root.usda@</_c.x>\n  TargetOutside @root.usda@</_c.p:q> </K>\n"); answers = ((is_value (value.Number (num.Finite (record { digits = (pos 29); exp = (pos 0) })))) ∷ no_value ∷ []) })
        × (replies world_120 (Prim (codes "K") ∷ []) (children ∷ sites ∷ faults ∷ []) ((default (codes "x")) ∷ (value_at_time (codes "p:q") (pos 10000000000000000000)) ∷ []) ≡ record { text = (codes "children /K: []\nsites /K: 1\n  @root.usda@ /K\nfaults /K: 0\n"); answers = (no_property ∷ no_property ∷ []) })
        × (replies world_120 (Prim (codes "M") ∷ []) (children ∷ sites ∷ faults ∷ []) ((value_at_time (codes "x") (pos 24000000000000000000)) ∷ (value_at_time (codes "p:q") (negsuc 2999999999999999999)) ∷ []) ≡ record { text = (codes "children /M: []\nsites /M: 1\n  @root.usda@ /M\nfaults /M: 1\n  UnresolvedPrim @root.usda@</M> references @sub/d.usda@</M/G> (offset = 0; scale = 3)\n"); answers = (no_property ∷ no_value ∷ []) })
        × (replies world_120 (Prim (codes "_c") ∷ []) (children ∷ sites ∷ faults ∷ []) ((default (codes "x")) ∷ (default (codes "p:q")) ∷ []) ≡ record { text = (codes "children /_c: []\nsites /_c: 1\n  @root.usda@ /_c\nfaults /_c: 0\n"); answers = ((is_value (value.Number (num.Finite (record { digits = (pos 68); exp = (pos 0) })))) ∷ (is_value (value.Whole (pos 70))) ∷ []) }) }
{}
