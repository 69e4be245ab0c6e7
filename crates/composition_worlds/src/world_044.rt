//! What composition makes of a small world, as closed equations.
ghost use Rattle.std.specs.Prelude.{◌≡◌, codes, pos, negsuc, [], ◌∷◌};
ghost use Rattle.sdf_paths.specs.declared.element.Element.TheVariants.{Prim, Property};
ghost use Rattle.std.specs.Prelude.{true, false, Some, None};
ghost use Rattle.sdf_values.specs.declared.decimal.Num.TheVariants as num;
ghost use Rattle.sdf_values.specs.declared.value.Value.TheVariants as value;
ghost use Rattle.composition_worlds.specs.Replies.{replies, children, sites, faults, value_at_time, default, samples, targets, no_property, no_value, is_value, are_samples, are_targets};
ghost use Rattle.composition_worlds.specs.World044.{world as world_044};

/// Prim by prim.
pub fn world_044()
    ensures { (replies world_044 ([]) (children ∷ sites ∷ faults ∷ []) ([]) ≡ record { text = (codes "children /: [\"E\", \"H\"]\nsites /: 1\n  @root.usda@ /\nfaults /: 0\n"); answers = ([]) })
        × (replies world_044 (Prim (codes "E") ∷ []) (children ∷ sites ∷ faults ∷ []) ((value_at_time (codes "r") (pos 2500000000000000000)) ∷ (value_at_time (codes "p:q") (pos 0)) ∷ (samples (codes "x")) ∷ (default (codes "w")) ∷ []) ≡ record { text = (codes "children /E: [\"E\"]\nsites /E: 3\n  @root.usda@ /E\n  @root.usda@ /H\n  @b.usda@ /H/E\nfaults /E: 6\n  ArcCycle @a.usda@</E> specializes </E>\n  ArcCycle @sub/c.usda@</E> specializes </E/_c>\n  BrokenLayer @b.usda@</H> references @broken.usda@</E> Syntax 2:5\n  ArcCycle @b.usda@</H> specializes </H/H>\n  ArcCycle @b.usda@</H> specializes </H>\n  ArcCycle @b.usda@</H/E> inherits </H/E/B>\n"); answers = (no_property ∷ no_property ∷ no_property ∷ no_property ∷ []) })
        × (replies world_044 (Prim (codes "E") ∷ Prim (codes "E") ∷ []) (children ∷ sites ∷ faults ∷ []) ((value_at_time (codes "p:q") (pos 10000000000000000000)) ∷ (targets (codes "x")) ∷ (targets (codes "w")) ∷ (targets (codes "r")) ∷ []) ≡ record { text = (codes "children /E/E: []\nsites /E/E: 1\n  @root.usda@ /H/E\nfaults /E/E: 1\n  ArcCycle @b.usda@</H/E> inherits </H/E/B>\n"); answers = (no_property ∷ no_property ∷ no_property ∷ no_property ∷ []) })
        × (replies world_044 (Prim (codes "H") ∷ []) (children ∷ sites ∷ faults ∷ []) ((samples (codes "r")) ∷ (value_at_time (codes "w") (pos 2500000000000000000)) ∷ (default (codes "p:q")) ∷ (targets (codes "x")) ∷ []) ≡ record { text = (codes "children /H: [\"E\"]\nsites /H: 2\n  @root.usda@ /H\n  @b.usda@ /H/E\nfaults /H: 4\n  BrokenLayer @b.usda@</H> references @broken.usda@</E> Syntax 2:5\n  ArcCycle @b.usda@</H> specializes </H/H>\n  ArcCycle @b.usda@</H> specializes </H>\n  ArcCycle @b.usda@</H/E> inherits </H/E/B>\n"); answers = (no_property ∷ no_property ∷ no_property ∷ no_property ∷ []) })
        × (replies world_044 (Prim (codes "H") ∷ Prim (codes "E") ∷ []) (children ∷ sites ∷ faults ∷ []) ((value_at_time (codes "w") (pos 1000000000000000000)) ∷ (targets (codes "r")) ∷ (value_at_time (codes "x") (pos 0)) ∷ (value_at_time (codes "p:q") (pos 1000000000000000000)) ∷ []) ≡ record { text = (codes "children /H/E: []\nsites /H/E: 1\n  @root.usda@ /H/E\nfaults /H/E: 1\n  ArcCycle @b.usda@</H/E> inherits </H/E/B>\n"); answers = (no_property ∷ no_property ∷ no_property ∷ no_property ∷ []) }) }
{}
