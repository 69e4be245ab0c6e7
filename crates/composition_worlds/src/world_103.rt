//! What composition makes of a small world, as closed equations.
ghost use Rattle.std.specs.Prelude.{◌≡◌, codes, pos, negsuc, [], ◌∷◌};
ghost use Rattle.sdf_paths.specs.declared.element.Element.TheVariants.{Prim, Property};
ghost use Rattle.std.specs.Prelude.{true, false, Some, None};
ghost use Rattle.sdf_values.specs.declared.decimal.Num.TheVariants as num;
ghost use Rattle.sdf_values.specs.declared.value.Value.TheVariants as value;
ghost use Rattle.composition_worlds.specs.Replies.{replies, children, sites, faults, value_at_time, default, samples, targets, no_property, no_value, is_value, are_samples, are_targets};
ghost use Rattle.composition_worlds.specs.World103.{world as world_103};

/// Prim by prim.
pub fn world_103()
    ensures { (replies world_103 ([]) (children ∷ sites ∷ faults ∷ []) ([]) ≡ record { text = (codes "children /: [\"G\"]\nsites /: 1\n  @root.usda@ /\nfaults /: 1\n  SublayerMissing @root.usda@ @sub/c.usda@\n"); answers = ([]) })
        × (replies world_103 (Prim (codes "G") ∷ []) (children ∷ sites ∷ faults ∷ []) ((default (codes "x")) ∷ (samples (codes "p:q")) ∷ (default (codes "w")) ∷ []) ≡ record { text = (codes "children /G: [\"A\"]\nsites /G: 1\n  @root.usda@ /G\nfaults /G: 2\n  ArcCycle @root.usda@</G> references @root.usda@</G>\n  SublayerMissing @root.usda@ @sub/c.usda@\n"); answers = (no_property ∷ no_property ∷ no_property ∷ []) })
        × (replies world_103 (Prim (codes "G") ∷ Prim (codes "A") ∷ []) (children ∷ sites ∷ faults ∷ []) ((targets (codes "w")) ∷ (value_at_time (codes "p:q") (pos 2500000000000000000)) ∷ (targets (codes "x")) ∷ []) ≡ record { text = (codes "children /G/A: []\nsites /G/A: 1\n  @root.usda@ /G/A\nfaults /G/A: 0\n"); answers = (no_property ∷ (is_value (value.Whole (pos 62))) ∷ no_property ∷ []) }) }
{}
