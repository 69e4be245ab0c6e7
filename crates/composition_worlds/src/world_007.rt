//! What composition makes of a small world, as closed equations.
ghost use Rattle.std.specs.Prelude.{◌≡◌, codes, pos, negsuc, [], ◌∷◌};
ghost use Rattle.sdf_paths.specs.declared.element.Element.TheVariants.{Prim, Property};
ghost use Rattle.std.specs.Prelude.{true, false, Some, None};
ghost use Rattle.sdf_values.specs.declared.decimal.Num.TheVariants as num;
ghost use Rattle.sdf_values.specs.declared.value.Value.TheVariants as value;
ghost use Rattle.composition_worlds.specs.Replies.{replies, children, sites, faults, value_at_time, default, samples, targets, no_property, no_value, is_value, are_samples, are_targets};
ghost use Rattle.composition_worlds.specs.World007.{world as world_007};

/// Prim by prim.
pub fn world_007()
    ensures { (replies world_007 ([]) (children ∷ sites ∷ faults ∷ []) ([]) ≡ record { text = (codes "children /: [\"A\", \"B\"]\nsites /: 1\n  @root.usda@ /\nfaults /: 1\n  SublayerMissing @root.usda@ @none.usda@\n"); answers = ([]) })
        × (replies world_007 (Prim (codes "A") ∷ []) (children ∷ sites ∷ faults ∷ []) ([]) ≡ record { text = (codes "children /A: [\"k\"]\nsites /A: 2\n  @root.usda@ /A\n  @root.usda@ /B\nfaults /A: 6\n  ArcCycle @root.usda@</A> inherits </A/c>\n  SublayerMissing @root.usda@ @none.usda@\n  MissingLayer @root.usda@</A> references @no.usda@\n  BrokenLayer @root.usda@</A> references @x.usdc@ Crate 1:1\n  ArcCycle @root.usda@</A> references </A>\n  UnresolvedPrim @root.usda@</A> references </U>\n"); answers = ([]) })
        × (replies world_007 (Prim (codes "A") ∷ Prim (codes "k") ∷ []) (children ∷ sites ∷ faults ∷ []) ([]) ≡ record { text = (codes "children /A/k: []\nsites /A/k: 1\n  @root.usda@ /A/k\nfaults /A/k: 2\n  SublayerMissing @root.usda@ @none.usda@\n  UnresolvedPrim @root.usda@</A/k> references </A/c>\n"); answers = ([]) })
        × (replies world_007 (Prim (codes "B") ∷ []) (children ∷ sites ∷ faults ∷ []) ([]) ≡ record { text = (codes "children /B: []\nsites /B: 1\n  @root.usda@ /B\nfaults /B: 0\n"); answers = ([]) }) }
{}
