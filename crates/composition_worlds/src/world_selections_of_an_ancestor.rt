//! What composition makes of a small world, as closed equations.
ghost use Rattle.std.specs.Prelude.{◌≡◌, codes, pos, negsuc, [], ◌∷◌};
ghost use Rattle.sdf_paths.specs.declared.element.Element.TheVariants.{Prim, Property};
ghost use Rattle.std.specs.Prelude.{true, false, Some, None};
ghost use Rattle.sdf_values.specs.declared.decimal.Num.TheVariants as num;
ghost use Rattle.sdf_values.specs.declared.value.Value.TheVariants as value;
ghost use Rattle.composition_worlds.specs.Replies.{replies, children, sites, faults, value_at_time, default, samples, targets, no_property, no_value, is_value, are_samples, are_targets};
ghost use Rattle.composition_worlds.specs.WorldSelectionsOfAnAncestor.{world as world_selections_of_an_ancestor};

/// Prim by prim.
pub fn world_selections_of_an_ancestor()
    ensures { (replies world_selections_of_an_ancestor (Prim (codes "A") ∷ []) (sites ∷ []) ((default (codes "v")) ∷ []) ≡ record { text = (codes "sites /A: 2\n  @root.usda@ /A\n  @r.usda@ /R{s=x}T\n"); answers = ((is_value (value.Whole (pos 1))) ∷ []) }) }
{}
