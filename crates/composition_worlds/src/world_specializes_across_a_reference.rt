//! What composition makes of a small world, as closed equations.
ghost use Rattle.std.specs.Prelude.{◌≡◌, codes, pos, negsuc, [], ◌∷◌};
ghost use Rattle.sdf_paths.specs.declared.element.Element.TheVariants.{Prim, Property};
ghost use Rattle.std.specs.Prelude.{true, false, Some, None};
ghost use Rattle.sdf_values.specs.declared.decimal.Num.TheVariants as num;
ghost use Rattle.sdf_values.specs.declared.value.Value.TheVariants as value;
ghost use Rattle.composition_worlds.specs.Replies.{replies, children, sites, faults, value_at_time, default, samples, targets, no_property, no_value, is_value, are_samples, are_targets};
ghost use Rattle.composition_worlds.specs.WorldSpecializesAcrossAReference.{world as world_specializes_across_a_reference};

/// Prim by prim.
pub fn world_specializes_across_a_reference()
    ensures { (replies world_specializes_across_a_reference (Prim (codes "World") ∷ Prim (codes "char") ∷ []) (sites ∷ []) ((default (codes "x")) ∷ []) ≡ record { text = (codes "sites /World/char: 4\n  @root.usda@ /World/char\n  @m.usda@ /Model\n  @root.usda@ /_class\n  @m.usda@ /_class\n"); answers = ((is_value (value.Whole (pos 4))) ∷ []) }) }
{}
