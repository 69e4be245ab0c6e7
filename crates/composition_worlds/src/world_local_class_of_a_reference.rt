//! What composition makes of a small world, as closed equations.
ghost use Rattle.std.specs.Prelude.{◌≡◌, codes, pos, negsuc, [], ◌∷◌};
ghost use Rattle.sdf_paths.specs.declared.element.Element.TheVariants.{Prim, Property};
ghost use Rattle.std.specs.Prelude.{true, false, Some, None};
ghost use Rattle.sdf_values.specs.declared.decimal.Num.TheVariants as num;
ghost use Rattle.sdf_values.specs.declared.value.Value.TheVariants as value;
ghost use Rattle.composition_worlds.specs.Replies.{replies, children, sites, faults, value_at_time, default, samples, targets, no_property, no_value, is_value, are_samples, are_targets};
ghost use Rattle.composition_worlds.specs.WorldLocalClassOfAReference.{world as world_local_class_of_a_reference};

/// Prim by prim.
pub fn world_local_class_of_a_reference()
    ensures { (replies world_local_class_of_a_reference (Prim (codes "World") ∷ Prim (codes "char") ∷ Prim (codes "geo") ∷ []) (sites ∷ []) ((default (codes "x")) ∷ []) ≡ record { text = (codes "sites /World/char/geo: 3\n  @root.usda@ /World/char/_c\n  @m.usda@ /Model/geo\n  @m.usda@ /Model/_c\n"); answers = ((is_value (value.Whole (pos 9))) ∷ []) })
        × (replies world_local_class_of_a_reference (Prim (codes "World") ∷ Prim (codes "char") ∷ []) (children ∷ []) ([]) ≡ record { text = (codes "children /World/char: [\"_c\", \"geo\"]\n"); answers = ([]) }) }
{}
