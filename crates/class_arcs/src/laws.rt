//! The law as the clause of a function that does nothing.
ghost use Rattle.std.specs.Prelude.{◌≡◌};
ghost use Rattle.composition.specs.Paths.{Path, limits};
ghost use Rattle.composition.specs.Trees.{lifted_target};
ghost use Rattle.path_maps.specs.Maps.{lifted};

/// Composition lifts a class through an arc as `ArcMap::lift_class` of `path_maps` does: a path at or below the arc's target moves to
/// the author, and others stay.
pub fn classes_are_lifted_by_arcs()
    ensures { (target author path : Path) → lifted_target limits target author path ≡ lifted target author path }
{}
