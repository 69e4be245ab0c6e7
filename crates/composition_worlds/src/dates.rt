//! Since when prims of small worlds are as they are.
ghost use Rattle.std.specs.Prelude.{codes, pos, [], ◌∷◌};
ghost use Rattle.composition.specs.Dates.{IsSince};
ghost use Rattle.composition.specs.Paths.{limits};
ghost use Rattle.composition_worlds.specs.Short.{prims, with_room_for};
ghost use Rattle.composition_worlds.specs.WorldAChainOfClasses.{chain};
ghost use Rattle.composition_worlds.specs.WorldDates.{two, three, opened, after};

/// In the first version each prim is as it is since then.
pub fn first_versions_date_all_prims()
    ensures { IsSince limits (opened (two (pos 2)) ∷ []) (prims (codes "A" ∷ [])) 0 }
{}

/// A batch that gives another value to an attribute dates its prim anew, and no other: the root and the prim beside it stay as they were.
pub fn an_edit_dates_its_prim()
    ensures edited { IsSince limits (after [] (two (pos 3)) ∷ opened (two (pos 2)) ∷ []) (prims (codes "B" ∷ [])) 1 }
    ensures beside { IsSince limits (after [] (two (pos 3)) ∷ opened (two (pos 2)) ∷ []) (prims (codes "A" ∷ [])) 0 }
    ensures above { IsSince limits (after [] (two (pos 3)) ∷ opened (two (pos 2)) ∷ []) [] 0 }
{}

/// So do two batches of which the second gives the value back, though the view is the same.
pub fn an_edit_that_is_taken_back_dates_its_prim()
    ensures edited { IsSince limits (after (two (pos 3) ∷ []) (two (pos 2)) ∷ opened (two (pos 2)) ∷ []) (prims (codes "B" ∷ [])) 1 }
    ensures beside { IsSince limits (after (two (pos 3) ∷ []) (two (pos 2)) ∷ opened (two (pos 2)) ∷ []) (prims (codes "A" ∷ [])) 0 }
{}

/// A prim that was not on the stage is as it is since the version in which it comes, and changes the names of the root's prims.
pub fn a_new_prim_is_dated()
    ensures new_prim { IsSince limits (after [] (three (pos 2)) ∷ opened (two (pos 2)) ∷ []) (prims (codes "C" ∷ [])) 1 }
    ensures above { IsSince limits (after [] (three (pos 2)) ∷ opened (two (pos 2)) ∷ []) [] 1 }
    ensures beside { IsSince limits (after [] (three (pos 2)) ∷ opened (two (pos 2)) ∷ []) (prims (codes "B" ∷ [])) 0 }
{}

/// A chain of fifteen inherits overgrows a prim, whose classes are listed in each place to which they are handed up. A batch that gives another
/// value in the deepest class dates the prim anew: the class is one of the first nodes of the listing.
pub fn an_edit_dates_an_overgrown_prim()
    ensures { IsSince (with_room_for 16) (after [] (chain (pos 3)) ∷ opened (chain (pos 2)) ∷ []) (prims (codes "c0" ∷ [])) 1 }
{}
