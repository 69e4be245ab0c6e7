//! Arcs whose offset is out of range, and one without a target, as closed equations.
ghost use Rattle.std.specs.Prelude.{◌≡◌, codes, [], ◌∷◌};
ghost use Rattle.composition_worlds.specs.Replies.{replies, sites, faults};
ghost use Rattle.composition_worlds.specs.Short.{prims};
ghost use Rattle.composition_worlds.specs.WorldRefusedArcs.{world as of_refused_arcs};

/// An arc is not followed where its offset, composed towards the stage, is out of range, and is a fault of the prim that it would
/// be followed for alone.
pub fn offsets_compose_towards_the_stage()
    ensures scale { replies of_refused_arcs (prims (codes "A" ∷ [])) (sites ∷ faults ∷ []) []
        ≡ record { text = codes "sites /A: 2\n  @root.usda@ /A\n  @root.usda@ /B\nfaults /A: 1\n  OffsetRange @root.usda@</B> references </C> (offset = 0; scale = 2)\n"; answers = [] } }
    ensures in_range { replies of_refused_arcs (prims (codes "B" ∷ [])) (sites ∷ faults ∷ []) []
        ≡ record { text = codes "sites /B: 2\n  @root.usda@ /B\n  @root.usda@ /C\nfaults /B: 0\n"; answers = [] } }
    ensures offset { replies of_refused_arcs (prims (codes "F" ∷ [])) (sites ∷ faults ∷ []) []
        ≡ record { text = codes "sites /F: 2\n  @root.usda@ /F\n  @root.usda@ /G\nfaults /F: 1\n  OffsetRange @root.usda@</G> references </C> (offset = 1; scale = 1)\n"; answers = [] } }
    ensures at_the_limit { replies of_refused_arcs (prims (codes "H" ∷ [])) (sites ∷ faults ∷ []) []
        ≡ record { text = codes "sites /H: 3\n  @root.usda@ /H\n  @root.usda@ /G\n  @root.usda@ /C\nfaults /H: 0\n"; answers = [] } }
{}

/// An item gives no arc where its offset in the stack that has it is out of range, or together with that of a layer of its target's stack.
pub fn offsets_compose_with_layers()
    ensures of_its_own_stack { replies of_refused_arcs (prims (codes "D" ∷ [])) (sites ∷ faults ∷ []) []
        ≡ record { text = codes "sites /D: 2\n  @root.usda@ /D\n  @v.usda@ /V\nfaults /D: 1\n  OffsetRange @s.usda@</V> references @c.usda@</C> (offset = 0; scale = 2000000)\n"; answers = [] } }
    ensures of_the_targets_stack { replies of_refused_arcs (prims (codes "E" ∷ [])) (sites ∷ faults ∷ []) []
        ≡ record { text = codes "sites /E: 1\n  @root.usda@ /E\nfaults /E: 1\n  OffsetRange @root.usda@</E> references @t.usda@</T> (offset = 0; scale = 1000000)\n"; answers = [] } }
{}

/// A reference without a path leads nowhere where the layer has no default prim.
pub fn a_missing_default_prim_is_a_fault()
    ensures { replies of_refused_arcs (prims (codes "N" ∷ [])) (sites ∷ faults ∷ []) []
        ≡ record { text = codes "sites /N: 1\n  @root.usda@ /N\nfaults /N: 1\n  NoDefaultPrim @root.usda@</N> references @n.usda@\n"; answers = [] } }
{}
