//! Load rules, and the stages of small worlds, as closed equations.
ghost use Rattle.std.specs.Prelude.{◌≡◌, codes, true, false, [], ◌∷◌};
ghost use Rattle.composition.specs.Paths.{limits};
ghost use Rattle.composition.specs.Keys.{reads, same_keys, load, head, arcs, body};
ghost use Rattle.composition_worlds.specs.Looks.{stage_paths};
ghost use Rattle.composition_worlds.specs.Replies.{replies, children, sites, faults};
ghost use Rattle.composition_worlds.specs.Short.{prims};
ghost use Rattle.composition_worlds.specs.WorldPayloads.{world as of_payloads, world_with};
ghost use Rattle.composition_worlds.specs.WorldSession.{world as with_session};

/// Without rules payloads are followed, at each level.
pub fn payloads_are_followed_without_rules()
    ensures upper { replies of_payloads (prims (codes "A" ∷ [])) (children ∷ sites ∷ []) []
        ≡ record { text = codes "children /A: [\"k\", \"B\"]\nsites /A: 2\n  @root.usda@ /A\n  @p.usda@ /P\n"; answers = [] } }
    ensures lower { replies of_payloads (prims (codes "A" ∷ codes "B" ∷ [])) (children ∷ sites ∷ []) []
        ≡ record { text = codes "children /A/B: [\"m\"]\nsites /A/B: 2\n  @root.usda@ /A/B\n  @p.usda@ /Q\n"; answers = [] } }
    ensures missing { replies of_payloads (prims (codes "C" ∷ [])) (faults ∷ []) []
        ≡ record { text = codes "faults /C: 1\n  MissingLayer @root.usda@</C> payload @no.usda@</X>\n"; answers = [] } }
{}

/// Under a rule that unloads a prim its payloads and those below it are not even looked at: there is no arc, no fault, and their layer is not asked.
pub fn payloads_of_what_is_unloaded_are_passed_over()
    ensures upper { replies (world_with ((prims (codes "A" ∷ []), false) ∷ [])) (prims (codes "A" ∷ [])) (children ∷ sites ∷ []) []
        ≡ record { text = codes "children /A: [\"B\"]\nsites /A: 1\n  @root.usda@ /A\n"; answers = [] } }
    ensures lower { replies (world_with ((prims (codes "A" ∷ []), false) ∷ [])) (prims (codes "A" ∷ codes "B" ∷ [])) (children ∷ sites ∷ []) []
        ≡ record { text = codes "children /A/B: []\nsites /A/B: 1\n  @root.usda@ /A/B\n"; answers = [] } }
    ensures no_fault { replies (world_with ((prims (codes "C" ∷ []), false) ∷ [])) (prims (codes "C" ∷ [])) (faults ∷ []) []
        ≡ record { text = codes "faults /C: 0\n"; answers = [] } }
    ensures asked { same_keys (reads limits of_payloads (prims (codes "C" ∷ [])))
        (load (prims (codes "C" ∷ [])) ∷ arcs (codes "root.usda") (prims (codes "C" ∷ [])) ∷ head (codes "root.usda") ∷ head (codes "no.usda")
        ∷ body (codes "root.usda") (prims (codes "C" ∷ [])) ∷ []) ≡ true }
    ensures not_asked { same_keys (reads limits (world_with ((prims (codes "C" ∷ []), false) ∷ [])) (prims (codes "C" ∷ [])))
        (load (prims (codes "C" ∷ [])) ∷ arcs (codes "root.usda") (prims (codes "C" ∷ [])) ∷ head (codes "root.usda")
        ∷ body (codes "root.usda") (prims (codes "C" ∷ [])) ∷ []) ≡ true }
{}

/// The nearest rule decides, for the prim and for what its payload brings.
pub fn the_nearest_rule_decides()
    ensures upper { replies (world_with ((prims (codes "A" ∷ []), false) ∷ (prims (codes "A" ∷ codes "B" ∷ []), true) ∷ [])) (prims (codes "A" ∷ [])) (children ∷ []) []
        ≡ record { text = codes "children /A: [\"B\"]\n"; answers = [] } }
    ensures lower { replies (world_with ((prims (codes "A" ∷ []), false) ∷ (prims (codes "A" ∷ codes "B" ∷ []), true) ∷ [])) (prims (codes "A" ∷ codes "B" ∷ [])) (children ∷ sites ∷ []) []
        ≡ record { text = codes "children /A/B: [\"m\"]\nsites /A/B: 2\n  @root.usda@ /A/B\n  @p.usda@ /Q\n"; answers = [] } }
    ensures brought { replies (world_with ((prims (codes "A" ∷ []), false) ∷ (prims (codes "A" ∷ codes "B" ∷ []), true) ∷ [])) (prims (codes "A" ∷ codes "B" ∷ codes "m" ∷ [])) (sites ∷ []) []
        ≡ record { text = codes "sites /A/B/m: 1\n  @p.usda@ /Q/m\n"; answers = [] } }
    ensures other_way { replies (world_with ((prims (codes "A" ∷ []), true) ∷ (prims (codes "A" ∷ codes "B" ∷ []), false) ∷ [])) (prims (codes "A" ∷ codes "B" ∷ [])) (children ∷ sites ∷ []) []
        ≡ record { text = codes "children /A/B: []\nsites /A/B: 1\n  @root.usda@ /A/B\n"; answers = [] } }
{}

/// The stage is the root and each prim that a prim on it lists, depth first.
#[tactic(auto, unfolding(composition::specs::Compose::meaning))]
pub fn stages_go_depth_first()
    ensures loaded { stage_paths of_payloads
        ≡ [] ∷ prims (codes "A" ∷ []) ∷ prims (codes "A" ∷ codes "k" ∷ []) ∷ prims (codes "A" ∷ codes "B" ∷ []) ∷ prims (codes "A" ∷ codes "B" ∷ codes "m" ∷ [])
        ∷ prims (codes "C" ∷ []) ∷ [] }
    ensures unloaded { stage_paths (world_with ((prims (codes "A" ∷ []), false) ∷ []))
        ≡ [] ∷ prims (codes "A" ∷ []) ∷ prims (codes "A" ∷ codes "B" ∷ []) ∷ prims (codes "C" ∷ []) ∷ [] }
    ensures loaded_below { stage_paths (world_with ((prims (codes "A" ∷ []), false) ∷ (prims (codes "A" ∷ codes "B" ∷ []), true) ∷ []))
        ≡ [] ∷ prims (codes "A" ∷ []) ∷ prims (codes "A" ∷ codes "B" ∷ []) ∷ prims (codes "A" ∷ codes "B" ∷ codes "m" ∷ []) ∷ prims (codes "C" ∷ []) ∷ [] }
{}

/// A session layer's prims come last, since it is the strongest.
#[tactic(auto, unfolding(composition::specs::Compose::meaning))]
pub fn stages_have_the_prims_of_the_session()
    ensures { stage_paths with_session ≡ [] ∷ prims (codes "W" ∷ []) ∷ prims (codes "A" ∷ []) ∷ prims (codes "R" ∷ []) ∷ prims (codes "S" ∷ []) ∷ [] }
{}
