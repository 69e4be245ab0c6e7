//! The laws as the clause of a function that does nothing.
ghost use Rattle.choice_rounds.specs.Laws.{ChoosesByRounds};

/// Composition chooses the variants of a prim by the rounds of `variant_select`, whatever trees nodes have: each round decides what
/// those decide of the sets that are met in its tree, and the choices after all rounds are those after sixteen of them.
pub fn composition_chooses_by_rounds()
    ensures { ChoosesByRounds }
{}
