//! What the machine has to do with the grammar.
ghost use Rattle.usda_grammar.specs.Laws.{RefusedHasNoText, TakenHasText, AcceptedIsText, TextHasOneDerivation};
ghost use Rattle.usda_grammar.specs.Examples.{AreTold};

/// With a token that the machine does not take, no text goes on.
pub fn refused_has_no_text()
    ensures { RefusedHasNoText }
{}

/// What the machine has taken is the front of some text.
pub fn taken_has_text()
    ensures { TakenHasText }
{}

/// What the machine takes to its end is a text, and nothing else is.
pub fn accepted_is_text()
    ensures { AcceptedIsText }
{}

/// A text comes from the symbols of a layer in one way.
pub fn text_has_one_derivation()
    ensures { TextHasOneDerivation }
{}

/// Texts that are in the grammar, and texts that are not, with the place of the first token with which none goes on.
pub fn examples_are_told()
    ensures { AreTold }
{}
