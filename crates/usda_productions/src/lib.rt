//! The grammar of a layer's text as it is written down, production by production, with the symbol by which each word is acted on,
//! and that the table of `usda_grammar` has the same texts, of which its words make the same.
#![tactic(auto)]

ghost use Rattle.usda_productions.specs.Productions.{TableIsProductions, KindsAreMadeTheSame};

/// The texts of the table are those of the productions.
pub fn table_is_productions()
    ensures { TableIsProductions }
{}

/// By the productions each word is acted on by the symbol that takes it in the table. The lemmas say it of whatever words mean: what
/// the table makes of words the productions make of them, and where it refuses them first they do.
pub fn productions_make()
    ensures { KindsAreMadeTheSame }
{}
