//! What the definitions of texts, paths and lists give, on closed terms: each record of examples as the clause of a function that
//! does nothing.
ghost use Rattle.text_examples.specs.ListEdits.{AreTold as EditsAreTold};
ghost use Rattle.text_examples.specs.Lists.{AreTold as ListsAreTold};
ghost use Rattle.text_examples.specs.Paths.{AreTold as PathsAreTold};
ghost use Rattle.text_examples.specs.Refusals.{AreTold as RefusalsAreTold};
ghost use Rattle.text_examples.specs.Tokens.{AreTold as TokensAreTold};
ghost use Rattle.text_examples.specs.Values.{AreTold as ValuesAreTold};

/// Texts with their tokens and the fault behind them, what strings, assets, paths and numbers mean, and lines and columns.
pub fn tokens_are_told()
    ensures { TokensAreTold }
{}

/// Texts that are read as values, with a type or without, and texts that are refused, each with its kind and its byte.
pub fn values_are_told()
    ensures { ValuesAreTold }
{}

/// Lists by their edits, which of them one field may have, paths that texts mean below a prim, references and offsets.
pub fn lists_are_told()
    ensures { ListsAreTold }
{}

/// Paths with their texts, texts that are no path with the byte that shows it, and parents, prefixes and other parts of paths.
pub fn paths_are_told()
    ensures { PathsAreTold }
{}

/// What each list edit makes of a list, the order in which edits apply, repeats, reorders, and folds of several opinions.
pub fn list_edits_are_told()
    ensures { EditsAreTold }
{}

/// Texts of layers that are refused first at a line and a column, and texts that say a layer.
pub fn refusals_are_told()
    ensures { RefusalsAreTold }
{}
