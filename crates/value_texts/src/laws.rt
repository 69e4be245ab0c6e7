//! What holds of the canonical texts of values, each law as the clause of a function that does nothing.
ghost use Rattle.value_texts.specs.Laws.{AreTokens, AreWords, AreGiven, AreRead, AreDictionariesRead, AreSourcesRead, AreTypesRead, AreTypedRead};
ghost use Rattle.value_texts.specs.Pieces.{ArePieces, AreMeant, AreQuotedPlainly};
ghost use Rattle.value_texts.specs.Examples.{AreTold};
ghost use Rattle.value_texts.specs.Following.{AreFollowing};

/// The canonical text of a value that can be written is the value's tokens, wherever it stands.
pub fn values_are_tokens()
    ensures { AreTokens }
{}

/// The canonical text of a value that can be written is the value's words for the grammar.
pub fn values_are_words()
    ensures { AreWords }
{}

/// The tokens of a value put the value into a draft in which it is expected.
pub fn values_are_given()
    ensures { AreGiven }
{}

/// What is printed of a value is read as that value where it is expected, and nothing behind it is taken.
pub fn values_are_read()
    ensures { AreRead }
{}

/// What is printed of a dictionary is read as that dictionary, whatever follows.
pub fn dictionaries_are_read()
    ensures { AreDictionariesRead }
{}

/// A source that begins with the text of a value is read as that value, and what follows is left.
pub fn sources_are_read()
    ensures { AreSourcesRead }
{}

/// Where a type is expected, the values that are read as themselves are those of the type and the block.
pub fn types_are_read()
    ensures { AreTypesRead }
{}

/// What is printed of a value of a type is read as that value where the type is expected.
pub fn typed_values_are_read()
    ensures { AreTypedRead }
{}

/// Which pieces of text are which tokens: names, numbers, strings, assets, paths, blanks and marks.
pub fn pieces_are_tokens()
    ensures { ArePieces }
{}

/// What the tokens of numbers, strings, assets and paths mean is what was printed.
pub fn tokens_are_meant()
    ensures { AreMeant }
{}

/// Names stand between quotes as they are.
pub fn names_are_quoted_plainly()
    ensures { AreQuotedPlainly }
{}

/// Values that can be written and read, and values that cannot.
pub fn examples_are_told()
    ensures { AreTold }
{}

/// The draft of a value goes with the grammar: what it awaits are the symbols that the grammar has on its stack, and it
/// answers `Syntax` to exactly the tokens that the grammar does not take there, but for a path that is none. A number that is
/// too long is `Syntax` exactly where any number is.
pub fn values_follow_the_grammar()
    ensures { AreFollowing }
{}
