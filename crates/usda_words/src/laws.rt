//! What holds of the words of every text.
ghost use Rattle.usda_words.specs.Examples.{AreTold};

/// Tokens and their words: a `.` with blanks and comments beside it, what is no token, and words of each kind.
pub fn examples_are_told()
    ensures { AreTold }
{}
