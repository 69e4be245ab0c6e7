//! What holds of blanks and comments, each law as the clause of a function that does nothing.
ghost use Rattle.usda_lexer.specs.Laws.{AreGapsGoneOver, IsTokenInNoComment};

/// Blanks and whole comments behind which neither a blank nor a comment begins are exactly what is gone over.
pub fn gaps_are_gone_over()
    ensures { AreGapsGoneOver }
{}

/// A comment that begins with `#` ends with its line, whatever it holds.
pub fn comments_end_with_their_line()
    ensures { IsTokenInNoComment }
{}
